//! The numbers of the entry protocol, as `specs/Protocol.antt` has them. They are no enums: a caller
//! and a module pass them in registers and packets, so code computes with them.

/// The entry that takes a set-key packet.
pub const SET_KEY_ENTRY: u16 = 0;

/// The entry that answers an ask.
pub const ATTEST_ENTRY: u16 = 1;

/// The entry that takes an event packet.
pub const INPUT_ENTRY: u16 = 2;

/// The entry that reads the sensor. No entry is above it.
pub const SAMPLE_ENTRY: u16 = 3;

/// The caller's register of the entry.
pub const ENTRY_REGISTER: u8 = 12;

/// The caller's register of the in-window.
pub const INPUT_REGISTER: u8 = 13;

/// The caller's register of the out-window.
pub const OUTPUT_REGISTER: u8 = 14;

/// The status where all is done.
pub const ALL_DONE: u16 = 1;

/// The status where there is no such entry.
pub const NO_ENTRY: u16 = 2;

/// The status where a window is bad.
pub const BAD_WINDOW: u16 = 3;

/// The status where the packet is of another kind.
pub const OTHER_KIND: u16 = 4;

/// The status where no end takes the packet.
pub const NO_END: u16 = 5;

/// The status where the packet's number is past.
pub const PAST_NUMBER: u16 = 6;

/// The status where the packet's tag differs.
pub const OTHER_TAG: u16 = 7;

/// The status where the sensor has no new sample.
pub const NO_SAMPLE: u16 = 8;

/// The first byte of a packet that gives an end its key.
pub const SET_KEY_KIND: u16 = 1;

/// The first byte of a packet that asks who is there.
pub const ASK_KIND: u16 = 2;

/// The first byte of a packet that brings a value.
pub const EVENT_KIND: u16 = 3;

/// How many bytes a set-key packet has.
pub const SET_KEY_SIZE: u16 = 38;

/// How many bytes an ask has.
pub const ASK_SIZE: u16 = 18;

/// How many bytes an event packet has.
pub const EVENT_SIZE: u16 = 24;

/// How many bytes the header of a set-key or event packet has.
pub const HEADER_SIZE: u8 = 6;

/// How many bytes the header of an ask has, which is all of it.
pub const ASK_HEADER_SIZE: u8 = 18;

/// How many bytes a tag has.
pub const TAG_SIZE: u16 = 16;

/// How many bytes a key has.
pub const KEY_SIZE: u8 = 16;

/// How many bytes a value has.
pub const VALUE_SIZE: u8 = 2;

/// The number that no packet has, since none could follow it.
pub const LAST_NUMBER: u16 = 65535;

/// How many bytes the in-window has.
pub const IN_WINDOW_SIZE: u16 = 40;

/// How many bytes the out-window has.
pub const OUT_WINDOW_SIZE: u16 = 384;
