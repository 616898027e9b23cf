//! Where what templates alone use lies in a private section: offsets in bytes from its start, as
//! `specs/Scratch.antt` has them.

use spec_invocation::protocol::{HEADER_SIZE, TAG_SIZE, VALUE_SIZE};
use sx_mean::offsets::{PACKET, SCRATCH};

/// Where a handler's part returns to.
pub const RETURN: u16 = SCRATCH;

/// The kind of the packet that is being made, with which its header begins.
pub const KIND: u16 = RETURN + 2;

/// Its connection field.
pub const CONNECTION: u16 = KIND + 2;

/// Its number.
pub const NUMBER: u16 = CONNECTION + 2;

/// How many bytes its header has.
pub const HEADER: u16 = HEADER_SIZE as u16;

/// How many bytes its body has.
pub const VALUE: u16 = VALUE_SIZE as u16;

/// After the header its cipher.
pub const CIPHER: u16 = KIND + HEADER;

/// After the cipher its tag.
pub const TAG: u16 = CIPHER + VALUE;

/// Its body, which is the value that is sent.
pub const BODY: u16 = TAG + TAG_SIZE;

/// The caller's SP.
pub const CALLER_SP: u16 = 148;

/// The connection field of the copied packet.
pub const COPIED_CONNECTION: u16 = PACKET + 2;

/// The caller's in-window, which its R13 holds.
pub const IN_WINDOW: u16 = 8;

/// The caller's out-window, which its R14 holds.
pub const OUT_WINDOW: u16 = 10;

/// The caller's return address, which its R15 holds.
pub const CALLER: u16 = 12;
