//! The packets between the deployer and the modules, and between modules.
//!
//! Each packet is a struct with a `write` function that gives its bytes and a `read` function that
//! is `None` exactly where the length or the first two bytes are another packet's. Each reads back
//! what the other gives, and a packet has one spelling (`laws`). No call takes memory.
//!
//! `headers` has the kinds, and what the fields of a header say to whom a packet's header alone is
//! shown.
//!
//! `specs/Headers.antt` has asks and headers, `specs/Packets.antt` the packets as structs.
#![tactic(auto)]

pub use headers::{
    challenge_in, epoch_in, is_ask, is_event_header, is_set_key_header, last_in, link_in, value_in,
};
pub use packets::{EventPacket, SetKeyPacket};
pub use reading::{read_ask, read_event, read_set_key};
pub use writing::{write_ask, write_event, write_set_key};

mod headers;
pub mod laws;
mod packets;
mod reading;
mod writing;
