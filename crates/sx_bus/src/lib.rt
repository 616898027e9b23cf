//! A node's memory and its devices.
//!
//! `Bus` is a memory of 65,536 bytes, and `FlatBus` keeps it in one piece. A device is one word of
//! the memory; `Windows` holds the devices of a node. Contracts see a bus as its list of bytes, and
//! `Windows` as the list of its devices. A memory that is `Copied`, and `Windows`, can be copied.
//! Only the constructors and the copies take memory.
//!
//! The words of the contracts are defined in `specs/Memory.antt` and `specs/Devices.antt`.
#![tactic(auto)]

pub use copied::Copied;
pub use devices::{Kind, Window, Windows};
pub use flat::FlatBus;
pub use memory::Bus;

mod copied;
mod devices;
mod flat;
mod memory;
