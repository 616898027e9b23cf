//! What all commands share: texts that take no memory, lines that are written together, addresses,
//! and the last line of a fault.
//!
//! `specs/Output.antt` and `specs/Refusals.antt` have the lines that they write at their end, and
//! `specs/Faults.antt` what they say of reads and writes that fail.
#![tactic(auto)]

pub mod address;
pub mod batch;
pub mod fault;
pub mod text;
