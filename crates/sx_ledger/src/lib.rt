//! The ledger: who made which header and body.
//!
//! An `Entry` is a header and a plain body that a holder of the key wrapped. A `Ledger` is the set
//! of the entries that were made: contracts see it as a list without order, and say what it
//! contains.
//!
//! `specs/Made.antt` has an entry as plain data, without the room after its header and its body.
#![tactic(auto)]

pub use entry::{Entry, Maker};
pub use ledger::Ledger;

mod entry;
pub mod laws;
mod ledger;
