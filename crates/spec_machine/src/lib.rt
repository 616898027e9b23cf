//! What a node of the machine is and does, as definitions over plain data.
//!
//! The definitions are in `specs/`: the state of a node, the plans that instructions are, the one
//! executor that checks every access of a plan, the step, and what it is that a section is guarded.
//! The crates above prove their code against them. This crate has the types that the definitions
//! name, and laws of the definitions: public functions with an empty body.
#![tactic(auto)]

pub mod kinds;
pub mod laws;

pub use kinds::{Event, Exchange, Refused, Seen, Touch};
