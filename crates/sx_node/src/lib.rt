//! One node: registers, memory, devices and protected sections, driven by its own code and by acts
//! from outside.
//!
//! A node's value is the plain record `State` of `spec_machine`; each call of `Node` is the function
//! of the same name there, whatever the bus and the tag. Guarding is stated there too, as laws of
//! these functions, and here as clauses of the calls.
#![tactic(auto)]

mod acts;
mod node;

pub use node::Node;
pub use spec_machine::{Event, Exchange, Refused, Seen, Touch};
