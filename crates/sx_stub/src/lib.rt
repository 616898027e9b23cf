//! The stub: the entry protocol of a module as stack code.
//!
//! `stub` gives the operations that a call of a module begins with: they test the entry and the
//! windows, take keys, challenges, packets and samples, and answer with a status. A handler is
//! named by its index among the module's handlers; `sx_ir::join` puts its part after them. By its
//! contract, `StubsTo` in `specs/Stubs.antt`, the code is the one that `specs/Stub.antt` defines,
//! it fits into the weight beside the bytes of the module's nodes, and templates can be made for it
//! in all code that it is a part of.
//!
//! `laws` say that it does an invocation, as `specs/Invokes.antt` has it: in any code that starts
//! with its operations and in which each `Handler` does the handler of its event, and joined with
//! the handlers' parts.
#![tactic(auto)]

mod answers;
mod finding;
mod handled;
mod inputs;
mod keys;
pub mod laws;
mod pieces;
mod protocol;
mod samples;

pub use protocol::{links_fit, stub};
