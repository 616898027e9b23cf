//! The instructions of stack code: one template for each operation, and the text that is made of
//! them.
//!
//! `emit` gives a text: exactly the bytes that `specs/Text.antt` defines, from the words of
//! `specs/Template.antt`. Its contract says that the text does its code on every node that a call
//! enters (`DoesCode` in `specs/Performs.antt`): from the entry the node comes to the first
//! configuration, each operation's instructions do what the operation means, and `Leave` returns to
//! the caller. `specs/Shows.antt` says when a node stands for a configuration, over
//! `specs/Running.antt`, a module in mid-run.
#![tactic(auto)]

mod put;
mod routines;
mod scratch;
mod table;
mod templates;
mod text;

pub use text::emit;
