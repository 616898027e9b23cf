//! The ten rules that a module must keep, and the module that keeps them.
//!
//! `check` answers a `Checked` module, or the first of the rules that is broken, with the module
//! handed back. It needs no memory, though many names are found by an index. Each rule is a
//! definition of its own in `specs/Rules.antt`, on the tree that `sx_lang` has as plain data;
//! `specs/Names.antt` says which names a handler defines and uses and `specs/Bounds.antt` how high,
//! how deep and how long its code is. `laws::accepted` says what a module that keeps the rules
//! satisfies, as one record in `specs/Accepted.antt`.
#![tactic(auto)]

mod bounds;
pub mod checked;
pub mod checks;
mod declared;
mod indexed;
pub mod laws;
mod locals;
mod repeated;
pub mod rules;
mod scopes;
mod seen;
mod uses;
