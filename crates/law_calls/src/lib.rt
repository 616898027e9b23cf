//! What one call of a deployed module does in a run.
//!
//! If a module is protected and no module runs on its node, a `call` does what its
//! invocation says and nothing else. It shows the items of the invocation's marks, and then `done`
//! or the node's reset; it never uses up its steps; and it leaves the node as the invocation says.
//! So it is for every entry, every window and every state of the module.
//!
//! Read `specs/Calls.antt` first. `specs/Shown.antt` says what marks show, `specs/Laws.antt` has
//! what holds of every call, and `specs/FourCalls.antt` the four entries with their windows in low
//! memory. The crate speaks of the definitions of `spec_run`; there is no code here.
//!
//! `proofs/Running.antt` is the core: one induction over the steps from a module's entry to its
//! end.
#![tactic(auto)]

pub mod laws;
