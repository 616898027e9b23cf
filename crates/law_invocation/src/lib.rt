//! What an invocation of a module gives: when each of the four entries returns with all done, and
//! the state, marks and pieces that it then leaves.
//!
//! `specs/Gives.antt` says what it means that an invocation gives something, with the caller's
//! windows in low memory, where no section and no device begins; read it first. `specs/Effect.antt`
//! has what a handler's acts make, as a function of them, and `specs/Laws.antt` the laws. There is
//! no code here; `spec_invocation` has the definition of an invocation.
//!
//! `proofs/Making.antt` is the core: if a handler makes few packets, none of its copies is
//! refused. `proofs/Worked.antt` meets the premises of the laws on a small application.
#![tactic(auto)]

pub mod laws;
