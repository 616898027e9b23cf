//! What a run asks of the tag function, and that it depends on nothing else of it.
//!
//! `specs/Uses.antt` has the uses of a moment: a tag is *given*, it is *tried*, or only its size
//! counts. `laws` says that a run depends on the answers to its uses alone, that what is given under
//! a deployed module's key is entered in the ledger, and that what was never given shows in nothing
//! until a try hits it.
#![tactic(auto)]

pub mod laws;
