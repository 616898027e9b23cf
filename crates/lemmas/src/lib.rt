//! What the proofs of many crates need of truth values, numbers, lists, results and texts.
//!
//! `truth` in `specs/Truth.antt` is a truth value as a number. The lemmas are in `proofs/`, in a
//! file for each kind. The crate has no code.
#![tactic(auto)]
