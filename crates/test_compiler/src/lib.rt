//! Worked cases of the compiler's parts, as tests.
//!
//! They use what these crates give to everybody, and are in a crate of their own since the tests
//! of a crate are proved together with all of it: so a change of a test proves no crate again.
//!
//! `modules` has small modules; `codes` are sizes, soundness and joining of stack code, `lowered`
//! the code of handlers, `protocols` that of the entry protocol, and `texts` instructions.
#![tactic(auto)]

#[cfg(test)]
mod codes;
#[cfg(test)]
mod lowered;
#[cfg(test)]
mod modules;
#[cfg(test)]
mod protocols;
#[cfg(test)]
mod texts;
