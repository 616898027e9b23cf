//! Whole runs as tests that the program can't show: over streams that fail or come in pieces, and
//! with a weak tag. All other runs are rows in `tests/rows`.
//!
//! They use what these crates give to everybody, and are in a crate of their own since the tests
//! of a crate are proved together with all of it: so a change of a test proves no crate again.
//!
//! `inputs` has the words, the streams, and the lighting with a sample of light. `streams` has runs
//! of all commands, `traces` and `drives` more of `explain` and `drive`, `forged` the one with a
//! weak tag. Inputs are rows of constant tables: a row costs no proof of its own.
#![tactic(auto)]

#[cfg(test)]
mod drives;
#[cfg(test)]
mod forged;
#[cfg(test)]
mod inputs;
#[cfg(test)]
mod streams;
#[cfg(test)]
mod traces;
