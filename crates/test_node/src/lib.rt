//! Worked cases of the crates of a node, from single words to module instructions, as tests, of what
//! no command prints. Whole steps are rows of `tests/rows`.
//!
//! They use what these crates give to everybody, and are in a crate of their own since the tests
//! of a crate are proved together with all of it: so a change of a test proves no crate again.
//!
//! `words` reads and writes instructions, `calculations` works the table of arithmetic, `memories`
//! and `pages` fill memories, `sections` asks a table of sections, and `tags` makes tags and keys.
//! `module_instructions` steps an executor.
#![tactic(auto)]

#[cfg(test)]
mod calculations;
#[cfg(test)]
mod memories;
#[cfg(test)]
mod module_instructions;
#[cfg(test)]
mod pages;
#[cfg(test)]
mod sections;
#[cfg(test)]
mod tags;
#[cfg(test)]
mod words;
