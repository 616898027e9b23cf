//! The tokens of a module's text: each the longest possible, with the place of its first byte.
//!
//! `reading::tokens_of` reads a whole text. Its clause is the relation `Lexed` of
//! `specs/Lexed.antt`, which uses `kind_of`, the token that a whole word is, of `specs/Words.antt`.
//! `laws` promises that a text has exactly one reading.
#![tactic(auto)]

pub mod laws;
pub mod quoted;
pub mod reading;
mod scan;
pub mod tokens;
