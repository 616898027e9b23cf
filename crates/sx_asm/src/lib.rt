//! An assembler and a disassembler of the instructions of sx_isa.
//!
//! `assemble` gives the bytes of a text, or the first of five rules that it breaks and the first
//! line that breaks it. `show` writes the text of an instruction, and `dis` that of the first
//! instruction of some bytes. What they write is assembled to the same bytes (`laws`). `hex` writes
//! a number as they do.
//!
//! What must be believed is in specs/: Words.antt and Tokens.antt (names, signs and tokens),
//! Grammar.antt (statements), Reading.antt (lines; rule 1), Meaning.antt (addresses and
//! instructions), Assembled.antt (rules 2 to 5, and their order) and Shown.antt (what is shown).
//! Fronts.antt, Adding.antt and Forms.antt are forms that code computes with.
#![tactic(auto)]

mod assembling;
pub mod error;
mod grammar;
mod labels;
pub mod laws;
mod lexing;
mod meaning;
mod reading;
mod showing;
mod written;

pub use assembling::assemble;
pub use error::AsmError;
pub use showing::{dis, hex, show};
