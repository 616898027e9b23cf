//! The instruction words of the MSP430 (TI, MSP430x2xx Family User's Guide, "CPU") with the Sancus
//! instructions: which instructions there are, how they are spelled in words and how words are
//! read.
//!
//! `encode` gives the words of an instruction and `decode` reads them back; `valid` and `length`
//! are the tests to make before them. `with_word` and `with_words` put extension words into operands
//! that were decoded before they were available. None of them takes memory. `assembly` has
//! instructions as TI's guide writes them, for code that writes some out; a list of them has words
//! where `specs/Shaped.antt` computes so. What must be believed is in specs/: Spelling.antt (the
//! words of an instruction), Legal.antt (what is allowed of an operation on one operand) and
//! Instructions.antt (which instructions there are, and which first words none has). Reading.antt
//! computes the instruction from the fields of its first word, for proofs on given words; `laws`
//! shows that it agrees.
#![tactic(auto)]

pub mod assembly;
mod extension;
mod fields;
pub mod instruction;
pub mod laws;
pub mod reading;
pub mod writing;

pub use extension::{with_word, with_words};
pub use instruction::{Instr, Op1, Op2, Operand, Words};
pub use reading::{decode, length};
pub use writing::{encode, valid};
