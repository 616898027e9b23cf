//! The lines of a schedule.
//!
//! `parse_line` gives the line that a text says, or the first rule that the text breaks: 3, an
//! unknown first word; 7, a wrong number of words; then word by word 4, an unknown name, 5, no
//! number or one out of range, 6, no hexadecimal text of as many bytes as are allowed; and last 8,
//! a text that isn't assembled to 1 to 1,024 bytes. A line that it gives is in form for the names.
//! `write_line` writes a line that has no bytes of its own, and what it writes says this line.
//! `words` parts a line into words, for other inputs too whose lines are made of words.
//!
//! `specs/Lines.antt` has the lines, `specs/Reading.antt` what each kind of line says,
//! `specs/Words.antt` what a word is, `specs/InForm.antt` when a line is in form, and
//! `specs/Written.antt` the texts that are written.
//! `laws` has what holds of them.
#![tactic(auto)]

mod fields;
pub mod laws;
pub mod lines;
mod parsing;
pub mod words;
mod writing;

pub use parsing::parse_line;
pub use writing::write_line;
