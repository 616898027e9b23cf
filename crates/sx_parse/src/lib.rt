//! The parser of the handler language.
//!
//! `parse::parse` reads a text to the tree of its module. It answers the module that the text
//! spells by the grammar of `spec_grammar`, or the place of the text's first fault;
//! `specs/Parsed.antt` says what is promised about an error. The other definitions in `specs/` say
//! what each part of the parser does to the grammar's machine.
//!
//! `print` and `printable` are those of `sx_print`. That what was printed is parsed to the same
//! module is the contract of `printed::reread`.
#![tactic(auto)]

mod declaration;
pub mod error;
mod expression;
mod handler;
mod operator;
pub mod parse;
pub mod printed;
mod sign;
mod statement;
mod stop;

pub use sx_print::conditions::printable;
pub use sx_print::printing::print;
