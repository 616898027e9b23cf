//! The handler language's printer: from a module's tree to a text that reads back as that tree.
//!
//! `printing::print` writes a module for which `conditions::printable` holds. Its clause `text` is
//! the text, as `specs/Pieces.antt` has it by cases on the tree; its clause `spells` that the text
//! is this module's by the grammar of `spec_grammar`. `specs/Printable.antt` says which modules can
//! be printed.
#![tactic(auto)]

pub mod conditions;
pub mod printing;
mod words;
