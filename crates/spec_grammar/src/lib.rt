//! The grammar of the handler language, over tokens and over a text's bytes.
//!
//! `specs/Grammar.antt` has the grammar as relations, and where the first fault of a list of tokens
//! is; `specs/Tokens.antt` what the kinds of tokens are for and the bound that is asked of them,
//! and `specs/Text.antt` the same of a text's bytes. `laws` promises that a text spells one module
//! or has one first fault, and never both.
//!
//! `specs/Machine.antt` is a second form of the grammar, to compute with; `proofs/Faults.antt` ties
//! it to the first.
#![tactic(auto)]

pub mod laws;
