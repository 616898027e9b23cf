//! An index of a list of names: the first place of each, found without going through the list.
//!
//! `index::NameIndex` is filled with the names in their order, and gives the place of a text that
//! is one of them. `specs/Places.antt` says where a name is, and `specs/Index.antt` what an index
//! is.
#![tactic(auto)]

pub mod index;
pub mod keys;
