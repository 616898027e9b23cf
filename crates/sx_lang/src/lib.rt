//! The handler language's syntax tree, its names and the sizes that its formulas give.
//!
//! A module is a list of declarations and a list of handlers; `tree` has its types, `names` the
//! names in it and `sizes` the four sizes of a module. Each size is promised for every tree that
//! can be made, whether or not a checker accepts it. `words::words` says that the numbers of a tree
//! in memory are 16-bit words.
//!
//! `specs/Tree.antt` has the same tree as plain data, `specs/View.antt` what contracts see of a
//! tree, `specs/Sizes.antt` the sizes' formulas, and `specs/Words.antt` what it means that a tree's
//! numbers are words.
#![tactic(auto)]

pub mod names;
pub mod sides;
pub mod sizes;
pub mod tree;
pub mod words;
