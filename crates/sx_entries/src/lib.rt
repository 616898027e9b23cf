//! From a deployment's text to its entries: rules 3 to 5.
//!
//! `documents::table_of` reads the text as a TOML document (rule 3), `rows::rows_of` takes from it
//! the rows of its arrays with the values at their keys (rule 4), and `entries::entries_of` makes
//! entries of them, each under a name of its own and with the places of those that it names (rule
//! 5). Each answer is exactly the one that is defined, unless memory ran out. `listed::Listed`
//! keeps entries with an index of their names, so that no name is looked for entry by entry.
//!
//! A deployment is read in stages, and the form of a rule is here too. A stage makes entries of one
//! type into entries of another, in order (`stages::derived`), or tries lines of the table of rules
//! on entries that stay (`lines::entries`, `lines::whole`). Each ends at the first fault, with the
//! rule's number and the place.
//!
//! `specs/Documents.antt` has rule 3, `specs/Rows.antt` and `specs/Arrays.antt` rule 4 on top of
//! `specs/Fields.antt`, and `specs/Entries.antt` rule 5. `specs/Stage.antt` and `specs/Lines.antt`
//! say what stages and lines are, `specs/Fault.antt` has faults, and `specs/Gives.antt` says when an
//! answer is the right one, unless memory ran out.
#![tactic(auto)]

pub mod arrays;
pub mod documents;
pub mod entries;
pub mod fault;
pub mod fields;
pub mod laws;
pub mod lines;
pub mod listed;
pub mod rows;
pub mod stages;
