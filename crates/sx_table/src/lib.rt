//! Tables: where an application may be while a property has seen what it has, and whether no
//! item
//! leads out of one.
//!
//! `shut::is_shut` and `shut::is_open` are the check of a table, `find` makes one. Nothing here
//! need be
//! believed: `law_never` has what a table that passes shows of all runs.
#![tactic(auto)]

pub mod boxes;
pub mod demands;
pub mod leads;
pub mod made;
pub mod places;
pub mod rows;
pub mod shut;
pub mod stays;
