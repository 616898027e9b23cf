//! Whether any run of an application can break a property, whatever anybody does.
//!
//! `specs/Never.antt` says what it means that none can. `shows::shows` says whether a table of
//! `sx_table` shows it, and `laws` has what a closed table shows of legal runs.
#![tactic(auto)]

pub mod laws;
pub mod shows;
