//! The search for a table that shows that no run breaks a property.
//!
//! `search::find_table` closes rows under all items within limits. Nothing is promised of what it
//! finds; `decide::decide` lets the check of `law_never` judge it. `blocks` has which numbers are
//! told apart, `relevance` what the property depends on, `moves` the items from a row, and `merging`
//! what they add to rows.
#![tactic(auto)]

pub mod blocks;
pub mod decide;
pub mod gaps;
pub mod merging;
pub mod moves;
pub mod relevance;
pub mod search;
