//! What a module may do at an event, where the event's value and the module's cells are known by
//! intervals.
//!
//! `reactions::react_within` finds the paths through the handler, and `laws` has that whatever the
//! values in the intervals are, what the module does follows one of the paths (`specs/Sound.antt`).
#![tactic(auto)]

pub mod intervals;
pub mod laws;
mod narrowing;
mod operators;
pub mod paths;
pub mod pieces;
pub mod ranges;
pub mod reactions;
pub mod stop;
