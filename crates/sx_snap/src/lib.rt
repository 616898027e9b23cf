//! The lines of a run, and where it is after any of them.
//!
//! A `Timeline` keeps the lines that were pushed, and after each so many of them a checkpoint: a
//! world of its own. `seek` and `items` copy the nearest checkpoint at or before the line that is
//! asked for, and perform the lines from there. What they answer is said by the run's definition
//! alone, from power-on (specs/Timeline.antt), and what it keeps by specs/Checkpoints.antt; `laws`
//! has what the items of single lines are of the whole run's.
#![tactic(auto)]

pub mod laws;
mod timeline;

pub use timeline::Timeline;
