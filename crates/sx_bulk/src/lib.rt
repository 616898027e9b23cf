//! A workload for runs: a deployment, and the lines of a schedule that carries samples through it.
//!
//! `HEAD` is the deployment's text. The first 26 lines load its modules and give them their keys,
//! and then eight lines carry each sample from the sensor to the bulb. `line` makes a line by its
//! number, so that nobody has to keep them all; specs/Bulk.antt says which they are. No call takes
//! memory.
//!
//! `laws` says that the deployment is accepted, and that each line keeps the rules of a schedule:
//! specs/Laws.antt.
#![tactic(auto)]

mod deployment;
pub mod laws;
mod workload;

pub use deployment::{HEAD, head};
pub use workload::{MOST_SAMPLES, line, lines};
