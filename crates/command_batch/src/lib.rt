//! The command `batch`: a deployment, lines that many runs have in common, and their schedules,
//! each of which is run from the world after the common lines.
//!
//! What it promises is `BatchPromise` of specs/Promise.antt. It is a command that deploys
//! (command_deploy), whose own part writes `batch_deployed` (specs/Output.antt). An answer is what
//! `run` writes of the common lines and the schedule after them, less the common lines' items
//! (`laws`).
#![tactic(auto)]

mod batch;
mod common;
pub mod laws;
mod passing;
mod schedules;

pub use batch::batch_over;
