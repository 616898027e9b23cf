//! The command `gen`: the run of the workload of sx_bulk, and what is counted in it.
//!
//! What it promises is `GenPromise` of specs/Promise.antt.
#![tactic(auto)]

mod counting;
mod counts;
mod workload;

pub use workload::gen_over;
