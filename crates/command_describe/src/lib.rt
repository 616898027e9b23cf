//! The command `describe`: what a deployment was read as, or which rule it breaks.
//!
//! What it promises is `DescribePromise` of specs/Output.antt: that it reports (command_report) the
//! lines `describe_report`.
#![tactic(auto)]

mod connections;
mod declarations;
mod describe;
mod devices;
mod modules;
mod ports;
mod slots;
mod words;

pub use describe::describe_over;
