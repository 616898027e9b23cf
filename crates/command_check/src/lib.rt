//! The command `check`: where the modules of a deployment are, or which rule it breaks.
//!
//! What it promises is `CheckPromise` of specs/Output.antt: that it reports (command_report) the lines
//! `check_report`.
#![tactic(auto)]

mod check;

pub use check::check_over;
