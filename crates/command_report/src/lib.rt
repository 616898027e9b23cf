//! The common part of the commands that report on a deployment, `check` and `describe`: they read
//! the head of the input, and write what they say of its deployment, or which rule it breaks.
//!
//! A command gives what it says as an `impl` of `Reports`, and `report_over` does the rest. What it
//! promises then is `ReportPromise` of specs/Promise.antt: what is written, and the exit status, are
//! `report_all` (specs/Output.antt) of the input's head.
#![tactic(auto)]

mod reporting;
mod reports;

pub use reporting::report_over;
pub use reports::Reports;
