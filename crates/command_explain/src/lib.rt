//! The command `explain`: a deployment, and a trace that is judged by the source alone while it is
//! read.
//!
//! What it promises is `ExplainPromise` of specs/Promise.antt: what is written, and the exit status,
//! are `explain_all` (specs/Output.antt) of the input: of its head (command_promise), of what the
//! deployment in it means (sx_deploy), and of the items of its trace (specs/Trace.antt), of each of
//! which it is said what a judge says of it (sx_explain); and how far the input was read. `laws`
//! has what that comes to for a whole trace.
//!
//! Nothing is taken from the program that wrote the trace: the lines of images aren't looked at,
//! and an item counts for what the modules' sources allow.
#![tactic(auto)]

mod explain;
mod images;
pub mod laws;
mod lines;
mod text;
mod trace;

pub use explain::explain_over;
pub use images::{ImageLine, front_line};
pub use lines::{MOST_LINES, TraceLine, TraceRule, judge_line, rule_behind};
pub use text::{break_off, put_forged, put_number};
