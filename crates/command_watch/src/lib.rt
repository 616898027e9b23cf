//! The command `watch`: a deployment, a property of it, and a trace, of which it says which item is
//! the first that breaks the property.
//!
//! What it promises is `WatchPromise` of specs/Promise.antt: what is written, and the exit status, are
//! `watch_all` (specs/Output.antt) of the input: of its head (command_promise) and of the deployment in it
//! (sx_deploy), of the text after that and of the property in it (sx_watch), and of the items of
//! its trace (command_explain).
//!
//! Nothing is written before the end. The program that wrote the trace isn't believed: the lines of
//! images aren't looked at, and that the items are a run's is for `explain` to say.
#![tactic(auto)]

mod following;
mod images;
pub mod laws;
mod text;
mod trace;
mod watch;

pub use watch::watch_over;
