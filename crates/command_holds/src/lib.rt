//! The command `holds`: whether a property of an application is broken in no run, whatever the
//! schedule does.
//!
//! What it promises is `HoldsPromise` of specs/Promise.antt: what is written, and the exit status, are
//! `holds_all` (specs/Output.antt) of the input's two heads and of what was decided; and if it says
//! that the property holds, then no run breaks it before the first forged item. Nothing is promised
//! of `unknown`.
#![tactic(auto)]

mod gap;
mod holds;

pub use holds::holds_over;
