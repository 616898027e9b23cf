//! The commands `run` and `lines`: a deployment, and a schedule that is performed while it is read.
//!
//! What they promise is `RunPromise` of specs/Promise.antt and `LinesPromise` of specs/Tells.antt. They are
//! commands that deploy (command_deploy), whose own parts write `run_deployed` (specs/Output.antt) and
//! `lines_deployed` (specs/Lines.antt): of the deployment, of the texts of its modules' images, and
//! of the lines of its schedule (command_world), each of which is an act in a world (sx_world). The
//! assembler for the schedule's `asm` lines, a parameter there, is that of sx_asm.
//!
//! With images that realize their modules the items of every schedule are legal in the source up to
//! the first that is forged; and whatever the schedule, no instruction but a section's own reads or
//! changes its private bytes (law_isolation). What keys show is said in law_forgery and
//! law_connections.
#![tactic(auto)]

pub mod laws;
mod listing;
mod run;
mod schedule;
pub mod trace;

pub use listing::lines_over;
pub use run::run_over;
