//! The command `snap`: a deployment, a schedule, and queries about the state after any of its
//! lines.
//!
//! What it promises is `SnapPromise` of specs/Promise.antt. It is a command that deploys
//! (command_deploy), whose own part writes `snap_deployed` (specs/Output.antt): of the deployment,
//! of the texts of its modules' images, of the lines of its schedule (specs/Reading.antt) and of
//! the queries after them (specs/Input.antt). Each answer is said by the run's definition alone
//! (specs/Answers.antt), and not by how the lines were performed again.
//!
//! The schedule is judged to its end before anything is written.
#![tactic(auto)]

mod answering;
mod answers;
mod queries;
mod querying;
mod schedule;
mod snap;

pub use snap::snap_over;
