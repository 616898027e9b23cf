//! The command `drive`: the honest run of a deployment for a list of readings.
//!
//! What it promises is `DrivePromise` of specs/Promise.antt. It is a command that deploys
//! (command_deploy), whose own part writes `drive_deployed` (specs/Output.antt): of the
//! deployment, of the texts of its modules' images, and of the lines of its readings
//! (specs/Input.antt). The honest run itself is sx_drive's, which makes each line of it from
//! what the lines before it showed.
//!
//! What a reading shows is written before the next line is read.
#![tactic(auto)]

mod drive;
mod lines;
mod parts;
mod readings;
mod saying;

pub use drive::drive_over;
