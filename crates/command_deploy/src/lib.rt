//! The common part of the commands that deploy, `run`, `drive` and `snap`: they read the head of
//! the input, make its deployment and the images of its modules, and then do what is the command's
//! own.
//!
//! A command gives its own part as an `impl` of `Deploys`, and `deploy_over` does the rest. What it
//! promises then, if its own part owes as it must, is `DeployPromise` of specs/Promise.antt: what
//! is written, and the exit status, are `deploy_output` and `deploy_status` (specs/Output.antt) of
//! the input: of its head (command_promise), of what the deployment in it means (sx_deploy), and of what
//! the own part writes. The images are any that realize their modules, and those that are made are
//! such.
#![tactic(auto)]

mod deploying;
mod deploys;

pub use deploying::deploy_over;
pub use deploys::Deploys;
