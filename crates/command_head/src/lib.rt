//! What the commands that read a deployment share: what its text means, and what is written of an
//! input that has no head, or whose deployment breaks a rule.
#![tactic(auto)]

pub mod refusing;
