//! What the commands that read a property share: what its text means to them, and what they write of
//! one that breaks a rule.
#![tactic(auto)]

mod refusing;

pub use refusing::{refuse_no_property, refuse_property};
