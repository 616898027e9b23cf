//! How seldom a tag is accepted that nobody made, if tags are random.
//!
//! `specs/Tables.antt` has random numbers in place of some tags of a run, and `specs/Rare.antt` the
//! part of all tables under which a maker of schedules has the first `forged` come.
#![tactic(auto)]

pub mod laws;
