//! The honest run of readings: each value that is sent is delivered once, the oldest first.
//!
//! Its lines are a function of the application and the readings (`specs/Schedule.antt`), and their
//! run, from power-on, shows exactly the items that the source alone predicts
//! (`specs/Laws.antt`). There is no code here.
#![tactic(auto)]

pub mod laws;
