//! The set-up of an honest run: from power-on, each module is loaded, attested and given the keys
//! of its connections.
//!
//! Its lines are a function of the application alone (`specs/Schedule.antt`). For every setting in
//! which the modules are deployed soundly and nothing is below 0x0200, the run of these lines
//! shows exactly the items that the source predicts (`specs/Laws.antt`): no ask, answer or key goes
//! wrong, whatever the tag function, the images and the places are.
//!
//! There is no code here. In `proofs/` read `forms/Settled.antt` first: the world after the set-up
//! agrees with the course of the honest run.
#![tactic(auto)]

pub mod laws;
