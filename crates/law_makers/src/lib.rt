//! Makers of schedules, who see a run and remember all that they saw, and the distinguisher that
//! each of them is.
//!
//! `specs/Makers.antt` has those who see everything but the keys of nodes and modules,
//! `specs/LinkMakers.antt` those who don't see into deployed modules, `specs/Time.antt` what the
//! number of instructions shows, `specs/Impostors.antt` what a module's identity tells, and
//! `specs/NamedSound.antt` that the setting with names is sound.
#![tactic(auto)]

pub mod laws;
