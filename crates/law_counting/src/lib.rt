//! Counts in place of probabilities: a random table is the list of all tables, and what has a
//! probability is the part of them that pass.
//!
//! `specs/Counting.antt` has tables and counts, `specs/Guesses.antt` a player who tries entries that
//! he wasn't given, `specs/Processes.antt` one who also asks for entries, and `specs/Pads.antt` a
//! cipher under a random pad. No definition knows a machine, a key or a tag.
#![tactic(auto)]

pub mod laws;
