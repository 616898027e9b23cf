//! The source model: which traces the handlers of an application allow.
//!
//! `specs/State.antt` has where a run of the source is, `specs/Step.antt` which items are
//! allowed there and what each makes of it, `specs/Reaction.antt` what a module does at an event,
//! `specs/Renewal.antt` the epochs of connections, and `specs/Legal.antt` when a trace is a legal
//! run; `specs/Consequences.antt` has what every legal trace tells its reader. No definition knows
//! an address, a key, a tag or a packet. `laws` holds them against worked runs.
//!
//! `model::Model` is the same as code: it takes the items of a trace one by one, and says of each
//! whether it is allowed. `specs/Changes.antt` and `specs/Sendings.antt` put a step together from
//! what its functions do, and `proofs/Agrees.antt` shows that this is the step of
//! `specs/Step.antt`.
#![tactic(auto)]

mod asks;
mod devices;
mod ends;
mod events;
pub mod laws;
pub mod model;
mod nodes;
mod opening;
mod parts;
mod protecting;
mod reactions;
mod receiving;
mod renewal;
mod sendings;
mod start;
mod state;
mod taking;
