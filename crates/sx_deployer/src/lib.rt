//! The deployer: it asks modules, accepts their answers, and gives connection keys.
//!
//! `Deployer::ask` makes an ask, `answer` judges what a module made of it, and `set_key` makes the
//! packet that gives one end of a connection its key. A module whose node was reset can be attested
//! again; its connections are then renewed, each with the key of the next epoch. Contracts see a
//! deployer as a record of what it keeps, and name what each call makes of it.
//!
//! `specs/Granting.antt` has the deployer of an application, as whole runs have it: what it knows,
//! asks, answers, keys and grants. `specs/Keeping.antt` has what the code keeps, which knows modules
//! by their ends alone, when it accepts an answer and what follows. It renews as
//! the source model does (`renews_as_the_model` of spec_run).
#![tactic(auto)]

pub use deployer::{Deployer, Verdict};
pub use keys::{KeyPacket, connection_key};
pub use target::Target;

mod deployer;
mod derived;
mod keys;
pub mod laws;
mod renewal;
mod target;
