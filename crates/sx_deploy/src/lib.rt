//! A deployment: what a text in TOML deploys, exactly by the rules 3 to 10, or the first rule that
//! it breaks and where.
//!
//! `deployment::read_deployment` is the one call. The text becomes entries (rules 3 to 5,
//! `sx_entries`), the entries are counted (rule 6), their sources become trees (rule 7) and are
//! checked (rule 8), and then connections are tied to outputs and inputs (rule 9) and sections
//! placed in memory (rule 10). Each rule is tried on the whole document before the next.
//! `Deployment::ends` lists the ends of connections that a module holds.
//!
//! `specs/Counts.antt`, `Sources.antt`, `Checks.antt`, `Ties.antt` and `Places.antt` have the rules
//! 6 to 10, each by its number, and `specs/Deployment.antt` the deployment that is made.
#![tactic(auto)]

mod arranging;
mod checks;
mod counts;
pub mod deployment;
mod ends;
pub mod laws;
mod owners;
mod placing;
mod sources;
mod ties;

pub use sx_entries::fault::{DeployError, DeployFault, Place, Sort};
