//! What a step of a node shows: its items, and the ledger's entries.
//!
//! Which items a step shows, and what it enters in the ledger, are definitions of `spec_run`
//! (`specs/Observation.antt`); the code does what they say. `observation` has the calls for a step:
//! whose code it was, and what is seen of it, the touches in their order and then the event.
//! `recording` adds items, enters what deployed modules wrap in the ledger, and looks up there what
//! they unwrap. `sites` says where the deployed modules are, and which of them a section is;
//! `recognized` keeps which sections were found to be modules; `settings` puts the deployment and these sites together.
//!
//! Memory may run out at each item and entry: the items that were there before stay, and what was
//! added is the first of what was due (`specs/Observing.antt`).
#![tactic(auto)]

mod devices;
pub mod observation;
pub mod recognized;
pub mod recording;
pub mod settings;
pub mod sites;
