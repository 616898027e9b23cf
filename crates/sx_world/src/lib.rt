//! The run of a deployment, in code: all nodes, the network, the deployer and the ledger.
//!
//! What a run is, and that it is legal, are definitions and laws of `spec_run`; the code does what
//! they say. `world` has the public calls. `running` keeps the nodes, the packets, the deployer and
//! the ledger, and its calls are acts: each says what it leaves and which items it adds, of every
//! world of a run that it shows (`specs/Held.antt`).
//!
//! `World::act` puts the deployment and its sites together (`Setting` of `sx_observe`), and `lines`
//! hands each kind of line to its file: `stepping` for instructions and interrupts, `nodes` for
//! what is done from outside, `packets`, `sensors`, `loading`, `calls` and `deployer`. What a step
//! shows is `sx_observe`. A `call` goes through `lines`, `calls`, `registers`, `stepping`, `quiet`
//! and `sx_observe`, in this order.
#![tactic(auto)]

mod calls;
mod copying;
mod deployer;
mod grants;
mod keys;
mod lines;
mod loading;
mod network;
mod nodes;
mod packets;
mod quiet;
mod registers;
mod running;
mod sensors;
mod stepping;
mod targets;
pub mod world;
