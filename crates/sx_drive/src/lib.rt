//! The honest run of a deployment: the schedule that loads and attests its modules, gives them
//! their connection keys, and carries each event to its receiver. Each line of it follows from what
//! the lines before it showed.
//!
//! What a run is to say is `setup` and `reads` of specs/Honest.antt; begin there. `Honest` performs
//! it in a world of nodes (sx_world).
#![tactic(auto)]

mod callee;
mod delivering;
pub mod honest;
pub mod said;
mod saying;
mod setup;
