//! Properties of an application: what its user says must never happen.
//!
//! A property is a module of the handler language whose inputs are fed by the items of a trace,
//! each by the items of one topic (`specs/Topics.antt`). It is broken at the first item at which
//! its handler emits (`specs/Watched.antt`).
//!
//! `reading::read_property` reads the text of a property (`specs/Text.antt`): the tokens of the
//! text become those of its module, each at its own place (`specs/Rewriting.antt`).
//! `watcher::Watcher` is a property with its cells, which follows the items of a trace.
#![tactic(auto)]

mod finding;
pub mod laws;
pub mod property;
pub mod reading;
pub mod rewriting;
pub mod topics;
pub mod watcher;
mod words;
