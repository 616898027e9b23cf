//! The module instructions of Sancus 2.0, with encodings and registers of our own: unprotect,
//! protect, attest, wrap, unwrap, get-id and get-caller-id.
//!
//! `step_sancus` executes one of them on an `Executor`, and is exactly the definition
//! `module_instruction` of spec_machine (`Modules.antt`): protect and unprotect by their own tables
//! (`Protect.antt`), the others as a run of the executor over the instruction's plan
//! (`ModuleRows.antt`). `specs/Told.antt` ties the arguments and the answer of the call to these
//! definitions. Nothing here takes memory.
#![tactic(auto)]

mod access;
mod attest;
mod event;
mod identity;
mod inputs;
mod protect;
mod step;
mod text;
mod wrapping;

pub use event::SancusEvent;
pub use step::step_sancus;
