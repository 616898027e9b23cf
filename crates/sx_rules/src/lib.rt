//! The sections of a node's protected modules, and who may access what.
//!
//! A `Table` holds the live sections of one boot. `Table::admit` takes a new one or names the first
//! rule that refuses it, and `Table::may` is the access table of Sancus 2.0: what code may do to a
//! byte by the module that the code belongs to. Contracts see a table as its list of live sections
//! and its next id. It also keeps which sections meet a page, so that a question about a byte goes
//! to the sections of its page alone.
//!
//! The access table is defined in `specs/Access.antt`, the refusals in `specs/Admission.antt`,
//! which sections meet a page in `specs/Pages.antt`, and what holds of every table that admissions
//! and removals lead to in `specs/Placed.antt`.
#![tactic(auto)]

pub use access::{Access, Violation};
pub use admission::Refusal;
pub use section::{Layout, Section};
pub use table::Table;

mod access;
mod admission;
pub mod laws;
mod pages;
mod section;
mod table;
