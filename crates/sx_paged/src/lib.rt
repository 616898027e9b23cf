//! A memory in pages.
//!
//! `PagedBus` is a memory of 65,536 bytes over an arena: each of its 256 pages is present, as a
//! page of the arena of its own, or absent, and an absent page reads as zeros. So a node's reset
//! costs as much as there are pages. Absent pages share one page of zeros, so a read doesn't ask
//! whether its page is present. Contracts see a memory as the list of its pages, from which
//! `specs/Memory.antt` defines its bytes; it meets the clauses of `Bus` and of `Copied`, and `laws`
//! holds what else can be said of it. How pages are found in the arena is in `specs/Paged.antt`,
//! and nobody has to believe it.
//!
//! Only `new` and `copy` take memory.
#![tactic(auto)]

pub use bus::PagedBus;

mod bus;
pub mod laws;
mod paged;
