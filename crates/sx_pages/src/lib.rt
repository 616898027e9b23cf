//! An arena of pages.
//!
//! `Arena` is one block of memory, 256 pages of 256 bytes, after a raw pointer. Pages are taken
//! and released; a page that is taken is all zeros. Contracts see an arena as the finite map from
//! the numbers of its live pages to what they hold, and `specs/Pages.antt` defines the words for
//! it. That is all that has to be believed: how an arena keeps its map in the block is in
//! `specs/Arena.antt` and `specs/Ownership.antt`.
//!
//! Only `new` and `copy` take memory. The block is given back when the arena is dropped.
#![tactic(auto)]

pub use arena::Arena;

mod arena;
mod block;
