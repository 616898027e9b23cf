//! What it means that an image realizes a module.
//!
//! `Image` is a compiled module, and `identity` the bytes from which its key is derived. All else
//! are definitions. `specs/Realizes.antt` has `Realizes`: from every node that enters the module,
//! the node does what `invoke` says, within the module's cost. `specs/Image.antt` has images and
//! what it is to enter a module, and `specs/Watched.antt` the marks that a node's steps show.
//!
//! `Comes` of `specs/Reach.antt` says that a system comes to a goal, or ends, within a bound, and
//! what holds until then. It serves the stack code, a node's instructions and the world alike, and
//! `proofs/Reaching.antt` composes stretches of a run.
#![tactic(auto)]

mod image;

pub use image::{Image, identity};
