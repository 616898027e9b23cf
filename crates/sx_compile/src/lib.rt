//! From a checked module to its image.
//!
//! `compile` gives the image of a module: the entry protocol's stack code and after it the
//! handlers', the text of their instructions, and zeros up to the module's weight. By its contract
//! the image is exactly the one that `specs/Compiled.antt` defines, and it realizes the module
//! (`sx_image/specs/Realizes.antt`). `body` gives the handlers alone, with the places where they
//! begin and end, and says what a node does between them (`specs/Body.antt`). `laws` say it of the
//! definitions alone: that the image of every module realizes it, wherever its sections are and
//! for every provider; and that no step of an invocation shows a key.
#![tactic(auto)]

mod bodies;
mod compiling;
mod handlers;
pub mod laws;

pub use bodies::Body;
pub use compiling::compile;
pub use handlers::body;
