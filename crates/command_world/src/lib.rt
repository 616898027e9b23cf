//! What the commands that run a deployment share: the images of its modules with their lines, its
//! nodes and its world, the lines of a schedule by their numbers, and the lines of items.
//!
//! The images that are made realize their modules (specs/Built.antt).
#![tactic(auto)]

pub mod compiling;
mod digits;
pub mod images;
pub mod items;
pub mod judging;
pub mod nodes;
pub mod worlds;
