//! What executes: registers, memory, devices and sections, with the module whose code runs.
//!
//! An `Executor` does the accesses of an instruction in the order of its plan: `load`, `store` and
//! `fetch` ask the access table and then the devices, as the executor of the definitions does
//! (`Run.antt` of spec_machine). Memory itself is seen in the file `executor.rt` alone, and all else
//! reaches it by that file's calls. Of these `read` and `write` require that the access was tested,
//! so no byte is touched before its test. Apart from them only two calls read: `public_bytes`, which
//! requires the right (it asks of no device, since no module is admitted over one), and `byte`, for
//! a caller that looks at the node from outside. The calls that make bytes zero say why they ask
//! for no right. Contracts see an executor as the record `Machine` of `specs/Machine.antt`, and say
//! by relations of that file what a plan leaves of it. Only the copy takes memory.
#![tactic(auto)]

pub use buffer::Buffer;
pub use decoded::Decoded;
pub use executor::Executor;
pub use range::Range;
pub use shortcut::{ByteDouble, ByteSingle, Double, Form, Shortcut, Single, Triple, is_general};

mod access;
mod buffer;
mod buffers;
mod decoded;
mod decoding;
mod devices;
mod executor;
mod gap;
mod home;
mod marks;
mod occupancy;
mod protection;
mod range;
pub mod registers;
mod sections;
mod shortcut;
