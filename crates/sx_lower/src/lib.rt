//! From a module's handlers to stack code.
//!
//! `lower` gives the operations of all handlers, and the places of each handler's part. By its
//! contract, `Lowers` in `specs/Lowering.antt`, a part does what the language says of the handler,
//! for every state and every event, within the handler's cost: it makes the packets and emits of
//! the handler's acts over the open ends, or ends in the violation of the first byte that is
//! refused. The code is sound and within the bytes that the module's nodes give. `laws` say the
//! same of the code after and before other code.
//!
//! `specs/Lowered.antt` has the code as a function of the source, which serves to join it with
//! other code.
#![tactic(auto)]

mod blocks;
mod expressions;
mod handlers;
pub mod laws;
mod variables;

pub use handlers::lower;
