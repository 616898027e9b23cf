//! Stack code: what is between a module's source and its instructions.
//!
//! `Code` is a list of operations, `Ir`, with the places of each handler's part. `bytes` and
//! `offset` tell where the instructions of code are in a module's text, and `sound` whether
//! templates can be made for it. `join` puts the entry protocol and the handlers' parts into one
//! code.
//!
//! `specs/Meaning.antt` has what each operation does to a configuration (`specs/Conf.antt`),
//! `specs/Sizes.antt` and `specs/Counts.antt` the bytes and the instructions of each operation's
//! template, `specs/Sound.antt` when code is sound, and `specs/Invoking.antt` how configurations
//! stand for the progress of an invocation.
#![tactic(auto)]

mod ir;
mod joining;
mod sizes;
mod soundness;

pub use ir::{Code, Ir, IrOp};
pub use joining::join;
pub use sizes::{
    ENTRY, EXIT, PACKET_ROUTINE, SLOT_ROUTINE, bytes, has_routine, offset, op_bytes, turn_size,
};
pub use soundness::sound;
