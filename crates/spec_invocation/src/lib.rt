//! One invocation of a compiled module, by the entry protocol.
//!
//! The crate has definitions and their laws, and `protocol`, the protocol's numbers, for the code
//! that follows it. `specs/Protocol.antt` names the numbers, and `specs/Invocation.antt` has
//! `invoke`, the protocol's ten steps in their order: from a module's state, what the caller asks
//! and the memory outside to a status or a violation, the new state, the pieces and the marks.
//! `specs/Entries.antt` has the four entries, `specs/Acts.antt` what a handler's acts do,
//! `specs/ModuleState.antt` which state the bytes of a private section represent,
//! `specs/Windows.antt` how the caller's windows are read and written, and `specs/Marks.antt` what
//! others can rely on. `proofs/Cases.antt` tries the definitions by computation, and
//! `proofs/ByEntry.antt` has each way that an invocation can go.
#![tactic(auto)]

pub mod laws;
pub mod protocol;
