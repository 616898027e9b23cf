//! The state of a handler in mid-run.

use crate::events::Acts;
use smallvec::SmallVec;
use sx_lang::names::Name;

/// A local and its value.
#[derive(Clone, Copy)]
pub struct Local {
    /// The local's name.
    pub name: Name,
    /// Its present value.
    pub value: u16,
}

impl Default for Local {
    /// What fills the places of a list that hold no local: any name, and 0.
    fn default() -> Local {
        let Some(name) = Name::new(b"a") else {
            unreachable!();
        };
        Local { name, value: 0 }
    }
}

/// Where a handler is: its locals, the cells, and the acts so far.
#[derive(Drop)]
pub struct Moment {
    /// The locals in scope; the last was defined last.
    pub locals: SmallVec<Local, 4>,
    /// The module's cells as they are.
    pub cells: Vec<u16>,
    /// What was sent and emitted, in order.
    pub acts: Acts,
}
