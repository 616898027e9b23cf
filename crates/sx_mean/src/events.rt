//! Events, acts, and the ends of connections.

use smallvec::SmallVec;
use sx_lang::sides::Side;

/// What a module reacts to.
#[derive(Clone, Copy, PartialEq, Eq, Debug)]
pub enum SourceEvent {
    /// A value for the input of this number. Inputs are numbered from 0 in order of declaration.
    Input(u8, u16),
    /// A reading of the module's sensor.
    Sample(u16),
}

/// What a module does at an event.
#[derive(Clone, Copy, PartialEq, Eq, Debug)]
pub enum Act {
    /// A value sent to the output of this number. Outputs are numbered from 0 in order of
    /// declaration.
    Send(u8, u16),
    /// A value for the module's actuator.
    Emit(u16),
}

impl Default for Act {
    /// What fills the places of a list that hold no act.
    fn default() -> Act {
        Act::Emit(0)
    }
}

/// The acts of an event, in order. Few of them need no allocation.
pub type Acts = SmallVec<Act, 4>;

/// One end of a connection in a module. A module's ends are in connection order, `From` before
/// `To`.
#[derive(Clone, Copy, PartialEq, Eq, Debug)]
pub struct End {
    /// The number of the connection.
    pub link: u8,
    /// The side of the connection that the module holds.
    pub side: Side,
    /// The number of the output on the side `From`, of the input on the side `To`.
    pub port: u8,
}

impl Default for End {
    /// What fills the places of a list that hold no end.
    fn default() -> End {
        End {
            link: 0,
            side: Side::From,
            port: 0,
        }
    }
}

/// The ends that a module holds. Those of a valid application, at most 16, need no allocation.
pub type Ends = SmallVec<End, 16>;
