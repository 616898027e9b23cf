//! What an item of a trace is about.

ghost use Rattle.std.specs.Prelude.{◌≡◌};

/// A kind of items that a handler of a property can hear of.
#[derive(Clone, Copy, PartialEq, Eq, Debug)]
pub enum TopicKind {
    /// A line gives a sensor a value.
    Sense,
    /// A module reads the value of its sensor.
    Read,
    /// A value is taken over a connection.
    Take,
    /// A module writes a value to its actuator.
    Out,
    /// Other code writes a value to an actuator.
    Raw,
    /// Other code reads a sensor.
    Drain,
    /// A node is reset.
    Reset,
    /// A module is protected.
    Protect,
    /// The deployer accepts an answer of a module.
    Attested,
}

/// What an item can be about, as far as a property can hear of it.
#[derive(Clone, Copy, PartialEq, Eq, Debug)]
pub struct Topic {
    /// The kind of the item.
    pub kind: TopicKind,
    /// The index of its node, device, module or connection, as in the item.
    pub index: u8,
}

impl Topic {
    /// The topic of items of this kind, at this index.
    pub const fn new(kind: TopicKind, index: u8) -> Topic
        ensures { result ≡ record { kind = kind; index = index } }
    {
        Topic { kind, index }
    }
}
