//! What a node shows of its steps, and why it refuses an act.

use sx_rules::Violation;

/// What one access of an instruction did at a device.
#[derive(Clone, Copy, Debug, PartialEq, Eq)]
pub enum Touch {
    /// Nothing that is seen: no device, or a read of a sensor that isn't fresh.
    Quiet,
    /// A word read of a fresh sensor. `device` counts the node's own devices from 0, `value` is
    /// the sensor's, below 32,768.
    DeviceRead { device: u8, value: u16 },
    /// A word written to an actuator.
    DeviceWrite { device: u8, value: u16 },
}

/// The event of one step; the numbers are ids of sections.
#[derive(Clone, Copy, Debug, PartialEq, Eq)]
pub enum Event {
    /// None of these.
    Quiet,
    /// A violation reset the node.
    Reset(Violation),
    /// A module was protected under this id.
    Protected(u16),
    /// This module removed itself.
    Removed(u16),
    /// This module wrapped a body.
    Wrapped(u16),
    /// This module unwrapped a body, and the tag was right.
    Unwrapped(u16),
    /// A plain instruction of this module left its public section.
    Left(u16),
}

/// What a step shows: its touches in the order in which they came, a lone one first, and then its
/// event.
#[derive(Clone, Copy, Debug, PartialEq, Eq)]
pub struct Seen {
    /// The touches; those that did not come are `Quiet`.
    pub touch: [Touch; 2],
    /// The event.
    pub event: Event,
}

/// The header and the plain body of the last `Wrapped` or `Unwrapped`. Bytes past the lengths are
/// 0; before the first one, and after a reset, all fields are 0 and false.
#[derive(Clone, Copy, Debug, PartialEq, Eq)]
pub struct Exchange {
    /// The header.
    pub ad: [u8; 32],
    /// How many bytes the header has, at most 32.
    pub ad_len: u8,
    /// The plain body.
    pub body: [u8; 32],
    /// How many bytes the body has, at most 32.
    pub body_len: u8,
    /// Whether it was under the module's own key.
    pub own_key: bool,
}

/// Why a node refuses an act from outside. A refused act changes nothing.
#[derive(Clone, Copy, Debug, PartialEq, Eq)]
pub enum Refused {
    /// A module runs.
    Busy,
    /// The range passes the end of memory, or meets what the act may not reach.
    Guarded,
    /// Interrupts are disabled: bit 3 of the status register, GIE, is 0.
    Masked,
}
