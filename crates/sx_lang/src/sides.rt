//! The two sides of a connection.

/// The side of a connection that a module holds.
#[derive(Clone, Copy, PartialEq, Eq, Debug)]
pub enum Side {
    /// The sending side.
    From,
    /// The receiving side.
    To,
}
