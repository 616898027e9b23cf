//! The kinds of calculation.

/// A calculation on a source and a destination, or on a source alone (`Rrc` and those after it).
#[derive(Clone, Copy, Debug, PartialEq, Eq)]
pub enum Calc {
    /// Destination plus source.
    Add,
    /// Destination plus source plus the carry.
    AddCarry,
    /// Destination minus source.
    Sub,
    /// Destination minus source, minus 1 where the carry is clear.
    SubCarry,
    /// Destination and source.
    And,
    /// Destination and not source.
    AndNot,
    /// Destination or source.
    Or,
    /// Exclusive or.
    Xor,
    /// Shift right by one; the carry enters at the top.
    Rrc,
    /// Shift right by one; the top bit stays.
    Rra,
    /// The bytes of a word exchanged.
    Swap,
    /// The low byte's sign in all of a word's upper bits.
    Extend,
}
