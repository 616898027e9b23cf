//! The flags.

/// The flags of the status register: carry, zero, negative and overflow.
#[derive(Clone, Copy, Debug, PartialEq, Eq)]
pub struct Flags {
    /// Carry: the carry out of an addition, and "no borrow" of a subtraction.
    pub c: bool,
    /// Zero: the result is 0.
    pub z: bool,
    /// Negative: the top bit of the result is set.
    pub n: bool,
    /// Overflow: the result is wrong as a signed number.
    pub v: bool,
}
