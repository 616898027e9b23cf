//! Instructions, apart from their words.

/// What an instruction reads or writes. The first number of a variant with two, and the one of
/// `Reg`, `Indirect` and `Increment`, is a register, 0 to 15.
#[derive(Clone, Copy, Debug, PartialEq, Eq)]
pub enum Operand {
    /// The register itself. As a source it is never R3, which reads as the constant 0.
    Reg(u8),
    /// The memory at the register plus an offset, `X(Rn)`. Never of R0, R2 or R3, which have other
    /// meanings there.
    Indexed(u8, u16),
    /// The memory at the register, `@Rn`.
    Indirect(u8),
    /// The same, and the register rises by the width afterwards, `@Rn+`.
    Increment(u8),
    /// The memory at the address of this extension word plus the word itself, `ADDR`.
    Symbolic(u16),
    /// The memory at this address, `&ADDR`.
    Absolute(u16),
    /// This number, which is in an extension word.
    Immediate(u16),
    /// One of 0, 1, 2, 4, 8 and 0xFFFF, from a constant generator, with no extension word.
    Const(u16),
}

/// An operation on a source and a destination.
#[derive(Clone, Copy, Debug, PartialEq, Eq)]
pub enum Op2 {
    /// Move the source to the destination.
    Mov,
    /// Add the source.
    Add,
    /// Add the source and the carry.
    Addc,
    /// Subtract the source, with the carry as "no borrow".
    Subc,
    /// Subtract the source.
    Sub,
    /// Subtract for the flags alone.
    Cmp,
    /// And, for the flags alone.
    Bit,
    /// Clear the source's bits.
    Bic,
    /// Set the source's bits.
    Bis,
    /// Exclusive or.
    Xor,
    /// And.
    And,
}

/// An operation on one operand.
#[derive(Clone, Copy, Debug, PartialEq, Eq)]
pub enum Op1 {
    /// Rotate right through the carry.
    Rrc,
    /// Exchange the bytes of a word.
    Swpb,
    /// Shift right, with the top bit kept.
    Rra,
    /// Extend the sign of the low byte.
    Sxt,
    /// Push onto the stack.
    Push,
    /// Call a subroutine.
    Call,
}

/// An instruction. Not each value of the type is one that can be written in words: `valid` tells.
#[derive(Clone, Copy, Debug, PartialEq, Eq)]
pub enum Instr {
    /// An operation on a source and a destination, on bytes or on words.
    Two {
        op: Op2,
        byte: bool,
        src: Operand,
        dst: Operand,
    },
    /// An operation on one operand.
    One {
        op: Op1,
        byte: bool,
        arg: Operand,
    },
    /// Return from an interrupt.
    Reti,
    /// A jump by `offset` words, -512 to 511, from the word after it, under one of eight
    /// conditions: not equal, equal, no carry, carry, negative, greater or equal, less, always.
    Jump {
        cond: u8,
        offset: i16,
    },
    /// The module instruction with the word 0x1380 plus this number.
    Sancus(u8),
}

/// One to three instruction words: the first `len` of `w`. Those past them are 0.
#[derive(Clone, Copy, Debug, PartialEq, Eq)]
pub struct Words {
    /// The words, and zeros after them.
    pub w: [u16; 3],
    /// How many words the instruction has, 1 to 3.
    pub len: u8,
}
