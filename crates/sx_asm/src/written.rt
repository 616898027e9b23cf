//! What is written: tokens, operands and statements.

use sx_isa::{Op1, Op2};
use sx_lang::names::Name;

/// What a token is.
#[derive(Clone, Copy)]
pub enum Token {
    /// `.word`
    Word,
    /// The name of an operation on two operands, on bytes or on words.
    Two(Op2, bool),
    /// The name of an operation on one operand, on bytes or on words.
    One(Op1, bool),
    /// The name of a jump, under one of eight conditions.
    Jump(u8),
    /// `reti`
    Reti,
    /// The name of a module instruction, by its number.
    Sancus(u8),
    /// A register, 0 to 15.
    Reg(u8),
    /// A number, by its value.
    Number(u16),
    /// A name that is none of the words above.
    Name(Name),
    /// `:`
    Colon,
    /// `,`
    Comma,
    /// `;`
    Semicolon,
    /// `(`
    Open,
    /// `)`
    Close,
    /// `@`
    At,
    /// `+`
    Plus,
    /// `#`
    Hash,
    /// `##`
    HashHash,
    /// `&`
    Ampersand,
    /// What is none of these.
    Bad,
}

/// A number, or the name of a label that stands for its address.
#[derive(Clone, Copy)]
pub enum Value {
    /// This number.
    Number(u16),
    /// The address of the label of this name.
    Name(Name),
}

/// An operand as it is written.
#[derive(Clone, Copy)]
pub enum Written {
    /// `Rn`
    Reg(u8),
    /// `X(Rn)`
    Indexed(Value, u8),
    /// `@Rn`
    Indirect(u8),
    /// `@Rn+`
    Increment(u8),
    /// `#X`: a constant without an extension word, where there is one.
    Hash(Value),
    /// `##X`: always with an extension word.
    Immediate(Value),
    /// `&X`
    Absolute(Value),
    /// `X`: the memory at this address, relative to PC.
    Symbolic(Value),
}

/// A label, a word or an instruction, as it is written.
#[derive(Clone, Copy)]
pub enum Item {
    /// The label is at the address of what follows.
    Label(Name),
    /// A word of data.
    Word(Value),
    /// An operation on a source and a destination.
    Two {
        op: Op2,
        byte: bool,
        src: Written,
        dst: Written,
    },
    /// An operation on one operand.
    One {
        op: Op1,
        byte: bool,
        arg: Written,
    },
    /// A jump to an address, under one of eight conditions.
    Jump {
        cond: u8,
        target: Value,
    },
    /// Return from an interrupt.
    Reti,
    /// The module instruction with this number.
    Sancus(u8),
}

/// An item and the line that it is on, from 1.
#[derive(Clone, Copy)]
pub struct Entry {
    /// The line's number, from 1.
    pub line: u32,
    /// What is there.
    pub item: Item,
}

/// A label and its address.
#[derive(Clone, Copy)]
pub struct Label {
    /// The label's name.
    pub name: Name,
    /// The address of the item after it.
    pub address: u16,
}
