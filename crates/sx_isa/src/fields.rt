//! The fields of first words, and what they name.

ghost use Rattle.std.specs.Prelude.{◌≡◌, ◌/◌, ◌%◌, ◌<◌, ◌==◌};
ghost use Rattle.sx_isa.specs.Reading.{takes_word, source_at, destination_at, op2_at, op1_at};
ghost use Rattle.sx_isa.specs.Reading.{offset_at};
ghost use Rattle.sx_isa.specs.Legal.{is_allowed};

use crate::instruction::{Op1, Op2, Operand};

/// The fields of a first word with two operands.
#[derive(Clone, Copy)]
pub struct TwoFields {
    /// Bits 15 to 12: the operation.
    pub op: u8,
    /// Bits 11 to 8: the source's register.
    pub source: u8,
    /// Bit 7: the destination's addressing mode.
    pub ad: u8,
    /// Bit 6: on bytes.
    pub byte: bool,
    /// Bits 5 and 4: the source's addressing mode.
    pub mode: u8,
    /// Bits 3 to 0: the destination's register.
    pub destination: u8,
}

/// The fields of a word as one with two operands.
pub fn two_fields(w: u16) -> TwoFields
    ensures op { result.op ≡ w / 4096 }
    ensures source { result.source ≡ w / 256 % 16 }
    ensures ad { result.ad ≡ w / 128 % 2 }
    ensures byte { result.byte ≡ w / 64 % 2 == 1 }
    ensures mode { result.mode ≡ w / 16 % 4 }
    ensures destination { result.destination ≡ w % 16 }
{
    TwoFields {
        op: (w >> 12) as u8,
        source: (w >> 8 & 15) as u8,
        ad: (w >> 7 & 1) as u8,
        byte: w >> 6 & 1 == 1,
        mode: (w >> 4 & 3) as u8,
        destination: (w & 15) as u8,
    }
}

/// The fields of a first word with one operand.
#[derive(Clone, Copy)]
pub struct OneFields {
    /// Bits 9 to 7: the operation.
    pub op: u8,
    /// Bit 6: on bytes.
    pub byte: bool,
    /// Bits 5 and 4: the addressing mode.
    pub mode: u8,
    /// Bits 3 to 0: the register.
    pub register: u8,
}

/// The fields of a word as one with one operand.
pub fn one_fields(w: u16) -> OneFields
    ensures op { result.op ≡ w / 128 % 8 }
    ensures byte { result.byte ≡ w / 64 % 2 == 1 }
    ensures mode { result.mode ≡ w / 16 % 4 }
    ensures register { result.register ≡ w % 16 }
{
    OneFields {
        op: (w >> 7 & 7) as u8,
        byte: w >> 6 & 1 == 1,
        mode: (w >> 4 & 3) as u8,
        register: (w & 15) as u8,
    }
}

/// Whether a word follows for a register in a mode.
pub fn takes_word(register: u8, mode: u8) -> bool
    ensures { result ≡ takes_word register mode }
{
    mode == 1 && register != 3 || mode == 3 && register == 0
}

/// The operand that is read, where x is the word that follows.
pub fn source(register: u8, mode: u8, x: u16) -> Operand
    requires { mode < 4 }
    ensures { result ≡ source_at register mode x }
{
    match (mode, register) {
        (0, 3) => Operand::Const(0),
        (0, _) => Operand::Reg(register),
        (1, 0) => Operand::Symbolic(x),
        (1, 2) => Operand::Absolute(x),
        (1, 3) => Operand::Const(1),
        (1, _) => Operand::Indexed(register, x),
        (2, 2) => Operand::Const(4),
        (2, 3) => Operand::Const(2),
        (2, _) => Operand::Indirect(register),
        (_, 0) => Operand::Immediate(x),
        (_, 2) => Operand::Const(8),
        (_, 3) => Operand::Const(0xffff),
        (_, _) => Operand::Increment(register),
    }
}

/// The operand that is written, where x is the word that follows.
pub fn destination(register: u8, ad: u8, x: u16) -> Option<Operand>
    ensures { result ≡ destination_at register ad x }
{
    match (ad, register) {
        (0, _) => Some(Operand::Reg(register)),
        (_, 0) => Some(Operand::Symbolic(x)),
        (_, 2) => Some(Operand::Absolute(x)),
        (_, 3) => None,
        (_, _) => Some(Operand::Indexed(register, x)),
    }
}

/// The operation on two operands of this code. `None` exactly where there is none: below 4, and 10,
/// which is DADD in TI's guide and no instruction here.
pub fn op2(code: u8) -> Option<Op2>
    ensures { result ≡ op2_at code }
{
    match code {
        4 => Some(Op2::Mov),
        5 => Some(Op2::Add),
        6 => Some(Op2::Addc),
        7 => Some(Op2::Subc),
        8 => Some(Op2::Sub),
        9 => Some(Op2::Cmp),
        11 => Some(Op2::Bit),
        12 => Some(Op2::Bic),
        13 => Some(Op2::Bis),
        14 => Some(Op2::Xor),
        15 => Some(Op2::And),
        _ => None,
    }
}

/// The operation on one operand of this code, `None` for 6 and above.
pub fn op1(code: u8) -> Option<Op1>
    ensures { result ≡ op1_at code }
{
    match code {
        0 => Some(Op1::Rrc),
        1 => Some(Op1::Swpb),
        2 => Some(Op1::Rra),
        3 => Some(Op1::Sxt),
        4 => Some(Op1::Push),
        5 => Some(Op1::Call),
        _ => None,
    }
}

/// The offset of a jump, from its ten bits.
pub fn offset(field: u16) -> i16
    requires { field < 1024 }
    ensures { result ≡ offset_at field }
{
    if field < 512 {
        field as i16
    } else {
        field as i16 - 1024
    }
}

/// Whether an operation on one operand has this form, at this operand.
pub fn is_allowed(op: Op1, byte: bool, arg: Operand) -> bool
    ensures { result ≡ is_allowed op byte arg }
{
    let has_byte_form = matches!(op, Op1::Rrc | Op1::Rra | Op1::Push);
    let writes_back = !matches!(op, Op1::Push | Op1::Call);
    let is_value = matches!(arg, Operand::Immediate(_) | Operand::Const(_));
    (has_byte_form || !byte) && !(writes_back && is_value)
}
