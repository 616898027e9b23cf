//! From instructions to their words, and the test whether there are any.

ghost use Rattle.std.specs.Prelude.{◌≡◌, ◌+◌, ◌*◌, ◌<◌, ◌∷◌, [], ◌++◌, IsTrue, ◌↔◌, All};
ghost use Rattle.std.specs.Prelude.{option_to_list, take, drop, length, slice_index};
ghost use Rattle.sx_isa.specs.Instructions.{IsSource, IsDestination, IsInstruction, IsOffset, BeginsWith};
ghost use Rattle.sx_isa.specs.Reading.{instruction_at};
ghost use Rattle.sx_isa.specs.Spelling.{two_word, one_word, packed, place_of, at, spelling};
ghost use Rattle.sx_isa.specs.Spelling.{op2_code, op1_code, offset_field};
ghost use Rattle.lemmas.specs.Truth.{truth};

use crate::fields::is_allowed;
use crate::instruction::{Instr, Op1, Op2, Operand, Words};

/// Where an operand is: a register, an addressing mode and an extension word.
#[derive(Clone, Copy)]
struct Place {
    register: u16,
    mode: u16,
    word: Option<u16>,
}

#[inline(always)]
fn place_of(operand: Operand) -> Place
    ensures { place_of operand ≡ at result.register result.mode (option_to_list result.word) }
{
    let (register, mode, word) = match operand {
        Operand::Reg(r) => (r, 0, None),
        Operand::Indexed(r, x) => (r, 1, Some(x)),
        Operand::Symbolic(x) => (0, 1, Some(x)),
        Operand::Absolute(x) => (2, 1, Some(x)),
        Operand::Indirect(r) => (r, 2, None),
        Operand::Increment(r) => (r, 3, None),
        Operand::Immediate(x) => (0, 3, Some(x)),
        Operand::Const(0) => (3, 0, None),
        Operand::Const(1) => (3, 1, None),
        Operand::Const(2) => (3, 2, None),
        Operand::Const(4) => (2, 2, None),
        Operand::Const(8) => (2, 3, None),
        Operand::Const(_) => (3, 3, None),
    };
    Place {
        register: register.into(),
        mode,
        word,
    }
}

fn op2_code(op: Op2) -> u16
    ensures { result ≡ op2_code op }
{
    match op {
        Op2::Mov => 4,
        Op2::Add => 5,
        Op2::Addc => 6,
        Op2::Subc => 7,
        Op2::Sub => 8,
        Op2::Cmp => 9,
        Op2::Bit => 11,
        Op2::Bic => 12,
        Op2::Bis => 13,
        Op2::Xor => 14,
        Op2::And => 15,
    }
}

fn op1_code(op: Op1) -> u16
    ensures { result ≡ op1_code op }
{
    match op {
        Op1::Rrc => 0,
        Op1::Swpb => 1,
        Op1::Rra => 2,
        Op1::Sxt => 3,
        Op1::Push => 4,
        Op1::Call => 5,
    }
}

fn offset_field(offset: i16) -> u16
    requires { IsOffset offset }
    ensures { result ≡ offset_field offset }
{
    offset.cast_unsigned() & 0x3ff
}

fn two_word(op: u16, source: u16, ad: u16, byte: bool, mode: u16, destination: u16) -> u16
    requires op { op < 16 }
    requires source { source < 16 }
    requires ad { ad < 2 }
    requires mode { mode < 4 }
    requires destination { destination < 16 }
    ensures { result ≡ two_word op source ad (truth byte) mode destination }
{
    op << 12 | source << 8 | ad << 7 | u16::from(byte) << 6 | mode << 4 | destination
}

fn one_word(op: u16, byte: bool, mode: u16, register: u16) -> u16
    requires op { op < 8 }
    requires mode { mode < 4 }
    requires register { register < 16 }
    ensures { result ≡ one_word op (truth byte) mode register }
{
    0x1000 | op << 7 | u16::from(byte) << 6 | mode << 4 | register
}

fn jump_word(cond: u16, field: u16) -> u16
    requires cond { cond < 8 }
    requires field { field < 1024 }
    ensures { result ≡ packed 1 ((3, cond) ∷ (10, field) ∷ []) }
{
    0x2000 | cond << 10 | field
}

/// The words of an instruction, by what they are for.
#[derive(Clone, Copy)]
struct Parts {
    first: u16,
    source: Option<u16>,
    destination: Option<u16>,
}

#[inline(always)]
fn parts_of(i: Instr) -> Parts
    requires { IsInstruction i }
    ensures { spelling i
        ≡ result.first ∷ (option_to_list result.source ++ option_to_list result.destination) }
{
    let alone = |first| Parts {
        first,
        source: None,
        destination: None,
    };
    match i {
        Instr::Two { op, byte, src, dst } => {
            let s = place_of(src);
            let d = place_of(dst);
            Parts {
                first: two_word(op2_code(op), s.register, d.mode, byte, s.mode, d.register),
                source: s.word,
                destination: d.word,
            }
        }
        Instr::One { op, byte, arg } => {
            let s = place_of(arg);
            Parts {
                first: one_word(op1_code(op), byte, s.mode, s.register),
                source: s.word,
                destination: None,
            }
        }
        Instr::Reti => alone(0x1300),
        Instr::Jump { cond, offset } => alone(jump_word(cond.into(), offset_field(offset))),
        Instr::Sancus(code) => alone(0x1380 + u16::from(code)),
    }
}

#[inline(always)]
fn in_order(parts: Parts) -> Words
    ensures words { take result.len result.w
        ≡ parts.first ∷ (option_to_list parts.source ++ option_to_list parts.destination) }
    ensures rest { All (λ w. w ≡ 0) (drop result.len result.w) }
    ensures len { result.len
        ≡ 1 + length (option_to_list parts.source) + length (option_to_list parts.destination) }
{
    let Parts {
        first,
        source,
        destination,
    } = parts;
    match (source, destination) {
        (None, None) => Words {
            w: [first, 0, 0],
            len: 1,
        },
        (Some(x), None) | (None, Some(x)) => Words {
            w: [first, x, 0],
            len: 2,
        },
        (Some(x), Some(y)) => Words {
            w: [first, x, y],
            len: 3,
        },
    }
}

/// The words of an instruction: its spelling, and zeros after it. `decode` gives the instruction
/// back from them. The words are those of TI's MSP430x2xx Family User's Guide, "CPU"; those of the
/// module instructions are our own. Inlined with what it calls: where an instruction is written out,
/// nothing of it is left but its words.
#[inline(always)]
pub fn encode(i: &Instr) -> Words
    requires { IsInstruction i.now }
    ensures words { BeginsWith result.w i.now result.len }
    ensures rest { All (λ w. w ≡ 0) (drop result.len result.w) }
    ensures read_back { instruction_at (slice_index result.w 0) (slice_index result.w 1)
        (slice_index result.w 2)
        ≡ Some (record { 0 = i.now; 1 = result.len }) }
{
    in_order(parts_of(*i))
}

fn is_source(operand: Operand) -> bool
    ensures { IsTrue result ↔ IsSource operand }
{
    match operand {
        Operand::Reg(r) => r < 16 && r != 3,
        Operand::Indexed(r, _) | Operand::Increment(r) => r < 16 && r != 0 && r != 2 && r != 3,
        Operand::Indirect(r) => r < 16 && r != 2 && r != 3,
        Operand::Symbolic(_) | Operand::Absolute(_) | Operand::Immediate(_) => true,
        Operand::Const(c) => matches!(c, 0 | 1 | 2 | 4 | 8 | 0xffff),
    }
}

fn is_destination(operand: Operand) -> bool
    ensures { IsTrue result ↔ IsDestination operand }
{
    match operand {
        Operand::Reg(r) => r < 16,
        Operand::Indexed(r, _) => r < 16 && r != 0 && r != 2 && r != 3,
        Operand::Symbolic(_) | Operand::Absolute(_) => true,
        _ => false,
    }
}

/// Whether the instruction can be written in words.
pub fn valid(i: &Instr) -> bool
    ensures { IsTrue result ↔ IsInstruction i.now }
{
    match *i {
        Instr::Two { src, dst, .. } => is_source(src) && is_destination(dst),
        Instr::One { op, byte, arg } => is_source(arg) && is_allowed(op, byte, arg),
        Instr::Reti => true,
        Instr::Jump { cond, offset } => cond < 8 && -512 <= offset && offset < 512,
        Instr::Sancus(code) => code < 8 && code != 3,
    }
}
