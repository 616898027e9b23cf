//! From an instruction to its text.

ghost use Rattle.std.specs.Prelude.{◌≡◌, ◌+◌, ◌*◌, ◌<◌, ◌≤◌, ◌++◌, [], true, length, drop};
ghost use Rattle.sx_isa.specs.declared.instruction.Operand.TheVariants.{Indexed, Indirect};
ghost use Rattle.sx_isa.specs.declared.instruction.Operand.TheVariants.{Increment, Immediate};
ghost use Rattle.sx_isa.specs.declared.instruction.Instr.TheVariants.{Two, One, Jump};
ghost use Rattle.sx_isa.specs.Instructions.{IsInstruction, IsOffset};
ghost use Rattle.sx_asm.specs.Words.{op2_name, op1_name, sized, jump_name, sancus_name};
ghost use Rattle.sx_asm.specs.Words.{register_name};
ghost use Rattle.sx_asm.specs.Shown.{digit, hex_digits, hex, operand_text, target};
ghost use Rattle.sx_asm.specs.Shown.{source_size, shown, word_text, word_from, listed};

use crate::meaning::{further, is_constant};
use arrayvec::ArrayVec;
use sx_isa::{Instr, Op1, Op2, Operand, decode};

/// A text that is written.
type Text = ArrayVec<u8, 64>;

fn op2_name(op: Op2, byte: bool) -> &'static [u8]
    ensures name { result.now ≡ sized (op2_name op) byte }
    ensures short { length result.now ≤ 6 }
{
    match (op, byte) {
        (Op2::Mov, false) => b"mov",
        (Op2::Mov, true) => b"mov.b",
        (Op2::Add, false) => b"add",
        (Op2::Add, true) => b"add.b",
        (Op2::Addc, false) => b"addc",
        (Op2::Addc, true) => b"addc.b",
        (Op2::Subc, false) => b"subc",
        (Op2::Subc, true) => b"subc.b",
        (Op2::Sub, false) => b"sub",
        (Op2::Sub, true) => b"sub.b",
        (Op2::Cmp, false) => b"cmp",
        (Op2::Cmp, true) => b"cmp.b",
        (Op2::Bit, false) => b"bit",
        (Op2::Bit, true) => b"bit.b",
        (Op2::Bic, false) => b"bic",
        (Op2::Bic, true) => b"bic.b",
        (Op2::Bis, false) => b"bis",
        (Op2::Bis, true) => b"bis.b",
        (Op2::Xor, false) => b"xor",
        (Op2::Xor, true) => b"xor.b",
        (Op2::And, false) => b"and",
        (Op2::And, true) => b"and.b",
    }
}

fn op1_name(op: Op1, byte: bool) -> &'static [u8]
    ensures name { result.now ≡ sized (op1_name op) byte }
    ensures short { length result.now ≤ 6 }
{
    match (op, byte) {
        (Op1::Rrc, false) => b"rrc",
        (Op1::Rrc, true) => b"rrc.b",
        (Op1::Rra, false) => b"rra",
        (Op1::Rra, true) => b"rra.b",
        (Op1::Push, false) => b"push",
        (Op1::Push, true) => b"push.b",
        (Op1::Swpb, false) => b"swpb",
        (Op1::Swpb, true) => b"swpb.b",
        (Op1::Sxt, false) => b"sxt",
        (Op1::Sxt, true) => b"sxt.b",
        (Op1::Call, false) => b"call",
        (Op1::Call, true) => b"call.b",
    }
}

fn jump_name(cond: u8) -> &'static [u8]
    ensures name { result.now ≡ jump_name cond }
    ensures short { length result.now ≤ 3 }
{
    match cond {
        0 => b"jne",
        1 => b"jeq",
        2 => b"jnc",
        3 => b"jc",
        4 => b"jn",
        5 => b"jge",
        6 => b"jl",
        _ => b"jmp",
    }
}

fn sancus_name(code: u8) -> &'static [u8]
    ensures name { result.now ≡ sancus_name code }
    ensures short { length result.now ≤ 9 }
{
    match code {
        0 => b"unprotect",
        1 => b"protect",
        2 => b"attest",
        4 => b"wrap",
        5 => b"unwrap",
        6 => b"getid",
        _ => b"getcaller",
    }
}

fn register_name(r: u8) -> &'static [u8]
    ensures name { result.now ≡ register_name r }
    ensures short { length result.now ≤ 3 }
{
    match r {
        0 => b"pc",
        1 => b"sp",
        2 => b"sr",
        3 => b"r3",
        4 => b"r4",
        5 => b"r5",
        6 => b"r6",
        7 => b"r7",
        8 => b"r8",
        9 => b"r9",
        10 => b"r10",
        11 => b"r11",
        12 => b"r12",
        13 => b"r13",
        14 => b"r14",
        _ => b"r15",
    }
}

fn put(text: &mut Text, part: &[u8])
    requires { length text.old.items + length part.now ≤ 64 }
    ensures { text.new.items ≡ text.old.items ++ part.now }
{
    match text.try_extend_from_slice(part) {
        Ok(()) => (),
        Err(_) => unreachable!(),
    }
}

fn digit(n: u16, place: u16) -> u8
    requires { 0 < place }
    ensures { result ≡ digit n place }
{
    let value = (n / place % 16) as u8;
    if value < 10 {
        b'0' + value
    } else {
        b'a' - 10 + value
    }
}

fn put_digits(text: &mut Text, n: u16)
    requires { length text.old.items + 4 ≤ 64 }
    ensures added { text.new.items ≡ text.old.items ++ hex_digits n }
    ensures short { length text.new.items ≤ length text.old.items + 4 }
{
    if n < 16 {
        put(text, &[digit(n, 1)]);
    } else if n < 256 {
        put(text, &[digit(n, 16), digit(n, 1)]);
    } else if n < 4096 {
        put(text, &[digit(n, 256), digit(n, 16), digit(n, 1)]);
    } else {
        put(
            text,
            &[digit(n, 4096), digit(n, 256), digit(n, 16), digit(n, 1)],
        );
    }
}

fn put_hex(text: &mut Text, n: u16)
    requires { length text.old.items + 6 ≤ 64 }
    ensures added { text.new.items ≡ text.old.items ++ hex n }
    ensures short { length text.new.items ≤ length text.old.items + 6 }
{
    put(text, b"0x");
    put_digits(text, n);
}

/// The number as `0x` and lower-case hexadecimal digits, without leading zeros.
pub fn hex(n: u16) -> ArrayVec<u8, 64>
    ensures text { result.items ≡ hex n }
    ensures short { length result.items ≤ 6 }
{
    let mut text = Text::new();
    put_hex(&mut text, n);
    text
}

/// A sign, and a number after it.
fn put_signed(text: &mut Text, sign: &[u8], n: u16)
    requires room { length text.old.items + 8 ≤ 64 }
    requires sign { length sign.now ≤ 2 }
    ensures added { text.new.items ≡ text.old.items ++ (sign.now ++ hex n) }
    ensures short { length text.new.items ≤ length text.old.items + 8 }
{
    put(text, sign);
    put_hex(text, n);
}

fn put_indexed(text: &mut Text, r: u8, x: u16)
    requires { length text.old.items + 11 ≤ 64 }
    ensures added { text.new.items ≡ text.old.items ++ operand_text 0 (Indexed r x) }
    ensures short { length text.new.items ≤ length text.old.items + 11 }
{
    put_hex(text, x);
    put(text, b"(");
    put(text, register_name(r));
    put(text, b")");
}

fn put_increment(text: &mut Text, r: u8)
    requires { length text.old.items + 11 ≤ 64 }
    ensures added { text.new.items ≡ text.old.items ++ operand_text 0 (Increment r) }
    ensures short { length text.new.items ≤ length text.old.items + 11 }
{
    put(text, b"@");
    put(text, register_name(r));
    put(text, b"+");
}

fn put_indirect(text: &mut Text, r: u8)
    requires { length text.old.items + 11 ≤ 64 }
    ensures added { text.new.items ≡ text.old.items ++ operand_text 0 (Indirect r) }
    ensures short { length text.new.items ≤ length text.old.items + 11 }
{
    put(text, b"@");
    put(text, register_name(r));
}

fn put_immediate(text: &mut Text, x: u16)
    requires { length text.old.items + 11 ≤ 64 }
    ensures added { text.new.items ≡ text.old.items ++ operand_text 0 (Immediate x) }
    ensures short { length text.new.items ≤ length text.old.items + 11 }
{
    if is_constant(x) {
        put_signed(text, b"##", x);
    } else {
        put_signed(text, b"#", x);
    }
}

/// An operand whose extension word is at this address, if it has one.
fn put_operand(text: &mut Text, at: u16, operand: &Operand)
    requires { length text.old.items + 11 ≤ 64 }
    ensures added { text.new.items ≡ text.old.items ++ operand_text at operand.now }
    ensures short { length text.new.items ≤ length text.old.items + 11 }
{
    match *operand {
        Operand::Reg(r) => put(text, register_name(r)),
        Operand::Indexed(r, x) => put_indexed(text, r, x),
        Operand::Indirect(r) => put_indirect(text, r),
        Operand::Increment(r) => put_increment(text, r),
        Operand::Symbolic(x) => put_hex(text, further(at, x)),
        Operand::Absolute(x) => put_signed(text, b"&", x),
        Operand::Immediate(x) => put_immediate(text, x),
        Operand::Const(c) => put_signed(text, b"#", c),
    }
}

fn source_size(operand: &Operand) -> u16
    ensures size { result ≡ source_size operand.now }
    ensures few { result ≤ 2 }
{
    match *operand {
        Operand::Reg(_) | Operand::Indirect(_) | Operand::Increment(_) | Operand::Const(_) => 0,
        Operand::Indexed(_, _)
        | Operand::Symbolic(_)
        | Operand::Absolute(_)
        | Operand::Immediate(_) => 2,
    }
}

fn put_two(text: &mut Text, at: u16, op: Op2, byte: bool, src: &Operand, dst: &Operand)
    requires { text.old.items ≡ [] }
    ensures text { text.new.items ≡ shown (Two op byte src.now dst.now) at }
    ensures short { length text.new.items ≤ 64 }
{
    put(text, op2_name(op, byte));
    put(text, b" ");
    put_operand(text, further(at, 2), src);
    put(text, b", ");
    put_operand(text, further(at, 2 + source_size(src)), dst);
}

fn put_one(text: &mut Text, at: u16, op: Op1, byte: bool, arg: &Operand)
    requires { text.old.items ≡ [] }
    ensures text { text.new.items ≡ shown (One op byte arg.now) at }
    ensures short { length text.new.items ≤ 64 }
{
    put(text, op1_name(op, byte));
    put(text, b" ");
    put_operand(text, further(at, 2), arg);
}

/// The address `offset` words after `next`, modulo 65,536.
fn target(next: u16, offset: i16) -> u16
    requires { IsOffset offset }
    ensures { result ≡ target next offset }
{
    next.wrapping_add_signed(offset * 2)
}

fn put_jump(text: &mut Text, at: u16, cond: u8, offset: i16)
    requires empty { text.old.items ≡ [] }
    requires offset { IsOffset offset }
    ensures text { text.new.items ≡ shown (Jump cond offset) at }
    ensures short { length text.new.items ≤ 64 }
{
    put(text, jump_name(cond));
    put(text, b" ");
    put_hex(text, target(further(at, 2), offset));
}

/// The text of an instruction.
fn put_shown(text: &mut Text, at: u16, instruction: &Instr)
    requires empty { text.old.items ≡ [] }
    requires instruction { IsInstruction instruction.now }
    ensures text { text.new.items ≡ shown instruction.now at }
    ensures short { length text.new.items ≤ 64 }
{
    match *instruction {
        Instr::Two { op, byte, src, dst } => put_two(text, at, op, byte, &src, &dst),
        Instr::One { op, byte, arg } => put_one(text, at, op, byte, &arg),
        Instr::Reti => put(text, b"reti"),
        Instr::Jump { cond, offset } => put_jump(text, at, cond, offset),
        Instr::Sancus(code) => put(text, sancus_name(code)),
    }
}

/// Writes a text at the start of a buffer.
fn written(text: &[u8], into: &mut [u8; 64]) -> usize
    requires { length text.now ≤ 64 }
    ensures text { into.new ≡ text.now ++ drop result into.old }
    ensures length { result ≡ length text.now }
{
    into[..text.len()].copy_from_slice(text);
    text.len()
}

/// Writes the text of an instruction that is at an address at the start of the buffer, and
/// gives its length. The rest of the buffer stays. The instruction can be written in words
/// (`sx_isa::valid`).
pub fn show(i: &Instr, at: u16, into: &mut [u8; 64]) -> usize
    requires { IsInstruction i.now }
    ensures text { into.new ≡ shown i.now at ++ drop result into.old }
    ensures length { result ≡ length (shown i.now at) }
{
    let mut text = ArrayVec::new();
    put_shown(&mut text, at, i);
    written(text.as_slice(), into)
}

/// The text `.word` and a number.
fn show_word(word: u16, into: &mut [u8; 64]) -> usize
    ensures text { into.new ≡ word_text word ++ drop result into.old }
    ensures length { result ≡ length (word_text word) }
{
    let mut text: Text = ArrayVec::new();
    put(&mut text, b".word ");
    put_hex(&mut text, word);
    written(text.as_slice(), into)
}

/// The word at a place; 0 where the bytes don't hold it whole.
fn word_from(bytes: &[u8], place: usize) -> u16
    requires { place ≤ 4 }
    ensures { result ≡ word_from bytes.now place }
{
    if place + 2 <= bytes.len() {
        u16::from_le_bytes([bytes[place], bytes[place + 1]])
    } else {
        0
    }
}

/// Writes the text of the first instruction of some bytes that are at an address at the start of
/// the buffer, and gives the text's length and the instruction's in bytes. Where no instruction has
/// the first word, or the bytes don't hold it whole, the text is `.word` and that word, of 2 bytes.
#[tactic(auto, unfolding(crate::specs::Shown::listed))]
pub fn dis(at: u16, bytes: &[u8], into: &mut [u8; 64]) -> (usize, u8)
    requires { 2 ≤ length bytes.now }
    ensures text { into.new ≡ (listed at bytes.now).0 ++ drop result.0 into.old }
    ensures length { result.0 ≡ length (listed at bytes.now).0 }
    ensures bytes { result.1 ≡ (listed at bytes.now).1 }
{
    let first = word_from(bytes, 0);
    match decode(first, word_from(bytes, 2), word_from(bytes, 4)) {
        Some((i, words)) if 2 * usize::from(words) <= bytes.len() => {
            (show(&i, at, into), 2 * words)
        }
        _ => (show_word(first, into), 2),
    }
}
