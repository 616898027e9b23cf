//! The addresses, words and instructions of what is written.

ghost use Rattle.std.specs.Prelude.{◌≡◌, ◌<◌, ◌≤◌, ◌&&◌, [], true, IfOk, IfErr};
ghost use Rattle.sx_asm.specs.declared.error.AsmError.TheVariants.{OutOfMemory};
ghost use Rattle.sx_isa.specs.Legal.{is_allowed};
ghost use Rattle.sx_isa.specs.Instructions.{IsSource, IsDestination, IsInstruction};
ghost use Rattle.sx_isa.specs.Spelling.{is_constant};
ghost use Rattle.sx_asm.specs.Forms.{HasWord};
ghost use Rattle.sx_asm.specs.Meaning.{hash_words, extension, size, further, distance};
ghost use Rattle.sx_asm.specs.Meaning.{number, hash_operand, operand_at, offset};
ghost use Rattle.sx_asm.specs.Meaning.{two_at, one_at, jump_at, labels_of};
ghost use Rattle.sx_asm.specs.Assembled.{has_form, is_source, is_destination, in_reach};

use crate::error::AsmError;
use crate::labels::Labels;
use crate::written::{Entry, Item, Label, Value, Written};
use std::alloc::Global;
use sx_isa::{Instr, Op1, Op2, Operand, valid};
use sx_lang::names::Name;

/// Whether a constant generator gives this number, so that it needs no extension word: 0, 1, 2, 4,
/// 8 or 0xFFFF.
pub fn is_constant(n: u16) -> bool
    ensures { result ≡ is_constant n }
{
    n == 0 || n == 1 || n == 2 || n == 4 || n == 8 || n == 0xffff
}

fn hash_words(value: &Value) -> u16
    ensures words { result ≡ hash_words value.now }
    ensures few { result ≤ 1 }
{
    match *value {
        Value::Number(n) => { if is_constant(n) { 0 } else { 1 } }
        Value::Name(_) => 1,
    }
}

/// How many extension words an operand has.
fn extension(written: &Written) -> u16
    ensures words { result ≡ extension written.now }
    ensures few { result ≤ 1 }
{
    match written {
        Written::Reg(_) | Written::Indirect(_) | Written::Increment(_) => 0,
        Written::Hash(value) => hash_words(value),
        Written::Indexed(_, _)
        | Written::Immediate(_)
        | Written::Absolute(_)
        | Written::Symbolic(_) => 1,
    }
}

/// How many bytes an item has.
pub fn size(item: &Item) -> u16
    ensures bytes { result ≡ size item.now }
    ensures few { result ≤ 6 }
{
    match item {
        Item::Label(_) => 0,
        Item::Two { src, dst, .. } => 2 + 2 * extension(src) + 2 * extension(dst),
        Item::One { arg, .. } => 2 + 2 * extension(arg),
        Item::Word(_) | Item::Jump { .. } | Item::Reti | Item::Sancus(_) => 2,
    }
}

/// The address `n` bytes further on, modulo 65,536.
pub fn further(at: u16, n: u16) -> u16
    ensures { result ≡ further at n }
{
    at.wrapping_add(n)
}

/// The number of bytes from one address up to another, modulo 65,536.
pub fn distance(at: u16, to: u16) -> u16
    ensures { result ≡ distance at to }
{
    to.wrapping_sub(at)
}

/// The number that a value is.
pub fn number(labels: &Labels<'_>, value: &Value) -> u16
    ensures { result ≡ number labels.now value.now }
{
    match value {
        Value::Number(n) => *n,
        Value::Name(name) => labels.address_of(name),
    }
}

fn hash_operand(labels: &Labels<'_>, value: &Value) -> Operand
    ensures operand { result ≡ hash_operand labels.now value.now }
    ensures word { HasWord result }
{
    match value {
        Value::Number(n) => {
            if is_constant(*n) {
                Operand::Const(*n)
            } else {
                Operand::Immediate(*n)
            }
        }
        Value::Name(name) => Operand::Immediate(labels.address_of(name)),
    }
}

/// The operand whose extension word is at this address, if it has one.
fn operand_at(labels: &Labels<'_>, at: u16, written: &Written) -> Operand
    ensures operand { result ≡ operand_at labels.now at written.now }
    ensures word { HasWord result }
{
    match written {
        Written::Reg(r) => Operand::Reg(*r),
        Written::Indexed(value, r) => Operand::Indexed(*r, number(labels, value)),
        Written::Indirect(r) => Operand::Indirect(*r),
        Written::Increment(r) => Operand::Increment(*r),
        Written::Hash(value) => hash_operand(labels, value),
        Written::Immediate(value) => Operand::Immediate(number(labels, value)),
        Written::Absolute(value) => Operand::Absolute(number(labels, value)),
        Written::Symbolic(value) => Operand::Symbolic(distance(at, number(labels, value))),
    }
}

fn offset(distance: u16) -> i16
    ensures { result ≡ offset distance }
{
    distance.cast_signed() >> 1
}

/// The operand where no name has an address: its form alone counts.
fn operand_form(written: &Written) -> Operand
    ensures operand { result ≡ operand_at [] 0 written.now }
    ensures word { HasWord result }
{
    operand_at(&Labels::none(), 0, written)
}

/// Whether the operands are those of an instruction, whatever addresses the labels have.
#[tactic(auto, using(crate::proofs::Forms::one_tested))]
pub fn has_form(item: &Item) -> bool
    ensures { result ≡ has_form item.now }
{
    match item {
        Item::Two { op, byte, src, dst } => {
            let src = operand_form(src);
            let dst = operand_form(dst);
            valid(&Instr::Two {
                op: *op,
                byte: *byte,
                src,
                dst,
            })
        }
        Item::One { op, byte, arg } => {
            let arg = operand_form(arg);
            valid(&Instr::One {
                op: *op,
                byte: *byte,
                arg,
            })
        }
        Item::Jump { cond, .. } => *cond < 8,
        Item::Sancus(code) => *code < 8 && *code != 3,
        Item::Label(_) | Item::Word(_) | Item::Reti => true,
    }
}

/// The labels of items placed from an address on. The error says that memory ran out.
pub fn labels_of(alloc: Global, at: u16, entries: &[Entry]) -> Result<Vec<Label>, AsmError>
    ensures labels { IfOk result (λ labels. labels.items ≡ labels_of at entries.now) }
    ensures error { IfErr result (λ e. e ≡ OutOfMemory) }
{
    let mut labels = Vec::new(alloc);
    let mut address = at;
    for entry in entries {
        if let Item::Label(name) = entry.item {
            if labels.push(Label { name, address }).is_err() {
                return Err(AsmError::OutOfMemory);
            }
        }
        address = further(address, size(&entry.item));
    }
    Ok(labels)
}

/// The operand that an instruction reads.
#[tactic(auto, using(crate::proofs::Forms::source_at))]
fn source_at(labels: &Labels<'_>, at: u16, written: &Written) -> Operand
    requires { is_source (operand_at [] 0 written.now) ≡ true }
    ensures operand { result ≡ operand_at labels.now at written.now }
    ensures source { IsSource result }
{
    operand_at(labels, at, written)
}

/// The operand that an instruction with two operands writes.
#[tactic(auto, using(crate::proofs::Forms::destination_at))]
fn destination_at(labels: &Labels<'_>, at: u16, written: &Written) -> Operand
    requires { is_destination (operand_at [] 0 written.now) ≡ true }
    ensures operand { result ≡ operand_at labels.now at written.now }
    ensures destination { IsDestination result }
{
    operand_at(labels, at, written)
}

/// The instruction with two operands at an address, with the labels' addresses in place of their
/// names. The operands must be a source and a destination.
pub fn two_at(
    labels: &Labels<'_>,
    at: u16,
    op: Op2,
    byte: bool,
    src: &Written,
    dst: &Written,
) -> Instr
    requires { (is_source (operand_at [] 0 src.now) && is_destination (operand_at [] 0 dst.now))
        ≡ true }
    ensures instr { result ≡ two_at labels.now at op byte src.now dst.now }
    ensures instruction { IsInstruction result }
{
    let place = further(at, 2 + 2 * extension(src));
    Instr::Two {
        op,
        byte,
        src: source_at(labels, further(at, 2), src),
        dst: destination_at(labels, place, dst),
    }
}

/// The instruction with one operand at an address, with the labels' addresses in place of their
/// names. The operation must allow the operand.
#[tactic(auto, using(crate::proofs::Forms::allowed_at))]
pub fn one_at(labels: &Labels<'_>, at: u16, op: Op1, byte: bool, arg: &Written) -> Instr
    requires { (is_source (operand_at [] 0 arg.now)
        && is_allowed op byte (operand_at [] 0 arg.now)) ≡ true }
    ensures instr { result ≡ one_at labels.now at op byte arg.now }
    ensures instruction { IsInstruction result }
{
    Instr::One {
        op,
        byte,
        arg: source_at(labels, further(at, 2), arg),
    }
}

/// Whether a jump reaches a target from the address of the next instruction.
pub fn in_reach(next: u16, target: u16) -> bool
    ensures { result ≡ in_reach next target }
{
    let distance = distance(next, target);
    target % 2 == 0 && (distance <= 1022 || distance >= 64512)
}

/// The jump, of one of eight conditions.
#[tactic(auto, using(crate::proofs::Forms::near_offset))]
pub fn jump_at(labels: &Labels<'_>, at: u16, cond: u8, target: &Value) -> Instr
    requires cond { cond < 8 }
    requires reach { in_reach (further at 2) (number labels.now target.now) ≡ true }
    ensures instr { result ≡ jump_at labels.now at cond target.now }
    ensures instruction { IsInstruction result }
{
    Instr::Jump {
        cond,
        offset: offset(distance(further(at, 2), number(labels, target))),
    }
}
