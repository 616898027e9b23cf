//! The assembler: the rules in their order, and then the code.

ghost use Rattle.std.specs.Prelude.{◌≡◌, ◌<◌, ◌≤◌, ◌&&◌, ◌++◌, ◌%◌, [], ◌∷◌, true};
ghost use Rattle.std.specs.Prelude.{Ok, IfOk, IfErr, OnOk};
ghost use Rattle.sx_isa.specs.Spelling.{spelling};
ghost use Rattle.sx_isa.specs.Instructions.{IsInstruction};
ghost use Rattle.sx_asm.specs.declared.error.AsmError.TheVariants.{OutOfMemory, Fault};
ghost use Rattle.sx_asm.specs.Faults.{IsFault};
ghost use Rattle.sx_asm.specs.Meaning.{words_at, bytes_of, code_of};
ghost use Rattle.sx_asm.specs.Assembled.{is_known, operand_known, names_known, named, formed};
ghost use Rattle.sx_asm.specs.Assembled.{has_form, reaches, reached, fitted, stands, assembled};
ghost use Rattle.sx_asm.specs.Assembled.{code_with, label_count};
ghost use Rattle.sx_asm.specs.Answers.{AnswersMeant, HidesNoFault};

use crate::error::AsmError;
use crate::labels::Labels;
use crate::meaning::{
    further, has_form, in_reach, jump_at, labels_of, number, one_at, size, two_at,
};
use crate::reading::read;
use crate::written::{Entry, Item, Value, Written};
use std::alloc::Global;
use sx_isa::{Instr, encode};

/// The most bytes of code.
const CODE_LIMIT: u32 = 8_192;

fn fault(rule: u8, line: u32) -> AsmError
    ensures { result ≡ Fault rule line }
{
    AsmError::Fault { rule, line }
}

/// Rule 2: the operands are those of their instructions.
fn formed(entries: &[Entry]) -> Result<(), AsmError>
    ensures rule { result ≡ formed entries.now }
    ensures fault { IfErr result IsFault }
{
    for entry in entries {
        if !has_form(&entry.item) {
            return Err(fault(2, entry.line));
        }
    }
    Ok(())
}

fn is_known(labels: &Labels<'_>, value: &Value) -> bool
    ensures { result ≡ is_known labels.now value.now }
{
    match value {
        Value::Number(_) => true,
        Value::Name(name) => labels.has(name),
    }
}

fn operand_known(labels: &Labels<'_>, written: &Written) -> bool
    ensures { result ≡ operand_known labels.now written.now }
{
    match written {
        Written::Reg(_) | Written::Indirect(_) | Written::Increment(_) => true,
        Written::Indexed(value, _)
        | Written::Hash(value)
        | Written::Immediate(value)
        | Written::Absolute(value)
        | Written::Symbolic(value) => is_known(labels, value),
    }
}

/// Whether the item's names have a label, or a label is the first of its name, where `before`
/// labels are before it.
fn names_known(labels: &Labels<'_>, before: usize, item: &Item) -> bool
    ensures { result ≡ names_known labels.now before item.now }
{
    match item {
        Item::Label(name) => !labels.has_before(before, name),
        Item::Word(value) => is_known(labels, value),
        Item::Two { src, dst, .. } => operand_known(labels, src) && operand_known(labels, dst),
        Item::One { arg, .. } => operand_known(labels, arg),
        Item::Jump { target, .. } => is_known(labels, target),
        Item::Reti | Item::Sancus(_) => true,
    }
}

fn label_count(item: &Item) -> usize
    ensures count { result ≡ label_count item.now }
    ensures few { result ≤ 1 }
{
    match item {
        Item::Label(_) => 1,
        _ => 0,
    }
}

/// Rule 3: each name has one label.
fn named(labels: &Labels<'_>, entries: &[Entry]) -> Result<(), AsmError>
    ensures rule { result ≡ named labels.now 0 entries.now }
    ensures fault { IfErr result IsFault }
{
    let mut before = 0;
    for entry in entries {
        if !names_known(labels, before, &entry.item) {
            return Err(fault(3, entry.line));
        }
        before += label_count(&entry.item);
    }
    Ok(())
}

fn reaches(labels: &Labels<'_>, at: u16, item: &Item) -> bool
    ensures { result ≡ reaches labels.now at item.now }
{
    match item {
        Item::Jump { target, .. } => in_reach(further(at, 2), number(labels, target)),
        _ => true,
    }
}

/// Rule 4: the jumps reach their targets.
fn reached(labels: &Labels<'_>, at: u16, entries: &[Entry]) -> Result<(), AsmError>
    ensures rule { result ≡ reached labels.now at entries.now }
    ensures fault { IfErr result IsFault }
{
    let mut address = at;
    for entry in entries {
        if !reaches(labels, address, &entry.item) {
            return Err(fault(4, entry.line));
        }
        address = further(address, size(&entry.item));
    }
    Ok(())
}

fn fitted(room: u32, entries: &[Entry]) -> Result<(), AsmError>
    ensures rule { result ≡ fitted room entries.now }
    ensures fault { IfErr result IsFault }
{
    let mut left = room;
    for entry in entries {
        let size = u32::from(size(&entry.item));
        if size > left {
            return Err(fault(5, entry.line));
        }
        left -= size;
    }
    Ok(())
}

/// Rule 5: the code is at an even address, and has room there.
fn stands(at: u16, entries: &[Entry]) -> Result<(), AsmError>
    ensures rule { result ≡ stands at entries.now }
    ensures fault { IfErr result IsFault }
{
    if at % 2 != 0 {
        return Err(fault(5, 1));
    }
    fitted(CODE_LIMIT.min(65_536 - u32::from(at)), entries)
}

fn push_word(word: u16, code: &mut Vec<u8>) -> Result<(), AsmError>
    ensures added { OnOk result (code.new.items ≡ code.old.items ++ bytes_of (word ∷ [])) }
    ensures error { IfErr result (λ e. e ≡ OutOfMemory) }
{
    let [low, high] = word.to_le_bytes();
    if code.push(low).is_err() {
        return Err(AsmError::OutOfMemory);
    }
    if code.push(high).is_err() {
        return Err(AsmError::OutOfMemory);
    }
    Ok(())
}

fn push_words(words: &[u16], code: &mut Vec<u8>) -> Result<(), AsmError>
    ensures added { OnOk result (code.new.items ≡ code.old.items ++ bytes_of words.now) }
    ensures error { IfErr result (λ e. e ≡ OutOfMemory) }
{
    for word in words {
        push_word(*word, code)?;
    }
    Ok(())
}

#[tactic(auto, using(crate::proofs::Standing::within))]
fn push_instruction(instruction: &Instr, code: &mut Vec<u8>) -> Result<(), AsmError>
    requires { IsInstruction instruction.now }
    ensures added { OnOk result
        (code.new.items ≡ code.old.items ++ bytes_of (spelling instruction.now)) }
    ensures error { IfErr result (λ e. e ≡ OutOfMemory) }
{
    let words = encode(instruction);
    push_words(&words.w[..usize::from(words.len)], code)
}

fn push_item(labels: &Labels<'_>, at: u16, item: &Item, code: &mut Vec<u8>) -> Result<(), AsmError>
    requires form { has_form item.now ≡ true }
    requires reach { reaches labels.now at item.now ≡ true }
    ensures added { OnOk result
        (code.new.items ≡ code.old.items ++ bytes_of (words_at labels.now at item.now)) }
    ensures error { IfErr result (λ e. e ≡ OutOfMemory) }
{
    match item {
        Item::Label(_) => Ok(()),
        Item::Word(value) => push_word(number(labels, value), code),
        Item::Two { op, byte, src, dst } => {
            push_instruction(&two_at(labels, at, *op, *byte, src, dst), code)
        }
        Item::One { op, byte, arg } => {
            push_instruction(&one_at(labels, at, *op, *byte, arg), code)
        }
        Item::Jump { cond, target } => {
            push_instruction(&jump_at(labels, at, *cond, target), code)
        }
        Item::Reti => push_instruction(&Instr::Reti, code),
        Item::Sancus(number) => push_instruction(&Instr::Sancus(*number), code),
    }
}

/// The bytes of items placed from an address on.
fn code_of(
    alloc: Global,
    labels: &Labels<'_>,
    at: u16,
    entries: &[Entry],
) -> Result<Vec<u8>, AsmError>
    requires formed { formed entries.now ≡ Ok tt }
    requires reached { reached labels.now at entries.now ≡ Ok tt }
    ensures code { IfOk result (λ code. code.items ≡ code_of labels.now at entries.now) }
    ensures error { IfErr result (λ e. e ≡ OutOfMemory) }
{
    let mut code = Vec::new(alloc);
    let mut address = at;
    for entry in entries {
        push_item(labels, address, &entry.item, &mut code)?;
        address = further(address, size(&entry.item));
    }
    Ok(code)
}

/// The code of items placed from an address on, or the first of the rules 2 to 5 that they
/// break. Memory is wanted only where they break none.
fn code_with(
    alloc: Global,
    labels: &Labels<'_>,
    at: u16,
    entries: &[Entry],
) -> Result<Vec<u8>, AsmError>
    ensures answer { AnswersMeant (λ code. code.items) (code_with labels.now at entries.now) result }
    ensures fault { HidesNoFault (code_with labels.now at entries.now) result }
{
    formed(entries)?;
    named(labels, entries)?;
    reached(labels, at, entries)?;
    stands(at, entries)?;
    code_of(alloc, labels, at, entries)
}

/// The code of a text that is at an address. A fault is the first of the five rules that the
/// text breaks, each tried on the whole text, and the first line that breaks it, from 1.
#[tactic(auto, unfolding(crate::specs::Assembled::assembled))]
pub fn assemble(alloc: Global, at: u16, text: &str) -> Result<Vec<u8>, AsmError>
    ensures { AnswersMeant (λ code. code.items) (assembled at text.now) result }
{
    let entries = read(alloc, text.as_bytes())?;
    let list = labels_of(alloc, at, &entries)?;
    match Labels::new(alloc, &list) {
        Ok(labels) => code_with(alloc, &labels, at, &entries),
        Err(_) => Err(AsmError::OutOfMemory),
    }
}
