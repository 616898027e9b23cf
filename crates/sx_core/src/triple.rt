//! Instructions of three words that have a shortcut: operations on words with two extension words.

ghost use Rattle.std.specs.Prelude.{◌≡◌, ℕ, true, List, IsTrue};
ghost use Rattle.sx_isa.specs.Reading.{length_of};
ghost use Rattle.sx_isa.specs.Extending.{extended};
ghost use Rattle.sx_isa.specs.declared.instruction.Operand.TheVariants.{Absolute, Immediate};
ghost use Rattle.sx_isa.specs.declared.instruction.Operand.TheVariants.{Indexed};
ghost use Rattle.spec_machine.specs.Registers.{onward, at_pc, reg};
ghost use Rattle.spec_machine.specs.Rows.{row, with_words, program, two};
ghost use Rattle.spec_machine.specs.Answers.{followed};
ghost use Rattle.sx_executor.specs.Machine.{ran, RunsPlan};
ghost use Rattle.sx_executor.specs.Occupancy.{IsAhead};
ghost use Rattle.sx_executor.specs.Shortcuts.{instruction_of, words_of, triple_of};
ghost use Rattle.sx_core.specs.Quickly.{EndsStep};

use crate::at_hand::{word_onto_absolute, word_onto_indexed};
use crate::forms::answer_of;
use crate::quick::{Stepped, on_word};
use crate::step::step_long;
use sx_bus::Bus;
use sx_executor::registers::{PC, cut};
use sx_executor::{Executor, Form, Shortcut, Triple};
use sx_isa::Op2;
use sx_rules::Violation;

/// Fetches the extension words of the instruction of three words at `pc`. Where the words after PC
/// are known to be extension words, nothing is asked.
#[inline(always)]
#[tactic(auto, unfolding(sx_isa::specs::Reading::length_of))]
fn fetch_both<B: Bus, const AHEAD: bool>(
    executor: &Executor<B>,
    shortcut: &Shortcut,
    pc: u16,
) -> Result<(u16, u16), Violation>
    requires form { words_of shortcut.now.form ≡ 3 }
    requires ahead { IsTrue AHEAD
        → IsAhead executor.now.sections.live executor.now.devices executor.now.own pc }
    ensures { (regs : List ℕ)
        → ran (with_words (length_of shortcut.now.first) shortcut.now.first regs pc) executor.now
        ≡ followed result (λ words. ran (row
        (extended (instruction_of shortcut.now.form) words.0 words.1) regs (onward pc 6))
        executor.now) }
{
    shortcut.reads_on();
    let (second, third) = (pc.wrapping_add(2), pc.wrapping_add(4));
    if AHEAD {
        return Ok((executor.fetch_known(second), executor.fetch_known(third)));
    }
    let x = executor.fetch(second)?;
    let z = executor.fetch(third)?;
    Ok((x, z))
}

/// An operation on words from the value `x` onto memory at `z`. PC goes to `after`, the address
/// after the first word, before operands are read; `next` is the address after the whole.
#[inline(always)]
fn immediate_onto_absolute<B: Bus>(
    executor: &mut Executor<B>,
    op: Op2,
    x: u16,
    z: u16,
    after: u16,
    next: u16,
) -> Stepped
    ensures { EndsStep (two op true (Immediate x) (Absolute z) (at_pc executor.old.regs after) next)
        executor.old result executor.new }
{
    executor.set_pc(after);
    let value = cut(true, x);
    executor.set_pc(next);
    on_word(executor, op, z, value)
}

/// The same onto memory at a register plus `z`.
#[inline(always)]
fn immediate_onto_indexed<B: Bus>(
    executor: &mut Executor<B>,
    op: Op2,
    x: u16,
    base: u8,
    z: u16,
    after: u16,
    next: u16,
) -> Stepped
    ensures { EndsStep
        (two op true (Immediate x) (Indexed base z) (at_pc executor.old.regs after) next)
        executor.old result executor.new }
{
    executor.set_pc(after);
    let value = cut(true, x);
    executor.set_pc(next);
    let at = executor.register(base).wrapping_add(z);
    on_word(executor, op, at, value)
}

/// The same from memory at `x` onto memory at `z`.
#[inline(always)]
fn absolute_onto_absolute<B: Bus>(
    executor: &mut Executor<B>,
    op: Op2,
    x: u16,
    z: u16,
    after: u16,
    next: u16,
) -> Stepped
    ensures { EndsStep (two op true (Absolute x) (Absolute z) (at_pc executor.old.regs after) next)
        executor.old result executor.new }
{
    executor.set_pc(after);
    word_onto_absolute(executor, op, x, z, next)
}

/// The same from memory at `x` onto memory at a register plus `z`.
#[inline(always)]
fn absolute_onto_indexed<B: Bus>(
    executor: &mut Executor<B>,
    op: Op2,
    x: u16,
    base: u8,
    z: u16,
    after: u16,
    next: u16,
) -> Stepped
    ensures { EndsStep
        (two op true (Absolute x) (Indexed base z) (at_pc executor.old.regs after) next)
        executor.old result executor.new }
{
    executor.set_pc(after);
    word_onto_indexed(executor, op, x, base, z, next)
}

/// The same from memory at a register plus `x` onto memory at `z`.
#[inline(always)]
fn indexed_onto_absolute<B: Bus>(
    executor: &mut Executor<B>,
    op: Op2,
    base: u8,
    x: u16,
    z: u16,
    after: u16,
    next: u16,
) -> Stepped
    ensures { EndsStep
        (two op true (Indexed base x) (Absolute z) (at_pc executor.old.regs after) next)
        executor.old result executor.new }
{
    executor.set_pc(after);
    let from = executor.register(base).wrapping_add(x);
    word_onto_absolute(executor, op, from, z, next)
}

/// The same from memory at a register plus `x` onto memory at a register plus `z`, at `pc`.
#[inline(always)]
fn indexed_onto_indexed<B: Bus>(
    executor: &mut Executor<B>,
    op: Op2,
    from: u8,
    x: u16,
    base: u8,
    z: u16,
    pc: u16,
) -> Stepped
    ensures { EndsStep (two op true (Indexed from x) (Indexed base z)
        (at_pc executor.old.regs (onward pc 2)) (onward pc 6)) executor.old result executor.new }
{
    executor.set_pc(pc.wrapping_add(2));
    let from = executor.register(from).wrapping_add(x);
    word_onto_indexed(executor, op, from, base, z, pc.wrapping_add(6))
}

/// The instruction at `pc` with the extension words `x` and `z`.
#[inline(always)]
fn with_both<B: Bus>(executor: &mut Executor<B>, form: Triple, x: u16, z: u16, pc: u16) -> Stepped
    ensures { EndsStep (row (extended (triple_of form) x z)
        (at_pc executor.old.regs (onward pc 2)) (onward pc 6)) executor.old result executor.new }
{
    let after = pc.wrapping_add(2);
    let next = pc.wrapping_add(6);
    match form {
        Triple::ImmediateOntoAbsolute { op } => {
            immediate_onto_absolute(executor, op, x, z, after, next)
        }
        Triple::ImmediateOntoIndexed { op, base } => {
            immediate_onto_indexed(executor, op, x, base, z, after, next)
        }
        Triple::AbsoluteOntoAbsolute { op } => {
            absolute_onto_absolute(executor, op, x, z, after, next)
        }
        Triple::AbsoluteOntoIndexed { op, base } => {
            absolute_onto_indexed(executor, op, x, base, z, after, next)
        }
        Triple::IndexedOntoAbsolute { op, base } => {
            indexed_onto_absolute(executor, op, base, x, z, after, next)
        }
        Triple::IndexedOntoIndexed { op, from, base } => {
            indexed_onto_indexed(executor, op, from, x, base, z, pc)
        }
    }
}

/// Executes the instruction at PC with this first word, which is one of three words. It finds its
/// shortcut again, so that nothing is handed on in memory.
#[inline(never)]
#[tactic(auto, unfolding(spec_machine::specs::Rows::program, sx_isa::specs::Reading::length_of))]
pub fn step_triple<B: Bus, const AHEAD: bool>(
    executor: &mut Executor<B>,
    first: u16,
) -> Result<(), Violation>
    requires { IsTrue AHEAD → IsAhead executor.old.sections.live executor.old.devices
        executor.old.own (reg executor.old.regs 0) }
    ensures { RunsPlan (program first executor.old.regs) executor.old result executor.new }
{
    let pc = executor.register(PC);
    let shortcut = executor.shortcut(pc);
    if shortcut.first != first {
        return step_long(executor, first);
    }
    let Form::Triple(form) = shortcut.form else {
        return step_long(executor, first);
    };
    let (x, z) = fetch_both::<B, AHEAD>(executor, shortcut, pc)?;
    answer_of(with_both(executor, form, x, z, pc))
}
