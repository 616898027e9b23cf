//! Instructions with one operand, and the return from an interrupt.

ghost use Rattle.std.specs.Prelude.{IsTrue, slice_index};
ghost use Rattle.sx_alu.specs.Widths.{has_width};
ghost use Rattle.spec_machine.specs.Plan.{Done, Store};
ghost use Rattle.spec_machine.specs.Registers.{at_pc};
ghost use Rattle.spec_machine.specs.Rows.{in_memory, in_place, pushed, one, reti};
ghost use Rattle.sx_executor.specs.Machine.{RunsPlan};

use crate::operand::read_source;
use crate::two_operands::{calculated, into_memory, into_register};
use sx_alu::Calc;
use sx_bus::Bus;
use sx_executor::Executor;
use sx_executor::registers::{PC, SP, SR};
use sx_isa::{Op1, Operand};
use sx_rules::Violation;

/// An operation that writes its result where its operand was read, at a place in memory. PC is
/// after the instruction.
fn operate<B: Bus>(
    executor: &mut Executor<B>,
    kind: Calc,
    wide: bool,
    at: u16,
) -> Result<(), Violation>
    requires { IsTrue (has_width kind wide) }
    ensures { RunsPlan (in_memory kind wide at executor.old.regs) executor.old result executor.new }
{
    let old = executor.load(wide, at)?;
    let value = calculated(kind, wide, old, 0, executor.flags());
    into_memory(executor, wide, true, at, value)
}

/// The same from the instruction's first word on; `next` is the address after it.
fn in_memory<B: Bus>(
    executor: &mut Executor<B>,
    kind: Calc,
    wide: bool,
    at: u16,
    next: u16,
) -> Result<(), Violation>
    requires { IsTrue (has_width kind wide) }
    ensures { RunsPlan (in_memory kind wide at (at_pc executor.old.regs next))
        executor.old result executor.new }
{
    executor.set_pc(next);
    operate(executor, kind, wide, at)
}

/// An operation that writes its result where its operand was read.
fn in_place<B: Bus>(
    executor: &mut Executor<B>,
    kind: Calc,
    wide: bool,
    arg: Operand,
    next: u16,
) -> Result<(), Violation>
    requires { IsTrue (has_width kind wide) }
    ensures { RunsPlan (in_place kind wide arg executor.old.regs next)
        executor.old result executor.new }
{
    match arg {
        Operand::Reg(r) => {
            let old = executor.operand(wide, r);
            let value = calculated(kind, wide, old, 0, executor.flags());
            executor.set_pc(next);
            into_register(executor, true, r, value)
        }
        Operand::Indexed(r, x) => {
            let at = executor.register(r).wrapping_add(x);
            in_memory(executor, kind, wide, at, next)
        }
        Operand::Symbolic(x) => {
            let at = executor.register(PC).wrapping_add(x);
            in_memory(executor, kind, wide, at, next)
        }
        Operand::Absolute(x) => in_memory(executor, kind, wide, x, next),
        Operand::Indirect(r) => {
            let at = executor.register(r);
            in_memory(executor, kind, wide, at, next)
        }
        Operand::Increment(r) => {
            let at = executor.register(r);
            executor.increment(wide, r);
            in_memory(executor, kind, wide, at, next)
        }
        Operand::Immediate(_) | Operand::Const(_) => Err(Violation::Illegal),
    }
}

/// Writes a word, or in byte form a byte, where SP is, and moves PC.
fn write_at_sp<B: Bus>(
    executor: &mut Executor<B>,
    wide: bool,
    value: u16,
    pc: u16,
) -> Result<(), Violation>
    ensures { RunsPlan (Store wide (slice_index executor.old.regs 1) value
        (Done (at_pc executor.old.regs pc))) executor.old result executor.new }
{
    let at = executor.register(SP);
    executor.store(wide, at, value)?;
    executor.set_pc(pc);
    Ok(())
}

/// Pushes a word, or in byte form a byte, and moves PC.
fn push<B: Bus>(
    executor: &mut Executor<B>,
    wide: bool,
    value: u16,
    pc: u16,
) -> Result<(), Violation>
    ensures { RunsPlan (pushed wide value pc executor.old.regs) executor.old result executor.new }
{
    let lowered = executor.register(SP).wrapping_sub(2);
    executor.set_word(SP, lowered);
    write_at_sp(executor, wide, value, pc)
}

/// An instruction with one operand; `next` is the address after it. The error is the instruction's
/// first violation.
pub fn one<B: Bus>(
    executor: &mut Executor<B>,
    op: Op1,
    wide: bool,
    arg: Operand,
    next: u16,
) -> Result<(), Violation>
    ensures { RunsPlan (one op wide arg executor.old.regs next) executor.old result executor.new }
{
    match op {
        Op1::Rrc => in_place(executor, Calc::Rrc, wide, arg, next),
        Op1::Swpb => in_place(executor, Calc::Swap, true, arg, next),
        Op1::Rra => in_place(executor, Calc::Rra, wide, arg, next),
        Op1::Sxt => in_place(executor, Calc::Extend, true, arg, next),
        Op1::Push => {
            let value = read_source(executor, wide, arg)?;
            push(executor, wide, value, next)
        }
        Op1::Call => {
            let target = read_source(executor, true, arg)?;
            push(executor, true, next, target & !1)
        }
    }
}

/// The return from an interrupt, which takes SR and then PC from the stack. The error is the
/// instruction's first violation.
pub fn reti<B: Bus>(executor: &mut Executor<B>) -> Result<(), Violation>
    ensures { RunsPlan (reti executor.old.regs) executor.old result executor.new }
{
    let sp = executor.register(SP);
    let status = executor.load(true, sp)?;
    let pc = executor.load(true, sp.wrapping_add(2))?;
    executor.set_register(SR, status);
    executor.set_word(SP, sp.wrapping_add(4));
    executor.set_register(PC, pc);
    Ok(())
}
