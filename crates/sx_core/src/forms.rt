//! Instructions whose shortcut says operands that compiled code often has.
//!
//! Each arm names its operands, so that the compiler makes code for them alone. The clauses name
//! the rows of the instructions, as those of the long way do.

ghost use Rattle.std.specs.Prelude.{◌≡◌, true, false};
ghost use Rattle.sx_isa.specs.declared.instruction.Operand.TheVariants.{Reg, Increment, Absolute};
ghost use Rattle.sx_isa.specs.declared.instruction.Operand.TheVariants.{Immediate, Indexed, Const};
ghost use Rattle.sx_isa.specs.declared.instruction.Operand.TheVariants.{Indirect};
ghost use Rattle.sx_isa.specs.Extending.{extended};
ghost use Rattle.spec_machine.specs.Registers.{at_pc, onward};
ghost use Rattle.spec_machine.specs.Rows.{row, two, one};
ghost use Rattle.sx_executor.specs.Machine.{RunsPlan};
ghost use Rattle.sx_executor.specs.Shortcuts.{single_of, double_of};
ghost use Rattle.sx_core.specs.Quickly.{EndsStep, answer_of};

use crate::at_hand::{
    absolute_onto_register, immediate_onto_register, indexed_onto_register, indirect_onto_register,
    push_indexed, register_onto_absolute, register_onto_indexed, register_onto_register,
};
use crate::one_operand::one;
use crate::quick::Stepped;
use crate::two_operands::two;
use sx_bus::Bus;
use sx_executor::{Double, Executor, Single};
use sx_isa::{Op1, Op2, Operand};
use sx_rules::Violation;

/// An operation on words from memory at a register, which goes on. PC goes to `after`, the address
/// after the first word, before its operands are read; `next` is the address after the whole.
#[inline(always)]
fn from_increment<B: Bus>(
    executor: &mut Executor<B>,
    op: Op2,
    src: u8,
    dst: Operand,
    after: u16,
    next: u16,
) -> Result<(), Violation>
    ensures { RunsPlan (two op true (Increment src) dst (at_pc executor.old.regs after) next)
        executor.old result executor.new }
{
    executor.set_pc(after);
    two(executor, op, true, Operand::Increment(src), dst, next)
}

/// The same on bytes.
#[inline(always)]
fn bytes_from_increment<B: Bus>(
    executor: &mut Executor<B>,
    op: Op2,
    src: u8,
    dst: Operand,
    after: u16,
    next: u16,
) -> Result<(), Violation>
    ensures { RunsPlan (two op false (Increment src) dst (at_pc executor.old.regs after) next)
        executor.old result executor.new }
{
    executor.set_pc(after);
    two(executor, op, false, Operand::Increment(src), dst, next)
}

/// An operation with one operand on words.
#[inline(always)]
fn on_operand<B: Bus>(
    executor: &mut Executor<B>,
    op: Op1,
    arg: Operand,
    after: u16,
    next: u16,
) -> Result<(), Violation>
    ensures { RunsPlan (one op true arg (at_pc executor.old.regs after) next) executor.old result
        executor.new }
{
    executor.set_pc(after);
    one(executor, op, true, arg, next)
}

/// The same in memory at a register plus `x`.
#[inline(always)]
fn on_indexed<B: Bus>(
    executor: &mut Executor<B>,
    op: Op1,
    base: u8,
    x: u16,
    after: u16,
    next: u16,
) -> Stepped
    ensures { EndsStep (one op true (Indexed base x) (at_pc executor.old.regs after) next)
        executor.old result executor.new }
{
    match op {
        Op1::Push => push_indexed(executor, base, x, after, next),
        _ => Stepped::Answered(on_operand(executor, op, Operand::Indexed(base, x), after, next)),
    }
}

/// The answer of a step, without what it says of devices, so that it needs no place in memory.
#[inline(always)]
pub fn answer_of(stepped: Stepped) -> Result<(), Violation>
    ensures { result ≡ answer_of stepped }
{
    match stepped {
        Stepped::Quiet => Ok(()),
        Stepped::Answered(answer) => answer,
    }
}

/// An operation on words from a register onto PC, SP, SR or R3.
#[inline(never)]
fn single_onto_special<B: Bus>(
    executor: &mut Executor<B>,
    op: Op2,
    src: u8,
    dst: u8,
    next: u16,
) -> Result<(), Violation>
    ensures { RunsPlan (two op true (Reg src) (Reg dst) (at_pc executor.old.regs next) next)
        executor.old result executor.new }
{
    answer_of(register_onto_register(executor, op, src, dst, next))
}

/// The same from memory at a register, which goes on, onto a register.
#[inline(never)]
fn single_from_increment<B: Bus>(
    executor: &mut Executor<B>,
    op: Op2,
    src: u8,
    dst: u8,
    next: u16,
) -> Result<(), Violation>
    ensures { RunsPlan (two op true (Increment src) (Reg dst) (at_pc executor.old.regs next) next)
        executor.old result executor.new }
{
    from_increment(executor, op, src, Operand::Reg(dst), next, next)
}

/// The same from memory at a register, which stays.
#[inline(never)]
fn single_from_indirect<B: Bus>(
    executor: &mut Executor<B>,
    op: Op2,
    src: u8,
    dst: u8,
    next: u16,
) -> Result<(), Violation>
    ensures { RunsPlan (two op true (Indirect src) (Reg dst) (at_pc executor.old.regs next) next)
        executor.old result executor.new }
{
    answer_of(indirect_onto_register(executor, op, src, dst, next))
}

/// An operation on one operand, which is a register.
#[inline(never)]
fn single_on_register<B: Bus>(
    executor: &mut Executor<B>,
    op: Op1,
    arg: u8,
    next: u16,
) -> Result<(), Violation>
    ensures { RunsPlan (one op true (Reg arg) (at_pc executor.old.regs next) next)
        executor.old result executor.new }
{
    on_operand(executor, op, Operand::Reg(arg), next, next)
}

/// The same on a constant.
#[inline(never)]
fn single_on_constant<B: Bus>(
    executor: &mut Executor<B>,
    op: Op1,
    value: u16,
    next: u16,
) -> Result<(), Violation>
    ensures { RunsPlan (one op true (Const value) (at_pc executor.old.regs next) next)
        executor.old result executor.new }
{
    on_operand(executor, op, Operand::Const(value), next, next)
}

/// An instruction without an extension word; `next` is the address after it. Each form is a call
/// that takes what it has in registers, so that nothing is saved on the way to it.
#[inline(always)]
pub fn step_single<B: Bus>(
    executor: &mut Executor<B>,
    form: Single,
    next: u16,
) -> Result<(), Violation>
    ensures { RunsPlan (row (single_of form) (at_pc executor.old.regs next) next) executor.old
        result executor.new }
{
    match form {
        Single::OntoSpecial { op, src, dst } => single_onto_special(executor, op, src, dst, next),
        Single::FromIncrement { op, src, dst } => {
            single_from_increment(executor, op, src, dst, next)
        }
        Single::FromIndirect { op, src, dst } => single_from_indirect(executor, op, src, dst, next),
        Single::OnRegister { op, arg } => single_on_register(executor, op, arg, next),
        Single::OnConstant { op, value } => single_on_constant(executor, op, value, next),
    }
}

/// An operation on words from the extension word `x` onto a register, at `pc`.
#[inline(never)]
fn double_from_immediate<B: Bus>(
    executor: &mut Executor<B>,
    op: Op2,
    x: u16,
    dst: u8,
    pc: u16,
) -> Result<(), Violation>
    ensures { RunsPlan (two op true (Immediate x) (Reg dst)
        (at_pc executor.old.regs (onward pc 2)) (onward pc 4)) executor.old result executor.new }
{
    let (after, next) = (pc.wrapping_add(2), pc.wrapping_add(4));
    answer_of(immediate_onto_register(executor, op, x, dst, after, next))
}

/// The same from memory at `x`.
#[inline(never)]
fn double_from_absolute<B: Bus>(
    executor: &mut Executor<B>,
    op: Op2,
    x: u16,
    dst: u8,
    pc: u16,
) -> Result<(), Violation>
    ensures { RunsPlan (two op true (Absolute x) (Reg dst)
        (at_pc executor.old.regs (onward pc 2)) (onward pc 4)) executor.old result executor.new }
{
    let (after, next) = (pc.wrapping_add(2), pc.wrapping_add(4));
    answer_of(absolute_onto_register(executor, op, x, dst, after, next))
}

/// The same from memory at a register plus `x`.
#[inline(never)]
fn double_from_indexed<B: Bus>(
    executor: &mut Executor<B>,
    op: Op2,
    base: u8,
    x: u16,
    dst: u8,
    pc: u16,
) -> Result<(), Violation>
    ensures { RunsPlan (two op true (Indexed base x) (Reg dst)
        (at_pc executor.old.regs (onward pc 2)) (onward pc 4)) executor.old result executor.new }
{
    let (after, next) = (pc.wrapping_add(2), pc.wrapping_add(4));
    answer_of(indexed_onto_register(executor, op, base, x, dst, after, next))
}

/// An operation on words from a register onto memory at `x`.
#[inline(never)]
fn double_onto_absolute<B: Bus>(
    executor: &mut Executor<B>,
    op: Op2,
    src: u8,
    x: u16,
    pc: u16,
) -> Result<(), Violation>
    ensures { RunsPlan (two op true (Reg src) (Absolute x)
        (at_pc executor.old.regs (onward pc 2)) (onward pc 4)) executor.old result executor.new }
{
    let (after, next) = (pc.wrapping_add(2), pc.wrapping_add(4));
    answer_of(register_onto_absolute(executor, op, src, x, after, next))
}

/// The same onto memory at a register plus `x`.
#[inline(never)]
fn double_onto_indexed<B: Bus>(
    executor: &mut Executor<B>,
    op: Op2,
    src: u8,
    base: u8,
    x: u16,
    pc: u16,
) -> Result<(), Violation>
    ensures { RunsPlan (two op true (Reg src) (Indexed base x)
        (at_pc executor.old.regs (onward pc 2)) (onward pc 4)) executor.old result executor.new }
{
    let (after, next) = (pc.wrapping_add(2), pc.wrapping_add(4));
    answer_of(register_onto_indexed(executor, op, src, base, x, after, next))
}

/// An operation on words from memory at a register, which goes on, onto memory at `x`.
#[inline(never)]
fn increment_onto_absolute<B: Bus>(
    executor: &mut Executor<B>,
    op: Op2,
    src: u8,
    x: u16,
    pc: u16,
) -> Result<(), Violation>
    ensures { RunsPlan (two op true (Increment src) (Absolute x)
        (at_pc executor.old.regs (onward pc 2)) (onward pc 4)) executor.old result executor.new }
{
    let (after, next) = (pc.wrapping_add(2), pc.wrapping_add(4));
    from_increment(executor, op, src, Operand::Absolute(x), after, next)
}

/// The same onto memory at a register plus `x`.
#[inline(never)]
fn increment_onto_indexed<B: Bus>(
    executor: &mut Executor<B>,
    op: Op2,
    src: u8,
    base: u8,
    x: u16,
    pc: u16,
) -> Result<(), Violation>
    ensures { RunsPlan (two op true (Increment src) (Indexed base x)
        (at_pc executor.old.regs (onward pc 2)) (onward pc 4)) executor.old result executor.new }
{
    let (after, next) = (pc.wrapping_add(2), pc.wrapping_add(4));
    from_increment(executor, op, src, Operand::Indexed(base, x), after, next)
}

/// The same on bytes.
#[inline(never)]
fn bytes_onto_indexed<B: Bus>(
    executor: &mut Executor<B>,
    op: Op2,
    src: u8,
    base: u8,
    x: u16,
    pc: u16,
) -> Result<(), Violation>
    ensures { RunsPlan (two op false (Increment src) (Indexed base x)
        (at_pc executor.old.regs (onward pc 2)) (onward pc 4)) executor.old result executor.new }
{
    let (after, next) = (pc.wrapping_add(2), pc.wrapping_add(4));
    bytes_from_increment(executor, op, src, Operand::Indexed(base, x), after, next)
}

/// An operation on one operand, which is the value `x`.
#[inline(never)]
fn double_on_immediate<B: Bus>(
    executor: &mut Executor<B>,
    op: Op1,
    x: u16,
    pc: u16,
) -> Result<(), Violation>
    ensures { RunsPlan (one op true (Immediate x)
        (at_pc executor.old.regs (onward pc 2)) (onward pc 4)) executor.old result executor.new }
{
    let (after, next) = (pc.wrapping_add(2), pc.wrapping_add(4));
    on_operand(executor, op, Operand::Immediate(x), after, next)
}

/// The same in memory at `x`.
#[inline(never)]
fn double_on_absolute<B: Bus>(
    executor: &mut Executor<B>,
    op: Op1,
    x: u16,
    pc: u16,
) -> Result<(), Violation>
    ensures { RunsPlan (one op true (Absolute x)
        (at_pc executor.old.regs (onward pc 2)) (onward pc 4)) executor.old result executor.new }
{
    let (after, next) = (pc.wrapping_add(2), pc.wrapping_add(4));
    on_operand(executor, op, Operand::Absolute(x), after, next)
}

/// The same in memory at a register plus `x`.
#[inline(never)]
fn double_on_indexed<B: Bus>(
    executor: &mut Executor<B>,
    op: Op1,
    base: u8,
    x: u16,
    pc: u16,
) -> Result<(), Violation>
    ensures { RunsPlan (one op true (Indexed base x)
        (at_pc executor.old.regs (onward pc 2)) (onward pc 4)) executor.old result executor.new }
{
    let (after, next) = (pc.wrapping_add(2), pc.wrapping_add(4));
    answer_of(on_indexed(executor, op, base, x, after, next))
}

/// An instruction with the extension word `x`, at `pc`. Each form is a call, as of those without
/// one.
#[inline(always)]
pub fn step_double<B: Bus>(
    executor: &mut Executor<B>,
    form: Double,
    x: u16,
    pc: u16,
) -> Result<(), Violation>
    ensures { RunsPlan (row (extended (double_of form) x 0)
        (at_pc executor.old.regs (onward pc 2)) (onward pc 4)) executor.old result executor.new }
{
    match form {
        Double::FromImmediate { op, dst } => double_from_immediate(executor, op, x, dst, pc),
        Double::FromAbsolute { op, dst } => double_from_absolute(executor, op, x, dst, pc),
        Double::FromIndexed { op, base, dst } => {
            double_from_indexed(executor, op, base, x, dst, pc)
        }
        Double::RegisterOntoAbsolute { op, src } => double_onto_absolute(executor, op, src, x, pc),
        Double::RegisterOntoIndexed { op, src, base } => {
            double_onto_indexed(executor, op, src, base, x, pc)
        }
        Double::IncrementOntoAbsolute { op, src } => {
            increment_onto_absolute(executor, op, src, x, pc)
        }
        Double::IncrementOntoIndexed { op, src, base } => {
            increment_onto_indexed(executor, op, src, base, x, pc)
        }
        Double::BytesOntoIndexed { op, src, base } => {
            bytes_onto_indexed(executor, op, src, base, x, pc)
        }
        Double::OnImmediate { op } => double_on_immediate(executor, op, x, pc),
        Double::OnAbsolute { op } => double_on_absolute(executor, op, x, pc),
        Double::OnIndexed { op, base } => double_on_indexed(executor, op, base, x, pc),
    }
}
