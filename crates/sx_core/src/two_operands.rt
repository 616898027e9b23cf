//! Instructions with two operands.

ghost use Rattle.std.specs.Prelude.{◌≡◌, ◌<◌, ℕ, Bool, IsTrue, IfSome, MatchOption};
ghost use Rattle.sx_alu.specs.declared.flags.Flags.{Flags};
ghost use Rattle.sx_alu.specs.Table.{limit, row};
ghost use Rattle.sx_alu.specs.Widths.{has_width};
ghost use Rattle.spec_machine.specs.Rows.{computed, reads, writes, two};
ghost use Rattle.spec_machine.specs.Rows.{into_register, into_memory, on_memory, onto};
ghost use Rattle.sx_executor.specs.Machine.{RunsPlan};

use crate::operand::read_source;
use sx_alu::{Calc, StatusBits, calc_status};
use sx_bus::Bus;
use sx_executor::Executor;
use sx_executor::registers::PC;
use sx_isa::{Op2, Operand};
use sx_rules::Violation;

/// A calculation on operands that are in range.
#[inline(always)]
pub fn calculated(
    kind: Calc,
    wide: bool,
    src: u16,
    dst: u16,
    flags: StatusBits,
) -> (u16, StatusBits)
    requires width { IsTrue (has_width kind wide) }
    requires src { src < limit wide }
    requires dst { dst < limit wide }
    ensures { result ≡ row kind wide src dst flags }
{
    calc_status(kind, wide, src, dst, flags)
}

/// The calculation that an operation makes; MOV makes none.
#[inline(always)]
fn calculation_of(op: Op2) -> Option<Calc>
    ensures row { MatchOption result
        ((wide : Bool) → (s d : ℕ) → (f : Flags) → computed op wide s d f ≡ (s, f))
        (λ kind. (wide : Bool) → (s d : ℕ) → (f : Flags)
        → computed op wide s d f ≡ row kind wide s d f) }
    ensures width { IfSome result (λ kind. (wide : Bool) → IsTrue (has_width kind wide)) }
{
    match op {
        Op2::Mov => None,
        Op2::Add => Some(Calc::Add),
        Op2::Addc => Some(Calc::AddCarry),
        Op2::Subc => Some(Calc::SubCarry),
        Op2::Sub | Op2::Cmp => Some(Calc::Sub),
        Op2::Bit | Op2::And => Some(Calc::And),
        Op2::Bic => Some(Calc::AndNot),
        Op2::Bis => Some(Calc::Or),
        Op2::Xor => Some(Calc::Xor),
    }
}

/// What an operation gives. The compiler makes code of its own for words and for bytes.
#[inline(always)]
pub fn computed_as<const WIDE: bool>(
    op: Op2,
    src: u16,
    dst: u16,
    flags: StatusBits,
) -> (u16, StatusBits)
    requires src { src < limit WIDE }
    requires dst { dst < limit WIDE }
    ensures { result ≡ computed op WIDE src dst flags }
{
    match calculation_of(op) {
        None => (src, flags),
        Some(kind) => calculated(kind, WIDE, src, dst, flags),
    }
}

#[inline(never)]
fn computed(op: Op2, wide: bool, src: u16, dst: u16, flags: StatusBits) -> (u16, StatusBits)
    requires src { src < limit wide }
    requires dst { dst < limit wide }
    ensures { result ≡ computed op wide src dst flags }
{
    if wide {
        computed_as::<true>(op, src, dst, flags)
    } else {
        computed_as::<false>(op, src, dst, flags)
    }
}

pub fn reads(op: Op2) -> bool
    ensures { result ≡ reads op }
{
    !matches!(op, Op2::Mov)
}

pub fn writes(op: Op2) -> bool
    ensures { result ≡ writes op }
{
    !matches!(op, Op2::Cmp | Op2::Bit)
}

/// The end of an operation on a register: where the register is SR, the result is kept. The error
/// is the instruction's first violation.
#[inline(always)]
pub fn into_register<B: Bus>(
    executor: &mut Executor<B>,
    written: bool,
    r: u8,
    value: (u16, StatusBits),
) -> Result<(), Violation>
    ensures { RunsPlan (into_register written r value executor.old.regs)
        executor.old result executor.new }
{
    executor.set_flags(value.1);
    if written {
        executor.set_register(r, value.0);
    }
    Ok(())
}

/// The end of an operation on a place in memory.
#[inline(always)]
pub fn into_memory<B: Bus>(
    executor: &mut Executor<B>,
    wide: bool,
    written: bool,
    at: u16,
    value: (u16, StatusBits),
) -> Result<(), Violation>
    ensures { RunsPlan (into_memory wide written at value executor.old.regs)
        executor.old result executor.new }
{
    if written {
        executor.store(wide, at, value.0)?;
        executor.set_flags(value.1);
        Ok(())
    } else {
        executor.set_flags(value.1);
        Ok(())
    }
}

#[inline(always)]
pub fn on_memory<B: Bus>(
    executor: &mut Executor<B>,
    op: Op2,
    wide: bool,
    at: u16,
    src: u16,
) -> Result<(), Violation>
    requires { src < limit wide }
    ensures { RunsPlan (on_memory op wide at src executor.old.regs) executor.old result
        executor.new }
{
    let flags = executor.flags();
    if reads(op) {
        let dst = executor.load(wide, at)?;
        let value = computed(op, wide, src, dst, flags);
        into_memory(executor, wide, writes(op), at, value)
    } else {
        let value = computed(op, wide, src, 0, flags);
        into_memory(executor, wide, writes(op), at, value)
    }
}

#[inline(always)]
fn onto<B: Bus>(
    executor: &mut Executor<B>,
    op: Op2,
    wide: bool,
    dst: Operand,
    src: u16,
) -> Result<(), Violation>
    requires { src < limit wide }
    ensures { RunsPlan (onto op wide dst src executor.old.regs) executor.old result executor.new }
{
    match dst {
        Operand::Reg(r) => {
            let old = executor.operand(wide, r);
            let value = computed(op, wide, src, old, executor.flags());
            into_register(executor, writes(op), r, value)
        }
        Operand::Indexed(r, x) => {
            let at = executor.register(r).wrapping_add(x);
            on_memory(executor, op, wide, at, src)
        }
        Operand::Symbolic(x) => {
            let at = executor.register(PC).wrapping_sub(2).wrapping_add(x);
            on_memory(executor, op, wide, at, src)
        }
        Operand::Absolute(x) => on_memory(executor, op, wide, x, src),
        Operand::Indirect(_) | Operand::Increment(_) | Operand::Immediate(_) | Operand::Const(_) =>
            Err(Violation::Illegal),
    }
}

/// An instruction with two operands; `next` is the address after it. The error is the instruction's
/// first violation.
#[inline(always)]
pub fn two<B: Bus>(
    executor: &mut Executor<B>,
    op: Op2,
    wide: bool,
    src: Operand,
    dst: Operand,
    next: u16,
) -> Result<(), Violation>
    ensures { RunsPlan (two op wide src dst executor.old.regs next) executor.old result
        executor.new }
{
    let value = read_source(executor, wide, src)?;
    executor.set_pc(next);
    onto(executor, op, wide, dst, value)
}
