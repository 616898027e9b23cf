//! What compiled code does most, with operands and places named: MOV between registers and memory,
//! other operations on words that read an extension word, PUSH, CALL, returns, and operations on
//! one register.
//!
//! A place that is at hand is read or written with no other test, and then no device was touched.
//! Where it isn't, the long way takes the instruction. The clauses name the rows of the
//! instructions, as those of the long way do.

ghost use Rattle.std.specs.Prelude.{◌≡◌, ◌<◌, true, false, IsTrue, IfSome, Ok};
ghost use Rattle.sx_isa.specs.declared.instruction.Op2.TheVariants.{Mov};
ghost use Rattle.sx_isa.specs.declared.instruction.Op1.TheVariants.{Push, Call};
ghost use Rattle.sx_isa.specs.declared.instruction.Operand.TheVariants.{Reg, Increment, Absolute};
ghost use Rattle.sx_isa.specs.declared.instruction.Operand.TheVariants.{Immediate, Indexed, Const};
ghost use Rattle.sx_isa.specs.declared.instruction.Operand.TheVariants.{Indirect};
ghost use Rattle.sx_alu.specs.Table.{limit};
ghost use Rattle.sx_alu.specs.Widths.{has_width};
ghost use Rattle.spec_machine.specs.Plan.{Done, Store};
ghost use Rattle.spec_machine.specs.Registers.{at_pc};
ghost use Rattle.spec_machine.specs.Rows.{two, one, onto, on_memory, into_register, in_place, pushed};
ghost use Rattle.sx_executor.specs.Machine.{RunsPlan, Loads};
ghost use Rattle.sx_core.specs.Quickly.{RunsQuietly, EndsStep};

use crate::one_operand::one;
use crate::quick::{Stepped, on_word, onto_general};
use crate::two_operands::{calculated, computed_as, two, writes};
use sx_alu::{Calc, StatusBits};
use sx_bus::Bus;
use sx_executor::registers::{SP, cut};
use sx_executor::{Executor, is_general};
use sx_isa::{Op1, Op2, Operand};
use sx_rules::Violation;

/// The word at a place, or in byte form the byte, if one look says that the running code may read it
/// and that no device is there.
#[inline(always)]
pub fn load_at_hand<B: Bus>(executor: &Executor<B>, wide: bool, at: u16) -> Option<u16>
    ensures run { IfSome result (λ v. Loads wide at executor.now (Ok v) executor.now) }
    ensures below { IfSome result (λ v. v < limit wide) }
{
    if executor.is_readable_at_hand(at) {
        return Some(executor.read(wide, at));
    }
    None
}

/// Writes a word, or in byte form a byte, as the end of an instruction.
#[inline(always)]
fn store_last<B: Bus>(executor: &mut Executor<B>, wide: bool, at: u16, value: u16) -> Stepped
    ensures { EndsStep (Store wide at value (Done executor.old.regs)) executor.old result
        executor.new }
{
    if executor.is_at_hand(at) {
        executor.write(wide, at, value);
        return Stepped::Quiet;
    }
    Stepped::Answered(store_near(executor, wide, at, value))
}

/// The same where a section may refuse it, or a device be there.
#[cold]
#[inline(never)]
fn store_near<B: Bus>(
    executor: &mut Executor<B>,
    wide: bool,
    at: u16,
    value: u16,
) -> Result<(), Violation>
    ensures { RunsPlan (Store wide at value (Done executor.old.regs)) executor.old result
        executor.new }
{
    executor.store(wide, at, value)
}

/// An instruction with two operands, one of which isn't at hand.
#[cold]
#[inline(never)]
pub fn two_near<B: Bus>(
    executor: &mut Executor<B>,
    op: Op2,
    wide: bool,
    src: Operand,
    dst: Operand,
    next: u16,
) -> Result<(), Violation>
    ensures { RunsPlan (two op wide src dst executor.old.regs next) executor.old result
        executor.new }
{
    two(executor, op, wide, src, dst, next)
}

/// The end of an operation on a register, which keeps what it can.
#[inline(always)]
fn into_any<B: Bus>(executor: &mut Executor<B>, r: u8, value: (u16, StatusBits))
    ensures { RunsQuietly (into_register true r value executor.old.regs) executor.old
        executor.new }
{
    executor.set_flags(value.1);
    executor.set_register(r, value.0);
}

/// An operation on words onto a register.
#[inline(always)]
fn onto_any<B: Bus>(executor: &mut Executor<B>, op: Op2, src: u16, r: u8)
    requires { src < limit true }
    ensures { RunsQuietly (onto op true (Reg r) src executor.old.regs) executor.old executor.new }
{
    let old = executor.operand(true, r);
    let value = computed_as::<true>(op, src, old, executor.flags());
    executor.set_flags(value.1);
    if writes(op) {
        executor.set_register(r, value.0);
    }
}

/// The same as a call. Sums, differences and comparisons with a general register have code of their
/// own in it.
#[inline(never)]
fn onto_any_called<B: Bus>(executor: &mut Executor<B>, op: Op2, src: u16, r: u8)
    requires { src < limit true }
    ensures { RunsQuietly (onto op true (Reg r) src executor.old.regs) executor.old executor.new }
{
    if !is_general(r) {
        onto_any(executor, op, src, r);
        return;
    }
    match op {
        Op2::Add => onto_general(executor, Op2::Add, src, r),
        Op2::Sub => onto_general(executor, Op2::Sub, src, r),
        Op2::Cmp => onto_general(executor, Op2::Cmp, src, r),
        _ => onto_general(executor, op, src, r),
    }
}

/// MOV of a word onto a register.
#[inline(always)]
fn moved_onto<B: Bus>(executor: &mut Executor<B>, value: u16, r: u8)
    ensures { RunsQuietly (onto Mov true (Reg r) value executor.old.regs) executor.old
        executor.new }
{
    let flags = executor.flags();
    into_any(executor, r, (value, flags));
}

/// MOV of a word, or in byte form of a byte, onto memory.
#[inline(always)]
pub fn moved_to<B: Bus>(executor: &mut Executor<B>, wide: bool, at: u16, value: u16) -> Stepped
    ensures { EndsStep (on_memory Mov wide at value executor.old.regs) executor.old result
        executor.new }
{
    let flags = executor.flags();
    executor.set_flags(flags);
    store_last(executor, wide, at, value)
}

/// MOV of the extension word `x` onto a register. PC goes to `after`, the address after the first
/// word, before operands are read; `next` is the address after the whole.
#[inline(always)]
pub fn move_immediate<B: Bus>(
    executor: &mut Executor<B>,
    x: u16,
    dst: u8,
    after: u16,
    next: u16,
) -> Stepped
    ensures { EndsStep (two Mov true (Immediate x) (Reg dst) (at_pc executor.old.regs after) next)
        executor.old result executor.new }
{
    executor.set_pc(after);
    executor.set_pc(next);
    moved_onto(executor, x, dst);
    Stepped::Quiet
}

/// An operation on a word that isn't at hand onto a register.
#[cold]
#[inline(never)]
pub fn word_near<B: Bus>(
    executor: &mut Executor<B>,
    op: Op2,
    at: u16,
    dst: u8,
    next: u16,
) -> Result<(), Violation>
    ensures { RunsPlan (two op true (Absolute at) (Reg dst) executor.old.regs next)
        executor.old result executor.new }
{
    let (from, to) = (Operand::Absolute(at), Operand::Reg(dst));
    two_near(executor, op, true, from, to, next)
}

/// MOV of a word at a register, which goes on, where it isn't at hand.
#[cold]
#[inline(never)]
fn pop_near<B: Bus>(
    executor: &mut Executor<B>,
    src: u8,
    dst: u8,
    next: u16,
) -> Result<(), Violation>
    ensures { RunsPlan (two Mov true (Increment src) (Reg dst) executor.old.regs next)
        executor.old result executor.new }
{
    let (from, to) = (Operand::Increment(src), Operand::Reg(dst));
    two_near(executor, Op2::Mov, true, from, to, next)
}

/// MOV of the word at an address onto a register.
#[inline(always)]
fn load_word<B: Bus>(executor: &mut Executor<B>, at: u16, dst: u8, next: u16) -> Stepped
    ensures { EndsStep (two Mov true (Absolute at) (Reg dst) executor.old.regs next)
        executor.old result executor.new }
{
    let Some(value) = load_at_hand(executor, true, at) else {
        return Stepped::Answered(word_near(executor, Op2::Mov, at, dst, next));
    };
    executor.set_pc(next);
    moved_onto(executor, value, dst);
    Stepped::Quiet
}

/// The same of an instruction whose first word ends at `after`.
#[inline(always)]
pub fn load_absolute<B: Bus>(
    executor: &mut Executor<B>,
    at: u16,
    dst: u8,
    after: u16,
    next: u16,
) -> Stepped
    ensures { EndsStep (two Mov true (Absolute at) (Reg dst) (at_pc executor.old.regs after) next)
        executor.old result executor.new }
{
    executor.set_pc(after);
    load_word(executor, at, dst, next)
}

/// The same from memory at a register plus `x`.
#[inline(always)]
pub fn load_indexed<B: Bus>(
    executor: &mut Executor<B>,
    base: u8,
    x: u16,
    dst: u8,
    after: u16,
    next: u16,
) -> Stepped
    ensures { EndsStep
        (two Mov true (Indexed base x) (Reg dst) (at_pc executor.old.regs after) next)
        executor.old result executor.new }
{
    executor.set_pc(after);
    let at = executor.register(base).wrapping_add(x);
    load_word(executor, at, dst, next)
}

/// The same from memory at a register, which goes on: a POP or a RET, where that register is SP.
#[inline(always)]
pub fn pop<B: Bus>(executor: &mut Executor<B>, src: u8, dst: u8, next: u16) -> Stepped
    ensures { EndsStep (two Mov true (Increment src) (Reg dst) (at_pc executor.old.regs next) next)
        executor.old result executor.new }
{
    executor.set_pc(next);
    let at = executor.register(src);
    let Some(value) = load_at_hand(executor, true, at) else {
        return Stepped::Answered(pop_near(executor, src, dst, next));
    };
    executor.increment(true, src);
    executor.set_pc(next);
    moved_onto(executor, value, dst);
    Stepped::Quiet
}

/// MOV of a register onto memory at an address.
#[inline(always)]
pub fn store_absolute<B: Bus>(
    executor: &mut Executor<B>,
    src: u8,
    at: u16,
    after: u16,
    next: u16,
) -> Stepped
    ensures { EndsStep (two Mov true (Reg src) (Absolute at) (at_pc executor.old.regs after) next)
        executor.old result executor.new }
{
    executor.set_pc(after);
    let value = executor.operand(true, src);
    executor.set_pc(next);
    moved_to(executor, true, at, value)
}

/// The same at a register plus `x`.
#[inline(always)]
pub fn store_indexed<B: Bus>(
    executor: &mut Executor<B>,
    src: u8,
    base: u8,
    x: u16,
    after: u16,
    next: u16,
) -> Stepped
    ensures { EndsStep
        (two Mov true (Reg src) (Indexed base x) (at_pc executor.old.regs after) next)
        executor.old result executor.new }
{
    executor.set_pc(after);
    let value = executor.operand(true, src);
    executor.set_pc(next);
    let at = executor.register(base).wrapping_add(x);
    moved_to(executor, true, at, value)
}

/// MOV of a byte at a register, which goes on, onto memory at a register plus `x`.
#[inline(always)]
pub fn move_byte<B: Bus>(
    executor: &mut Executor<B>,
    src: u8,
    base: u8,
    x: u16,
    after: u16,
    next: u16,
) -> Stepped
    ensures { EndsStep
        (two Mov false (Increment src) (Indexed base x) (at_pc executor.old.regs after) next)
        executor.old result executor.new }
{
    executor.set_pc(after);
    let from = executor.register(src);
    let Some(value) = load_at_hand(executor, false, from) else {
        let (from, to) = (Operand::Increment(src), Operand::Indexed(base, x));
        return Stepped::Answered(two_near(executor, Op2::Mov, false, from, to, next));
    };
    executor.increment(false, src);
    executor.set_pc(next);
    let at = executor.register(base).wrapping_add(x);
    moved_to(executor, false, at, value)
}

/// An operation on words from the extension word `x` onto a register.
#[inline(always)]
pub fn immediate_onto_register<B: Bus>(
    executor: &mut Executor<B>,
    op: Op2,
    x: u16,
    dst: u8,
    after: u16,
    next: u16,
) -> Stepped
    ensures { EndsStep (two op true (Immediate x) (Reg dst) (at_pc executor.old.regs after) next)
        executor.old result executor.new }
{
    executor.set_pc(after);
    let value = cut(true, x);
    executor.set_pc(next);
    onto_any(executor, op, value, dst);
    Stepped::Quiet
}

/// The same from memory at an address.
#[inline(always)]
pub fn word_onto_register<B: Bus>(
    executor: &mut Executor<B>,
    op: Op2,
    at: u16,
    dst: u8,
    next: u16,
) -> Stepped
    ensures { EndsStep (two op true (Absolute at) (Reg dst) executor.old.regs next)
        executor.old result executor.new }
{
    let Some(value) = load_at_hand(executor, true, at) else {
        return Stepped::Answered(word_near(executor, op, at, dst, next));
    };
    executor.set_pc(next);
    onto_any_called(executor, op, value, dst);
    Stepped::Quiet
}

/// The same of an instruction whose first word ends at `after`.
#[inline(always)]
pub fn absolute_onto_register<B: Bus>(
    executor: &mut Executor<B>,
    op: Op2,
    at: u16,
    dst: u8,
    after: u16,
    next: u16,
) -> Stepped
    ensures { EndsStep (two op true (Absolute at) (Reg dst) (at_pc executor.old.regs after) next)
        executor.old result executor.new }
{
    executor.set_pc(after);
    word_onto_register(executor, op, at, dst, next)
}

/// The same from memory at a register plus `x`.
#[inline(always)]
pub fn indexed_onto_register<B: Bus>(
    executor: &mut Executor<B>,
    op: Op2,
    base: u8,
    x: u16,
    dst: u8,
    after: u16,
    next: u16,
) -> Stepped
    ensures { EndsStep
        (two op true (Indexed base x) (Reg dst) (at_pc executor.old.regs after) next)
        executor.old result executor.new }
{
    executor.set_pc(after);
    let at = executor.register(base).wrapping_add(x);
    word_onto_register(executor, op, at, dst, next)
}

/// The same from memory at a register.
#[inline(always)]
pub fn indirect_onto_register<B: Bus>(
    executor: &mut Executor<B>,
    op: Op2,
    src: u8,
    dst: u8,
    next: u16,
) -> Stepped
    ensures { EndsStep (two op true (Indirect src) (Reg dst) (at_pc executor.old.regs next) next)
        executor.old result executor.new }
{
    executor.set_pc(next);
    let at = executor.register(src);
    word_onto_register(executor, op, at, dst, next)
}

/// An operation on words from a register onto a register.
#[inline(always)]
pub fn register_onto_register<B: Bus>(
    executor: &mut Executor<B>,
    op: Op2,
    src: u8,
    dst: u8,
    next: u16,
) -> Stepped
    ensures { EndsStep (two op true (Reg src) (Reg dst) (at_pc executor.old.regs next) next)
        executor.old result executor.new }
{
    executor.set_pc(next);
    let value = executor.operand(true, src);
    executor.set_pc(next);
    onto_any(executor, op, value, dst);
    Stepped::Quiet
}

/// The same from a constant.
#[inline(always)]
pub fn constant_onto_register<B: Bus>(
    executor: &mut Executor<B>,
    op: Op2,
    value: u16,
    dst: u8,
    next: u16,
) -> Stepped
    ensures { EndsStep (two op true (Const value) (Reg dst) (at_pc executor.old.regs next) next)
        executor.old result executor.new }
{
    executor.set_pc(next);
    let value = cut(true, value);
    executor.set_pc(next);
    onto_any(executor, op, value, dst);
    Stepped::Quiet
}

/// An operation on words from a register onto memory at an address.
#[inline(always)]
pub fn register_onto_absolute<B: Bus>(
    executor: &mut Executor<B>,
    op: Op2,
    src: u8,
    at: u16,
    after: u16,
    next: u16,
) -> Stepped
    ensures { EndsStep (two op true (Reg src) (Absolute at) (at_pc executor.old.regs after) next)
        executor.old result executor.new }
{
    executor.set_pc(after);
    let value = executor.operand(true, src);
    executor.set_pc(next);
    on_word(executor, op, at, value)
}

/// The same at a register plus `x`.
#[inline(always)]
pub fn register_onto_indexed<B: Bus>(
    executor: &mut Executor<B>,
    op: Op2,
    src: u8,
    base: u8,
    x: u16,
    after: u16,
    next: u16,
) -> Stepped
    ensures { EndsStep
        (two op true (Reg src) (Indexed base x) (at_pc executor.old.regs after) next)
        executor.old result executor.new }
{
    executor.set_pc(after);
    let value = executor.operand(true, src);
    executor.set_pc(next);
    let at = executor.register(base).wrapping_add(x);
    on_word(executor, op, at, value)
}

/// An operation on words from memory at an address onto memory at another.
#[inline(always)]
pub fn word_onto_absolute<B: Bus>(
    executor: &mut Executor<B>,
    op: Op2,
    from: u16,
    at: u16,
    next: u16,
) -> Stepped
    ensures { EndsStep (two op true (Absolute from) (Absolute at) executor.old.regs next)
        executor.old result executor.new }
{
    let Some(value) = load_at_hand(executor, true, from) else {
        let (from, to) = (Operand::Absolute(from), Operand::Absolute(at));
        return Stepped::Answered(two_near(executor, op, true, from, to, next));
    };
    executor.set_pc(next);
    on_word(executor, op, at, value)
}

/// The same onto memory at a register plus `z`.
#[inline(always)]
pub fn word_onto_indexed<B: Bus>(
    executor: &mut Executor<B>,
    op: Op2,
    from: u16,
    base: u8,
    z: u16,
    next: u16,
) -> Stepped
    ensures { EndsStep (two op true (Absolute from) (Indexed base z) executor.old.regs next)
        executor.old result executor.new }
{
    let Some(value) = load_at_hand(executor, true, from) else {
        let (from, to) = (Operand::Absolute(from), Operand::Indexed(base, z));
        return Stepped::Answered(two_near(executor, op, true, from, to, next));
    };
    executor.set_pc(next);
    let at = executor.register(base).wrapping_add(z);
    on_word(executor, op, at, value)
}

/// Pushes a word, and moves PC.
#[inline(always)]
fn push_word<B: Bus>(executor: &mut Executor<B>, value: u16, pc: u16) -> Stepped
    ensures { EndsStep (pushed true value pc executor.old.regs) executor.old result executor.new }
{
    let lowered = executor.register(SP).wrapping_sub(2);
    executor.set_word(SP, lowered);
    let at = executor.register(SP);
    executor.set_pc(pc);
    store_last(executor, true, at, value)
}

/// PUSH of a constant; `next` is the address after it.
#[inline(always)]
pub fn push_constant<B: Bus>(executor: &mut Executor<B>, value: u16, next: u16) -> Stepped
    ensures { EndsStep (one Push true (Const value) (at_pc executor.old.regs next) next)
        executor.old result executor.new }
{
    executor.set_pc(next);
    let value = cut(true, value);
    push_word(executor, value, next)
}

/// PUSH of the extension word `x`.
#[inline(always)]
pub fn push_immediate<B: Bus>(executor: &mut Executor<B>, x: u16, after: u16, next: u16) -> Stepped
    ensures { EndsStep (one Push true (Immediate x) (at_pc executor.old.regs after) next)
        executor.old result executor.new }
{
    executor.set_pc(after);
    let value = cut(true, x);
    push_word(executor, value, next)
}

/// PUSH of the word at a place.
#[inline(always)]
fn push_from<B: Bus>(executor: &mut Executor<B>, from: u16, next: u16) -> Stepped
    ensures { EndsStep (one Push true (Absolute from) executor.old.regs next) executor.old result
        executor.new }
{
    let Some(value) = load_at_hand(executor, true, from) else {
        let answer = one(executor, Op1::Push, true, Operand::Absolute(from), next);
        return Stepped::Answered(answer);
    };
    push_word(executor, value, next)
}

/// PUSH of the word at an address.
#[inline(always)]
pub fn push_absolute<B: Bus>(
    executor: &mut Executor<B>,
    from: u16,
    after: u16,
    next: u16,
) -> Stepped
    ensures { EndsStep (one Push true (Absolute from) (at_pc executor.old.regs after) next)
        executor.old result executor.new }
{
    executor.set_pc(after);
    push_from(executor, from, next)
}

/// The same at a register plus `x`.
#[inline(always)]
pub fn push_indexed<B: Bus>(
    executor: &mut Executor<B>,
    base: u8,
    x: u16,
    after: u16,
    next: u16,
) -> Stepped
    ensures { EndsStep (one Push true (Indexed base x) (at_pc executor.old.regs after) next)
        executor.old result executor.new }
{
    executor.set_pc(after);
    let from = executor.register(base).wrapping_add(x);
    push_from(executor, from, next)
}

/// CALL of the address `x`.
#[inline(always)]
pub fn call_immediate<B: Bus>(executor: &mut Executor<B>, x: u16, after: u16, next: u16) -> Stepped
    ensures { EndsStep (one Call true (Immediate x) (at_pc executor.old.regs after) next)
        executor.old result executor.new }
{
    executor.set_pc(after);
    let target = cut(true, x);
    push_word(executor, next, target & !1)
}

/// A calculation on a register, which takes the result.
#[inline(always)]
fn in_register<B: Bus>(executor: &mut Executor<B>, kind: Calc, r: u8, next: u16) -> Stepped
    requires { IsTrue (has_width kind true) }
    ensures { EndsStep (in_place kind true (Reg r) executor.old.regs next) executor.old result
        executor.new }
{
    let old = executor.operand(true, r);
    let value = calculated(kind, true, old, 0, executor.flags());
    executor.set_pc(next);
    into_any(executor, r, value);
    Stepped::Quiet
}

/// An operation on one operand, which is a register; `next` is the address after it.
#[inline(always)]
pub fn on_register<B: Bus>(executor: &mut Executor<B>, op: Op1, arg: u8, next: u16) -> Stepped
    ensures { EndsStep (one op true (Reg arg) (at_pc executor.old.regs next) next)
        executor.old result executor.new }
{
    executor.set_pc(next);
    match op {
        Op1::Rrc => in_register(executor, Calc::Rrc, arg, next),
        Op1::Swpb => in_register(executor, Calc::Swap, arg, next),
        Op1::Rra => in_register(executor, Calc::Rra, arg, next),
        Op1::Sxt => in_register(executor, Calc::Extend, arg, next),
        Op1::Push => {
            let value = executor.operand(true, arg);
            push_word(executor, value, next)
        }
        Op1::Call => {
            let target = executor.operand(true, arg);
            push_word(executor, next, target & !1)
        }
    }
}
