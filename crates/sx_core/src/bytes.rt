//! Operations on bytes, with operands and places named.
//!
//! A register takes a byte as a word whose high byte is 0. A place that is at hand is read or
//! written with no other test; where it isn't, the long way takes the instruction. The clauses name
//! the rows of the instructions, as those of the long way do.

ghost use Rattle.std.specs.Prelude.{◌≡◌, ◌<◌, true, false, None};
ghost use Rattle.sx_isa.specs.declared.instruction.Operand.TheVariants.{Reg, Const, Increment};
ghost use Rattle.sx_isa.specs.declared.instruction.Operand.TheVariants.{Immediate, Indexed};
ghost use Rattle.sx_isa.specs.declared.instruction.Operand.TheVariants.{Indirect, Absolute};
ghost use Rattle.sx_isa.specs.Extending.{extended};
ghost use Rattle.sx_alu.specs.Table.{limit};
ghost use Rattle.sx_rules.specs.declared.access.Access.TheVariants.{Read, Write};
ghost use Rattle.spec_machine.specs.Registers.{at_pc, onward};
ghost use Rattle.spec_machine.specs.Rows.{row, two, one, onto, on_memory, writes};
ghost use Rattle.spec_machine.specs.Run.{may_at, device_of};
ghost use Rattle.sx_executor.specs.Machine.{RunsPlan};
ghost use Rattle.sx_executor.specs.Shortcuts.{byte_single_of, byte_double_of, is_general};
ghost use Rattle.sx_executor.specs.Shortcuts.{byte_single_is_fit, byte_double_is_fit};
ghost use Rattle.sx_core.specs.Quickly.{RunsQuietly};

use crate::at_hand::{load_at_hand, two_near};
use crate::one_operand::one;
use crate::two_operands::{computed_as, on_memory, reads, writes};
use sx_bus::Bus;
use sx_executor::registers::cut;
use sx_executor::{ByteDouble, ByteSingle, Executor};
use sx_isa::{Op1, Op2, Operand};
use sx_rules::Violation;

/// An operation onto a general register.
#[inline(always)]
fn onto_register<B: Bus>(
    executor: &mut Executor<B>,
    op: Op2,
    src: u16,
    r: u8,
) -> Result<(), Violation>
    requires src { src < limit false }
    requires general { is_general r ≡ true }
    ensures { RunsPlan (onto op false (Reg r) src executor.old.regs) executor.old result
        executor.new }
{
    let old = executor.operand(false, r);
    let value = computed_as::<false>(op, src, old, executor.flags());
    executor.set_flags(value.1);
    if writes(op) {
        executor.set_general(r, value.0);
    }
    Ok(())
}

/// An operation from a register onto a general register; `next` is the address after the
/// instruction.
#[inline(always)]
fn registers<B: Bus>(
    executor: &mut Executor<B>,
    op: Op2,
    src: u8,
    dst: u8,
    next: u16,
) -> Result<(), Violation>
    requires { is_general dst ≡ true }
    ensures { RunsPlan (two op false (Reg src) (Reg dst) (at_pc executor.old.regs next) next)
        executor.old result executor.new }
{
    executor.set_pc(next);
    let value = executor.operand(false, src);
    executor.set_pc(next);
    onto_register(executor, op, value, dst)
}

/// The same from a constant. This code stays out of the way of what most steps do.
#[cold]
#[inline(never)]
pub fn byte_constant<B: Bus>(
    executor: &mut Executor<B>,
    op: Op2,
    value: u16,
    dst: u8,
    next: u16,
) -> Result<(), Violation>
    requires { is_general dst ≡ true }
    ensures { RunsPlan (two op false (Const value) (Reg dst) (at_pc executor.old.regs next) next)
        executor.old result executor.new }
{
    executor.set_pc(next);
    let value = cut(false, value);
    executor.set_pc(next);
    onto_register(executor, op, value, dst)
}

/// The same from the extension word `x`. PC goes to `after`, the address after the first word,
/// before operands are read.
#[inline(always)]
fn immediate_onto_register<B: Bus>(
    executor: &mut Executor<B>,
    op: Op2,
    x: u16,
    dst: u8,
    after: u16,
    next: u16,
) -> Result<(), Violation>
    requires { is_general dst ≡ true }
    ensures { RunsPlan (two op false (Immediate x) (Reg dst) (at_pc executor.old.regs after) next)
        executor.old result executor.new }
{
    executor.set_pc(after);
    let value = cut(false, x);
    executor.set_pc(next);
    onto_register(executor, op, value, dst)
}

/// The same from memory at an address.
#[inline(always)]
fn byte_onto_register<B: Bus>(
    executor: &mut Executor<B>,
    op: Op2,
    at: u16,
    dst: u8,
    next: u16,
) -> Result<(), Violation>
    requires { is_general dst ≡ true }
    ensures { RunsPlan (two op false (Absolute at) (Reg dst) executor.old.regs next) executor.old
        result executor.new }
{
    let Some(value) = load_at_hand(executor, false, at) else {
        let (from, to) = (Operand::Absolute(at), Operand::Reg(dst));
        return two_near(executor, op, false, from, to, next);
    };
    executor.set_pc(next);
    onto_register(executor, op, value, dst)
}

/// The same of an instruction whose first word ends at `after`.
#[inline(always)]
fn absolute_onto_register<B: Bus>(
    executor: &mut Executor<B>,
    op: Op2,
    at: u16,
    dst: u8,
    after: u16,
    next: u16,
) -> Result<(), Violation>
    requires { is_general dst ≡ true }
    ensures { RunsPlan (two op false (Absolute at) (Reg dst) (at_pc executor.old.regs after) next)
        executor.old result executor.new }
{
    executor.set_pc(after);
    byte_onto_register(executor, op, at, dst, next)
}

/// The same from memory at a register plus `x`.
#[inline(always)]
fn indexed_onto_register<B: Bus>(
    executor: &mut Executor<B>,
    op: Op2,
    base: u8,
    x: u16,
    dst: u8,
    after: u16,
    next: u16,
) -> Result<(), Violation>
    requires { is_general dst ≡ true }
    ensures { RunsPlan
        (two op false (Indexed base x) (Reg dst) (at_pc executor.old.regs after) next) executor.old
        result executor.new }
{
    executor.set_pc(after);
    let at = executor.register(base).wrapping_add(x);
    byte_onto_register(executor, op, at, dst, next)
}

/// The same from memory at a register.
#[inline(always)]
fn indirect_onto_register<B: Bus>(
    executor: &mut Executor<B>,
    op: Op2,
    src: u8,
    dst: u8,
    next: u16,
) -> Result<(), Violation>
    requires { is_general dst ≡ true }
    ensures { RunsPlan (two op false (Indirect src) (Reg dst) (at_pc executor.old.regs next) next)
        executor.old result executor.new }
{
    executor.set_pc(next);
    let at = executor.register(src);
    byte_onto_register(executor, op, at, dst, next)
}

/// The same from memory at a register, which goes on.
#[inline(always)]
fn increment_onto_register<B: Bus>(
    executor: &mut Executor<B>,
    op: Op2,
    src: u8,
    dst: u8,
    next: u16,
) -> Result<(), Violation>
    requires { is_general dst ≡ true }
    ensures { RunsPlan (two op false (Increment src) (Reg dst) (at_pc executor.old.regs next) next)
        executor.old result executor.new }
{
    executor.set_pc(next);
    let at = executor.register(src);
    let Some(value) = load_at_hand(executor, false, at) else {
        let (from, to) = (Operand::Increment(src), Operand::Reg(dst));
        return two_near(executor, op, false, from, to, next);
    };
    executor.increment(false, src);
    executor.set_pc(next);
    onto_register(executor, op, value, dst)
}

/// An operation with one operand, which is a register.
#[inline(always)]
fn on_register<B: Bus>(
    executor: &mut Executor<B>,
    op: Op1,
    arg: u8,
    next: u16,
) -> Result<(), Violation>
    ensures { RunsPlan (one op false (Reg arg) (at_pc executor.old.regs next) next) executor.old
        result executor.new }
{
    executor.set_pc(next);
    one(executor, op, false, Operand::Reg(arg), next)
}

/// An operation on a byte of memory that the running code may read and write and that is no
/// device's: nothing is asked of the place again.
#[inline(always)]
fn on_byte_at_hand<B: Bus>(executor: &mut Executor<B>, op: Op2, at: u16, src: u16)
    requires read { may_at false executor.old.sections.live executor.old.own Read at ≡ true }
    requires write { may_at false executor.old.sections.live executor.old.own Write at ≡ true }
    requires memory { device_of executor.old.devices at ≡ None }
    requires src { src < limit false }
    ensures { RunsQuietly (on_memory op false at src executor.old.regs) executor.old executor.new }
{
    let flags = executor.flags();
    if reads(op) {
        let dst = executor.read(false, at);
        let value = computed_as::<false>(op, src, dst, flags);
        if writes(op) {
            executor.write(false, at, value.0);
        }
        executor.set_flags(value.1);
    } else {
        let value = computed_as::<false>(op, src, 0, flags);
        if writes(op) {
            executor.write(false, at, value.0);
        }
        executor.set_flags(value.1);
    }
}

/// A comparison with a byte of memory that the running code may read and that is no device's, or a
/// test of its bits.
#[inline(always)]
fn test_of_byte<B: Bus>(executor: &mut Executor<B>, op: Op2, at: u16, src: u16)
    requires test { writes op ≡ false }
    requires read { may_at false executor.old.sections.live executor.old.own Read at ≡ true }
    requires memory { device_of executor.old.devices at ≡ None }
    requires src { src < limit false }
    ensures { RunsQuietly (on_memory op false at src executor.old.regs) executor.old executor.new }
{
    let dst = executor.read(false, at);
    let value = computed_as::<false>(op, src, dst, executor.flags());
    executor.set_flags(value.1);
}

/// An operation on a byte of memory where a section may refuse it, or a device be there. A comparison
/// with what all code may read needs no look at the sections.
#[inline(never)]
fn on_byte_near<B: Bus>(
    executor: &mut Executor<B>,
    op: Op2,
    at: u16,
    src: u16,
) -> Result<(), Violation>
    requires { src < limit false }
    ensures { RunsPlan (on_memory op false at src executor.old.regs) executor.old result
        executor.new }
{
    if !writes(op) && executor.is_readable(at) {
        test_of_byte(executor, op, at, src);
        return Ok(());
    }
    on_memory(executor, op, false, at, src)
}

/// An operation on a byte of memory.
#[inline(always)]
fn on_byte<B: Bus>(executor: &mut Executor<B>, op: Op2, at: u16, src: u16) -> Result<(), Violation>
    requires { src < limit false }
    ensures { RunsPlan (on_memory op false at src executor.old.regs) executor.old result
        executor.new }
{
    if executor.is_at_hand(at) {
        on_byte_at_hand(executor, op, at, src);
        return Ok(());
    }
    on_byte_near(executor, op, at, src)
}

/// An operation from a register onto memory at an address.
#[inline(always)]
fn register_onto_absolute<B: Bus>(
    executor: &mut Executor<B>,
    op: Op2,
    src: u8,
    at: u16,
    after: u16,
    next: u16,
) -> Result<(), Violation>
    ensures { RunsPlan (two op false (Reg src) (Absolute at) (at_pc executor.old.regs after) next)
        executor.old result executor.new }
{
    executor.set_pc(after);
    let value = executor.operand(false, src);
    executor.set_pc(next);
    on_byte(executor, op, at, value)
}

/// The same at a register plus `x`.
#[inline(always)]
fn register_onto_indexed<B: Bus>(
    executor: &mut Executor<B>,
    op: Op2,
    src: u8,
    base: u8,
    x: u16,
    after: u16,
    next: u16,
) -> Result<(), Violation>
    ensures { RunsPlan
        (two op false (Reg src) (Indexed base x) (at_pc executor.old.regs after) next) executor.old
        result executor.new }
{
    executor.set_pc(after);
    let value = executor.operand(false, src);
    executor.set_pc(next);
    let at = executor.register(base).wrapping_add(x);
    on_byte(executor, op, at, value)
}

/// An operation from a constant onto memory at an address.
#[inline(never)]
pub fn constant_onto_absolute<B: Bus>(
    executor: &mut Executor<B>,
    op: Op2,
    value: u16,
    at: u16,
    pc: u16,
) -> Result<(), Violation>
    ensures { RunsPlan (two op false (Const value) (Absolute at)
        (at_pc executor.old.regs (onward pc 2)) (onward pc 4)) executor.old result executor.new }
{
    executor.set_pc(pc.wrapping_add(2));
    let value = cut(false, value);
    executor.set_pc(pc.wrapping_add(4));
    on_byte(executor, op, at, value)
}

/// The same at a register plus `x`.
#[inline(never)]
pub fn constant_onto_indexed<B: Bus>(
    executor: &mut Executor<B>,
    op: Op2,
    value: u16,
    base: u8,
    x: u16,
    pc: u16,
) -> Result<(), Violation>
    ensures { RunsPlan (two op false (Const value) (Indexed base x)
        (at_pc executor.old.regs (onward pc 2)) (onward pc 4)) executor.old result executor.new }
{
    executor.set_pc(pc.wrapping_add(2));
    let value = cut(false, value);
    executor.set_pc(pc.wrapping_add(4));
    let at = executor.register(base).wrapping_add(x);
    on_byte(executor, op, at, value)
}

/// Another instruction without an extension word; `next` is the address after it. Its code stays
/// out of the way of what most steps do, as does that of those with one.
#[cold]
#[inline(never)]
pub fn byte_single<B: Bus>(
    executor: &mut Executor<B>,
    form: ByteSingle,
    next: u16,
) -> Result<(), Violation>
    requires { byte_single_is_fit form ≡ true }
    ensures { RunsPlan (row (byte_single_of form) (at_pc executor.old.regs next) next) executor.old
        result executor.new }
{
    match form {
        ByteSingle::Registers { op, src, dst } => registers(executor, op, src, dst, next),
        ByteSingle::FromIncrement { op, src, dst } => {
            increment_onto_register(executor, op, src, dst, next)
        }
        ByteSingle::FromIndirect { op, src, dst } => {
            indirect_onto_register(executor, op, src, dst, next)
        }
        ByteSingle::OnRegister { op, arg } => on_register(executor, op, arg, next),
    }
}

/// An instruction with the extension word `x`, which is at `after`; `next` is the address after
/// it.
#[cold]
#[inline(never)]
pub fn byte_double<B: Bus>(
    executor: &mut Executor<B>,
    form: ByteDouble,
    x: u16,
    after: u16,
    next: u16,
) -> Result<(), Violation>
    requires { byte_double_is_fit form ≡ true }
    ensures { RunsPlan
        (row (extended (byte_double_of form) x 0) (at_pc executor.old.regs after) next)
        executor.old result executor.new }
{
    match form {
        ByteDouble::FromImmediate { op, dst } => {
            immediate_onto_register(executor, op, x, dst, after, next)
        }
        ByteDouble::FromAbsolute { op, dst } => {
            absolute_onto_register(executor, op, x, dst, after, next)
        }
        ByteDouble::FromIndexed { op, base, dst } => {
            indexed_onto_register(executor, op, base, x, dst, after, next)
        }
        ByteDouble::OntoAbsolute { op, src } => {
            register_onto_absolute(executor, op, src, x, after, next)
        }
        ByteDouble::OntoIndexed { op, src, base } => {
            register_onto_indexed(executor, op, src, base, x, after, next)
        }
    }
}
