//! The short way of a step. It is taken where a shortcut of the first word is kept for PC.
//!
//! A shortcut's form leads to code of its own, which is short: it reads and writes registers, or a
//! word of memory that is at hand, where one test is all that is asked. The clauses name the same
//! rows as those of the long way.

ghost use Rattle.std.specs.Prelude.{◌≡◌, ◌<◌, ℕ, true, false, None, IfSome, IsTrue, List};
ghost use Rattle.sx_isa.specs.Reading.{length_of};
ghost use Rattle.sx_isa.specs.Extending.{extended};
ghost use Rattle.sx_isa.specs.declared.instruction.Operand.TheVariants.{Reg, Const, Indexed};
ghost use Rattle.sx_isa.specs.declared.instruction.Operand.TheVariants.{Absolute};
ghost use Rattle.sx_alu.specs.Table.{limit};
ghost use Rattle.sx_rules.specs.declared.access.Access.TheVariants.{Read, Write};
ghost use Rattle.spec_machine.specs.Registers.{onward, at_pc, reg};
ghost use Rattle.spec_machine.specs.Rows.{row, with_words, program, jump, two, onto, on_memory};
ghost use Rattle.spec_machine.specs.Rows.{into_register, writes, computed};
ghost use Rattle.spec_machine.specs.Run.{may_at, device_of};
ghost use Rattle.spec_machine.specs.Answers.{followed};
ghost use Rattle.sx_executor.specs.Machine.{ran, RunsPlan};
ghost use Rattle.sx_executor.specs.Occupancy.{IsAhead};
ghost use Rattle.sx_executor.specs.Shortcuts.{instruction_of, words_of, is_general};
ghost use Rattle.sx_executor.specs.Shortcuts.{single_of, double_of};
ghost use Rattle.sx_executor.specs.Shortcuts.{byte_single_of, byte_double_of};
ghost use Rattle.sx_executor.specs.Shortcuts.{byte_single_is_fit, byte_double_is_fit};
ghost use Rattle.sx_core.specs.Quickly.{RunsQuietly, EndsStep, MayEndStep};

use crate::at_hand::{
    call_immediate, constant_onto_register, immediate_onto_register, load_absolute, load_indexed,
    move_byte, move_immediate, on_register, pop, push_absolute, push_constant, push_immediate,
    store_absolute, store_indexed,
};
use crate::byte_store::{store_byte, store_of};
use crate::bytes::{byte_constant, byte_double, byte_single};
use crate::called::step_called;
use crate::from_memory::{FromMemory, add_absolute, add_indexed, from_memory, from_memory_of};
use crate::increment::{IncrementOnto, increment_of, increment_onto};
use crate::jump::jump_quietly;
use crate::two_operands::{computed_as, on_memory, reads, writes};
use sx_alu::StatusBits;
use sx_bus::Bus;
use sx_executor::registers::{PC, cut};
use sx_executor::{ByteDouble, ByteSingle, Double, Executor, Form, Shortcut, Single};
use sx_isa::{Op1, Op2};
use sx_rules::Violation;

/// How a step ended.
pub enum Stepped {
    /// The instruction was done, and touched no device.
    Quiet,
    /// It was done or ended in this violation, and may have touched devices.
    Answered(Result<(), Violation>),
}

/// A jump; `next` is the address after it.
#[inline(always)]
fn jump_quickly<B: Bus>(
    executor: &mut Executor<B>,
    condition: u8,
    offset: i16,
    next: u16,
) -> Stepped
    ensures { EndsStep (jump condition offset (at_pc executor.old.regs next) next) executor.old
        result executor.new }
{
    executor.set_pc(next);
    jump_quietly(executor, condition, offset, next);
    Stepped::Quiet
}

/// The end of an operation on a general register.
#[inline(always)]
fn into_general<B: Bus>(executor: &mut Executor<B>, r: u8, value: (u16, StatusBits))
    requires { is_general r ≡ true }
    ensures { RunsQuietly (into_register true r value executor.old.regs) executor.old executor.new }
{
    executor.set_flags(value.1);
    executor.set_general(r, value.0);
}

/// The value of an operation on words that keeps the flags: MOV, BIC and BIS.
#[inline(always)]
fn value_alone(op: Op2, src: u16, dst: u16, flags: StatusBits) -> Option<u16>
    ensures value { IfSome result (λ v. computed op true src dst flags ≡ (v, flags)) }
    ensures written { IfSome result (λ v. writes op ≡ true) }
{
    match op {
        Op2::Mov => Some(src),
        Op2::Bic => Some(dst & !src),
        Op2::Bis => Some(dst | src),
        _ => None,
    }
}

/// An operation on words onto a general register. What keeps the flags has a way of its own, on
/// which the compiler drops their write; of the old flags the others need the carry alone. CMP and
/// BIT keep the register.
#[inline(always)]
pub fn onto_general<B: Bus>(executor: &mut Executor<B>, op: Op2, src: u16, r: u8)
    requires src { src < limit true }
    requires general { is_general r ≡ true }
    ensures { RunsQuietly (onto op true (Reg r) src executor.old.regs) executor.old executor.new }
{
    let old = executor.general(r);
    let flags = executor.flags();
    if let Some(value) = value_alone(op, src, old, flags) {
        into_general(executor, r, (value, flags));
        return;
    }
    match op {
        Op2::Cmp => executor.set_flags(computed_as::<true>(Op2::Cmp, src, old, flags).1),
        Op2::Bit => executor.set_flags(computed_as::<true>(Op2::Bit, src, old, flags).1),
        _ => into_general(executor, r, computed_as::<true>(op, src, old, flags)),
    }
}

/// The same from a register; `next` is the address after the instruction.
#[inline(always)]
fn from_register<B: Bus>(
    executor: &mut Executor<B>,
    op: Op2,
    src: u8,
    dst: u8,
    next: u16,
) -> Stepped
    requires { is_general dst ≡ true }
    ensures { EndsStep (two op true (Reg src) (Reg dst) (at_pc executor.old.regs next) next)
        executor.old result executor.new }
{
    executor.set_pc(next);
    let value = executor.operand(true, src);
    executor.set_pc(next);
    onto_general(executor, op, value, dst);
    Stepped::Quiet
}

/// The same from a constant.
#[inline(always)]
fn from_constant<B: Bus>(
    executor: &mut Executor<B>,
    op: Op2,
    value: u16,
    dst: u8,
    next: u16,
) -> Stepped
    requires { is_general dst ≡ true }
    ensures { EndsStep (two op true (Const value) (Reg dst) (at_pc executor.old.regs next) next)
        executor.old result executor.new }
{
    executor.set_pc(next);
    let value = cut(true, value);
    executor.set_pc(next);
    onto_general(executor, op, value, dst);
    Stepped::Quiet
}

/// An operation on a word of memory that the running code may read and write and that is no
/// device's: nothing is asked of the place again.
#[inline(always)]
fn on_word_at_hand<B: Bus>(executor: &mut Executor<B>, op: Op2, at: u16, src: u16)
    requires read { may_at true executor.old.sections.live executor.old.own Read at ≡ true }
    requires write { may_at true executor.old.sections.live executor.old.own Write at ≡ true }
    requires memory { device_of executor.old.devices at ≡ None }
    requires src { src < limit true }
    ensures { RunsQuietly (on_memory op true at src executor.old.regs) executor.old executor.new }
{
    let flags = executor.flags();
    if reads(op) {
        let dst = executor.read(true, at);
        let value = computed_as::<true>(op, src, dst, flags);
        if writes(op) {
            executor.write(true, at, value.0);
        }
        executor.set_flags(value.1);
    } else {
        let value = computed_as::<true>(op, src, 0, flags);
        if writes(op) {
            executor.write(true, at, value.0);
        }
        executor.set_flags(value.1);
    }
}

/// An operation on a word of memory.
#[inline(always)]
pub fn on_word<B: Bus>(executor: &mut Executor<B>, op: Op2, at: u16, src: u16) -> Stepped
    requires { src < limit true }
    ensures { EndsStep (on_memory op true at src executor.old.regs) executor.old result
        executor.new }
{
    if executor.is_at_hand(at) {
        on_word_at_hand(executor, op, at, src);
        return Stepped::Quiet;
    }
    Stepped::Answered(on_word_near(executor, op, at, src))
}

/// A comparison with a word of memory that the running code may read and that is no device's, or a
/// test of its bits.
#[inline(always)]
fn test_of_word<B: Bus>(executor: &mut Executor<B>, op: Op2, at: u16, src: u16)
    requires test { writes op ≡ false }
    requires read { may_at true executor.old.sections.live executor.old.own Read at ≡ true }
    requires memory { device_of executor.old.devices at ≡ None }
    requires src { src < limit true }
    ensures { RunsQuietly (on_memory op true at src executor.old.regs) executor.old executor.new }
{
    let dst = executor.read(true, at);
    let value = computed_as::<true>(op, src, dst, executor.flags());
    executor.set_flags(value.1);
}

/// The same where a section may refuse it, or a device be there. A comparison with what all code may
/// read needs no look at the sections. This code stays out of the way of what most steps do.
#[inline(never)]
fn on_word_near<B: Bus>(
    executor: &mut Executor<B>,
    op: Op2,
    at: u16,
    src: u16,
) -> Result<(), Violation>
    requires { src < limit true }
    ensures { RunsPlan (on_memory op true at src executor.old.regs) executor.old result
        executor.new }
{
    if !writes(op) && executor.is_readable(at) {
        test_of_word(executor, op, at, src);
        return Ok(());
    }
    on_memory(executor, op, true, at, src)
}

/// Fetches the extension word of the instruction of two words at `pc`. Where the words after PC are
/// known to be extension words, nothing is asked.
#[inline(always)]
#[tactic(auto, unfolding(sx_isa::specs::Reading::length_of))]
pub fn fetch_second<B: Bus, const AHEAD: bool>(
    executor: &Executor<B>,
    shortcut: &Shortcut,
    pc: u16,
) -> Result<u16, Violation>
    requires form { words_of shortcut.now.form ≡ 2 }
    requires ahead { IsTrue AHEAD
        → IsAhead executor.now.sections.live executor.now.devices executor.now.own pc }
    ensures { (regs : List ℕ)
        → ran (with_words (length_of shortcut.now.first) shortcut.now.first regs pc) executor.now
        ≡ followed result (λ word. ran (row
        (extended (instruction_of shortcut.now.form) word 0) regs (onward pc 4)) executor.now) }
{
    shortcut.reads_on();
    let at = pc.wrapping_add(2);
    if AHEAD {
        return Ok(executor.fetch_known(at));
    }
    executor.fetch(at)
}

/// An operation on words from a constant onto memory at an address, of the instruction at `pc`.
#[inline(always)]
fn onto_absolute<B: Bus>(
    executor: &mut Executor<B>,
    op: Op2,
    value: u16,
    at: u16,
    pc: u16,
) -> Stepped
    ensures { EndsStep (two op true (Const value) (Absolute at)
        (at_pc executor.old.regs (onward pc 2)) (onward pc 4)) executor.old result executor.new }
{
    executor.set_pc(pc.wrapping_add(2));
    let value = cut(true, value);
    executor.set_pc(pc.wrapping_add(4));
    on_word(executor, op, at, value)
}

/// The same at a register plus `x`.
#[inline(always)]
fn onto_indexed<B: Bus>(
    executor: &mut Executor<B>,
    op: Op2,
    value: u16,
    base: u8,
    x: u16,
    pc: u16,
) -> Stepped
    ensures { EndsStep (two op true (Const value) (Indexed base x)
        (at_pc executor.old.regs (onward pc 2)) (onward pc 4)) executor.old result executor.new }
{
    executor.set_pc(pc.wrapping_add(2));
    let value = cut(true, value);
    executor.set_pc(pc.wrapping_add(4));
    let at = executor.register(base).wrapping_add(x);
    on_word(executor, op, at, value)
}

/// An instruction of another form without an extension word, if it is done here; `next` is the
/// address after it.
#[inline]
fn without_extension<B: Bus, const CALLER: u8>(
    executor: &mut Executor<B>,
    form: Single,
    next: u16,
) -> Option<Stepped>
    ensures { MayEndStep (row (single_of form) (at_pc executor.old.regs next) next) executor.old
        result executor.new }
{
    match form {
        Single::FromIncrement {
            op: Op2::Mov,
            src,
            dst,
        } => Some(pop(executor, src, dst, next)),
        Single::OnRegister { op, arg } => Some(on_register(executor, op, arg, next)),
        Single::OnConstant {
            op: Op1::Push,
            value,
        } => Some(push_constant(executor, value, next)),
        _ => None,
    }
}

/// One with the extension word `x`, at `pc`, if it is done here.
#[inline]
fn with_extension<B: Bus, const CALLER: u8>(
    executor: &mut Executor<B>,
    form: Double,
    x: u16,
    pc: u16,
) -> Option<Stepped>
    ensures { MayEndStep (row (extended (double_of form) x 0)
        (at_pc executor.old.regs (onward pc 2)) (onward pc 4)) executor.old result executor.new }
{
    let after = pc.wrapping_add(2);
    let next = pc.wrapping_add(4);
    match form {
        Double::FromImmediate { op: Op2::Mov, dst } => {
            Some(move_immediate(executor, x, dst, after, next))
        }
        Double::FromImmediate { op, dst } => {
            Some(immediate_onto_register(executor, op, x, dst, after, next))
        }
        Double::FromAbsolute { op: Op2::Mov, dst } => {
            Some(load_absolute(executor, x, dst, after, next))
        }
        Double::FromIndexed {
            op: Op2::Mov,
            base,
            dst,
        } => Some(load_indexed(executor, base, x, dst, after, next)),
        Double::RegisterOntoAbsolute { op: Op2::Mov, src } => {
            Some(store_absolute(executor, src, x, after, next))
        }
        Double::RegisterOntoIndexed {
            op: Op2::Mov,
            src,
            base,
        } => Some(store_indexed(executor, src, base, x, after, next)),
        Double::BytesOntoIndexed {
            op: Op2::Mov,
            src,
            base,
        } => Some(move_byte(executor, src, base, x, after, next)),
        Double::OnImmediate { op: Op1::Call } => Some(call_immediate(executor, x, after, next)),
        Double::OnImmediate { op: Op1::Push } => Some(push_immediate(executor, x, after, next)),
        Double::OnAbsolute { op: Op1::Push } => Some(push_absolute(executor, x, after, next)),
        _ => {
            if let Some(FromMemory { op, base, dst }) = from_memory_of(form) {
                return Some(from_memory(executor, op, base, x, dst, after, next));
            }
            let IncrementOnto { op, src, base } = increment_of(form)?;
            Some(increment_onto(executor, op, src, base, x, after, next))
        }
    }
}

/// An operation on bytes from a constant onto a general register, which is a call; `next` is the
/// address after the instruction.
#[inline(always)]
fn from_byte_constant<B: Bus>(
    executor: &mut Executor<B>,
    op: Op2,
    value: u16,
    dst: u8,
    next: u16,
) -> Stepped
    requires { is_general dst ≡ true }
    ensures { EndsStep (two op false (Const value) (Reg dst) (at_pc executor.old.regs next) next)
        executor.old result executor.new }
{
    Stepped::Answered(byte_constant(executor, op, value, dst, next))
}

/// Another instruction on bytes without an extension word, which is a call.
#[inline(always)]
fn without_byte_extension<B: Bus>(
    executor: &mut Executor<B>,
    form: ByteSingle,
    next: u16,
) -> Stepped
    requires { byte_single_is_fit form ≡ true }
    ensures { EndsStep (row (byte_single_of form) (at_pc executor.old.regs next) next) executor.old
        result executor.new }
{
    Stepped::Answered(byte_single(executor, form, next))
}

/// One with the extension word `x`, at `pc`: a store of a register's byte, or a call.
#[inline(always)]
fn with_byte_extension<B: Bus>(
    executor: &mut Executor<B>,
    form: ByteDouble,
    x: u16,
    pc: u16,
) -> Stepped
    requires { byte_double_is_fit form ≡ true }
    ensures { EndsStep (row (extended (byte_double_of form) x 0)
        (at_pc executor.old.regs (onward pc 2)) (onward pc 4)) executor.old result executor.new }
{
    let after = pc.wrapping_add(2);
    let next = pc.wrapping_add(4);
    match store_of(form) {
        Some(store) => store_byte(executor, store, x, after, next),
        None => Stepped::Answered(byte_double(executor, form, x, after, next)),
    }
}

/// Executes the instruction at PC with this first word as `step_plain` does, and says where it
/// knows that no device was touched. Each caller has a number, and so code of its own, which the
/// compiler puts into it. A caller that knows that the words after PC are extension words says so
/// by `AHEAD`, and then the code asks nothing of them.
#[inline]
pub fn step_quick<B: Bus, const CALLER: u8, const AHEAD: bool>(
    executor: &mut Executor<B>,
    first: u16,
) -> Stepped
    requires { IsTrue AHEAD → IsAhead executor.old.sections.live executor.old.devices
        executor.old.own (reg executor.old.regs 0) }
    ensures { EndsStep (program first executor.old.regs) executor.old result executor.new }
{
    match step_at_hand::<B, CALLER, AHEAD>(executor, first) {
        Some(stepped) => stepped,
        None => Stepped::Answered(step_called::<B, AHEAD>(executor, first)),
    }
}

/// The same if a shortcut of the first word is kept for PC and its code is here.
#[inline]
#[tactic(auto, unfolding(spec_machine::specs::Rows::program, sx_isa::specs::Reading::length_of))]
fn step_at_hand<B: Bus, const CALLER: u8, const AHEAD: bool>(
    executor: &mut Executor<B>,
    first: u16,
) -> Option<Stepped>
    requires { IsTrue AHEAD → IsAhead executor.old.sections.live executor.old.devices
        executor.old.own (reg executor.old.regs 0) }
    ensures { MayEndStep (program first executor.old.regs) executor.old result executor.new }
{
    let pc = executor.register(PC);
    let shortcut = executor.shortcut(pc);
    if shortcut.first != first {
        return None;
    }
    let next = pc.wrapping_add(2);
    match shortcut.form {
        Form::JumpNotEqual { offset } => Some(jump_quickly(executor, 0, offset, next)),
        Form::JumpEqual { offset } => Some(jump_quickly(executor, 1, offset, next)),
        Form::JumpNoCarry { offset } => Some(jump_quickly(executor, 2, offset, next)),
        Form::JumpCarry { offset } => Some(jump_quickly(executor, 3, offset, next)),
        Form::JumpNegative { offset } => Some(jump_quickly(executor, 4, offset, next)),
        Form::JumpGreater { offset } => Some(jump_quickly(executor, 5, offset, next)),
        Form::JumpLess { offset } => Some(jump_quickly(executor, 6, offset, next)),
        Form::JumpAlways { offset } => Some(jump_quickly(executor, 7, offset, next)),
        Form::Registers { op, src, dst } => Some(from_register(executor, op, src, dst, next)),
        Form::AddConstant { value, dst } => {
            Some(from_constant(executor, Op2::Add, value, dst, next))
        }
        Form::SubtractConstant { value, dst } => {
            Some(from_constant(executor, Op2::Sub, value, dst, next))
        }
        Form::CompareConstant { value, dst } => {
            Some(from_constant(executor, Op2::Cmp, value, dst, next))
        }
        Form::Constant { op, value, dst } => Some(from_constant(executor, op, value, dst, next)),
        // CLRC, with which compiled code begins each shift to the right, clears a bit of SR.
        Form::ConstantOntoSpecial {
            op: Op2::Bic,
            value,
            dst,
        } => Some(constant_onto_register(executor, Op2::Bic, value, dst, next)),
        Form::OntoIndexed { op, value, base } => match fetch_second::<B, AHEAD>(
            executor, shortcut, pc,
        ) {
            Ok(x) => Some(onto_indexed(executor, op, value, base, x, pc)),
            Err(violation) => Some(Stepped::Answered(Err(violation))),
        },
        Form::OntoAbsolute { op, value } => match fetch_second::<B, AHEAD>(executor, shortcut, pc) {
            Ok(at) => Some(onto_absolute(executor, op, value, at, pc)),
            Err(violation) => Some(Stepped::Answered(Err(violation))),
        },
        Form::AddAbsolute { dst } => match fetch_second::<B, AHEAD>(executor, shortcut, pc) {
            Ok(at) => Some(add_absolute(executor, at, dst, pc)),
            Err(violation) => Some(Stepped::Answered(Err(violation))),
        },
        Form::AddIndexed { base, dst } => match fetch_second::<B, AHEAD>(executor, shortcut, pc) {
            Ok(x) => Some(add_indexed(executor, base, x, dst, pc)),
            Err(violation) => Some(Stepped::Answered(Err(violation))),
        },
        Form::Single(form) => without_extension::<B, CALLER>(executor, form, next),
        Form::Double(form) => match fetch_second::<B, AHEAD>(executor, shortcut, pc) {
            Ok(x) => with_extension::<B, CALLER>(executor, form, x, pc),
            Err(violation) => Some(Stepped::Answered(Err(violation))),
        },
        Form::ByteConstant { op, value, dst } => {
            Some(from_byte_constant(executor, op, value, dst, next))
        }
        Form::ByteSingle(form) => Some(without_byte_extension(executor, form, next)),
        Form::ByteDouble(form) => match fetch_second::<B, AHEAD>(executor, shortcut, pc) {
            Ok(x) => Some(with_byte_extension(executor, form, x, pc)),
            Err(violation) => Some(Stepped::Answered(Err(violation))),
        },
        _ => None,
    }
}
