//! Operations on words from memory that an extension word tells onto a register. Sums onto a general
//! register have forms, and so arms of a step, of their own.

ghost use Rattle.std.specs.Prelude.{◌≡◌, ◌<◌, ℕ, true, false, IfSome};
ghost use Rattle.sx_isa.specs.declared.instruction.Instr.TheVariants.{Two};
ghost use Rattle.sx_isa.specs.declared.instruction.Op2.TheVariants.{Add};
ghost use Rattle.sx_isa.specs.declared.instruction.Operand.TheVariants.{Reg, Absolute, Indexed};
ghost use Rattle.sx_isa.specs.Extending.{extended};
ghost use Rattle.spec_machine.specs.Registers.{at_pc, onward};
ghost use Rattle.spec_machine.specs.Rows.{two};
ghost use Rattle.sx_executor.specs.Shortcuts.{double_of, is_general};
ghost use Rattle.sx_core.specs.Quickly.{EndsStep};
ghost use Rattle.sx_core.specs.Places.{place_of};

use crate::at_hand::{load_at_hand, word_near, word_onto_register};
use crate::place::address_of;
use crate::quick::{Stepped, onto_general};
use sx_bus::Bus;
use sx_executor::{Double, Executor};
use sx_isa::Op2;

/// An operation from memory at the extension word, or at a base plus that word, onto a register.
#[derive(Clone, Copy)]
pub struct FromMemory {
    pub op: Op2,
    /// The register that the extension word is added to, if there is one.
    pub base: Option<u8>,
    /// The register that the operation is onto.
    pub dst: u8,
}

/// The operation that a form is, if it is one.
#[inline(always)]
pub fn from_memory_of(form: Double) -> Option<FromMemory>
    ensures { IfSome result (λ load. (x : ℕ) → extended (double_of form) x 0
        ≡ Two load.op false (place_of load.base x) (Reg load.dst)) }
{
    match form {
        Double::FromAbsolute { op, dst } => Some(FromMemory {
            op,
            base: None,
            dst,
        }),
        Double::FromIndexed { op, base, dst } => Some(FromMemory {
            op,
            base: Some(base),
            dst,
        }),
        _ => None,
    }
}

/// The operation with the extension word `x`. PC goes to `after`, the address after the first word,
/// before operands are read; `next` is the address after the whole.
#[inline(always)]
pub fn from_memory<B: Bus>(
    executor: &mut Executor<B>,
    op: Op2,
    base: Option<u8>,
    x: u16,
    dst: u8,
    after: u16,
    next: u16,
) -> Stepped
    ensures { EndsStep (two op true (place_of base x) (Reg dst) (at_pc executor.old.regs after) next)
        executor.old result executor.new }
{
    executor.set_pc(after);
    let at = address_of(executor, base, x);
    word_onto_register(executor, op, at, dst, next)
}

/// The sum of a general register and the word at an address; `next` is the address after the
/// instruction.
#[inline(always)]
fn add_word<B: Bus>(executor: &mut Executor<B>, at: u16, dst: u8, next: u16) -> Stepped
    requires { is_general dst ≡ true }
    ensures { EndsStep (two Add true (Absolute at) (Reg dst) executor.old.regs next)
        executor.old result executor.new }
{
    let Some(value) = load_at_hand(executor, true, at) else {
        return Stepped::Answered(word_near(executor, Op2::Add, at, dst, next));
    };
    executor.set_pc(next);
    onto_general(executor, Op2::Add, value, dst);
    Stepped::Quiet
}

/// The same of the instruction at `pc`.
#[inline(always)]
pub fn add_absolute<B: Bus>(executor: &mut Executor<B>, at: u16, dst: u8, pc: u16) -> Stepped
    requires { is_general dst ≡ true }
    ensures { EndsStep (two Add true (Absolute at) (Reg dst)
        (at_pc executor.old.regs (onward pc 2)) (onward pc 4)) executor.old result executor.new }
{
    executor.set_pc(pc.wrapping_add(2));
    add_word(executor, at, dst, pc.wrapping_add(4))
}

/// The same from memory at a register plus `x`.
#[inline(always)]
pub fn add_indexed<B: Bus>(
    executor: &mut Executor<B>,
    base: u8,
    x: u16,
    dst: u8,
    pc: u16,
) -> Stepped
    requires { is_general dst ≡ true }
    ensures { EndsStep (two Add true (Indexed base x) (Reg dst)
        (at_pc executor.old.regs (onward pc 2)) (onward pc 4)) executor.old result executor.new }
{
    executor.set_pc(pc.wrapping_add(2));
    let at = executor.register(base).wrapping_add(x);
    add_word(executor, at, dst, pc.wrapping_add(4))
}
