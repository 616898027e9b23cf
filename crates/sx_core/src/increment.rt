//! Operations on words from memory at a register, which goes on, onto memory. Compiled code does so
//! with the value on top of its stack.

ghost use Rattle.std.specs.Prelude.{◌≡◌, ℕ, true, false, IfSome};
ghost use Rattle.sx_isa.specs.declared.instruction.Instr.TheVariants.{Two};
ghost use Rattle.sx_isa.specs.declared.instruction.Operand.TheVariants.{Increment};
ghost use Rattle.sx_isa.specs.Extending.{extended};
ghost use Rattle.spec_machine.specs.Registers.{at_pc};
ghost use Rattle.spec_machine.specs.Rows.{two};
ghost use Rattle.sx_executor.specs.Machine.{RunsPlan};
ghost use Rattle.sx_executor.specs.Shortcuts.{double_of};
ghost use Rattle.sx_core.specs.Quickly.{EndsStep};
ghost use Rattle.sx_core.specs.Places.{place_of};

use crate::at_hand::{load_at_hand, two_near};
use crate::place::{address_of, operand_of};
use crate::quick::{Stepped, on_word};
use sx_bus::Bus;
use sx_executor::{Double, Executor};
use sx_isa::{Op2, Operand};
use sx_rules::Violation;

/// An operation from memory at a register, which goes on, onto memory at the extension word, or at
/// a base plus that word.
#[derive(Clone, Copy)]
pub struct IncrementOnto {
    pub op: Op2,
    /// The register that the value is read at.
    pub src: u8,
    /// The register that the extension word is added to, if there is one.
    pub base: Option<u8>,
}

/// The operation that a form is, if it is one.
#[inline(always)]
pub fn increment_of(form: Double) -> Option<IncrementOnto>
    ensures { IfSome result (λ increment. (x : ℕ) → extended (double_of form) x 0
        ≡ Two increment.op false (Increment increment.src) (place_of increment.base x)) }
{
    match form {
        Double::IncrementOntoAbsolute { op, src } => Some(IncrementOnto {
            op,
            src,
            base: None,
        }),
        Double::IncrementOntoIndexed { op, src, base } => Some(IncrementOnto {
            op,
            src,
            base: Some(base),
        }),
        _ => None,
    }
}

/// The operation where the value isn't at hand. PC is before it is read.
#[cold]
#[inline(never)]
fn increment_near<B: Bus>(
    executor: &mut Executor<B>,
    op: Op2,
    src: u8,
    base: Option<u8>,
    x: u16,
    next: u16,
) -> Result<(), Violation>
    ensures { RunsPlan (two op true (Increment src) (place_of base x) executor.old.regs next)
        executor.old result executor.new }
{
    two_near(
        executor,
        op,
        true,
        Operand::Increment(src),
        operand_of(base, x),
        next,
    )
}

/// The operation with the extension word `x`. PC goes to `after`, the address after the first word,
/// before operands are read; `next` is the address after the whole.
#[inline(always)]
pub fn increment_onto<B: Bus>(
    executor: &mut Executor<B>,
    op: Op2,
    src: u8,
    base: Option<u8>,
    x: u16,
    after: u16,
    next: u16,
) -> Stepped
    ensures { EndsStep
        (two op true (Increment src) (place_of base x) (at_pc executor.old.regs after) next)
        executor.old result executor.new }
{
    executor.set_pc(after);
    let from = executor.register(src);
    let Some(value) = load_at_hand(executor, true, from) else {
        return Stepped::Answered(increment_near(executor, op, src, base, x, next));
    };
    executor.increment(true, src);
    executor.set_pc(next);
    let at = address_of(executor, base, x);
    on_word(executor, op, at, value)
}
