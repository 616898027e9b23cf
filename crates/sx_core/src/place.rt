//! Places in memory that an extension word tells: at the word, or at a register plus it. They are
//! one here, so that a step has one piece of code for both.

ghost use Rattle.std.specs.Prelude.{◌≡◌, ℕ, Bool};
ghost use Rattle.sx_isa.specs.declared.instruction.Op2.{Op2};
ghost use Rattle.sx_isa.specs.declared.instruction.Operand.{Operand};
ghost use Rattle.sx_isa.specs.declared.instruction.Operand.TheVariants.{Absolute};
ghost use Rattle.spec_machine.specs.Rows.{two, onto, on_memory};
ghost use Rattle.sx_core.specs.Places.{place_of};

use sx_bus::Bus;
use sx_executor::Executor;
use sx_isa::Operand;

/// The address of a place; `base` is the register that the extension word `x` is added to, if there
/// is one. PC is where it is when the operand is read or written.
#[inline(always)]
pub fn address_of<B: Bus>(executor: &Executor<B>, base: Option<u8>, x: u16) -> u16
    ensures source { (op : Op2) (wide : Bool) (dst : Operand) (next : ℕ)
        → two op wide (place_of base x) dst executor.now.regs next
        ≡ two op wide (Absolute result) dst executor.now.regs next }
    ensures destination { (op : Op2) (wide : Bool) (value : ℕ)
        → onto op wide (place_of base x) value executor.now.regs
        ≡ on_memory op wide result value executor.now.regs }
{
    match base {
        Some(base) => executor.register(base).wrapping_add(x),
        None => x,
    }
}

/// The place as an operand.
pub fn operand_of(base: Option<u8>, x: u16) -> Operand
    ensures { result ≡ place_of base x }
{
    match base {
        Some(base) => Operand::Indexed(base, x),
        None => Operand::Absolute(x),
    }
}
