//! Instructions that have a shortcut and whose code is a call: those that compiled code seldom does,
//! such as those from a constant onto a byte of memory, or onto PC, SP, SR or R3.

ghost use Rattle.std.specs.Prelude.{◌≡◌, ◌+◌, true, IsTrue};
ghost use Rattle.sx_isa.specs.declared.instruction.Operand.TheVariants.{Reg, Const, Symbolic};
ghost use Rattle.spec_machine.specs.Registers.{at_pc, onward, reg};
ghost use Rattle.spec_machine.specs.Rows.{program, two};
ghost use Rattle.sx_executor.specs.Machine.{RunsPlan};
ghost use Rattle.sx_executor.specs.Occupancy.{IsAhead};

use crate::at_hand::constant_onto_register;
use crate::bytes::{constant_onto_absolute, constant_onto_indexed};
use crate::forms::{answer_of, step_double, step_single};
use crate::quick::fetch_second;
use crate::step::step_long;
use crate::triple::step_triple;
use crate::two_operands::on_memory;
use sx_bus::Bus;
use sx_executor::registers::{PC, cut};
use sx_executor::{Executor, Form};
use sx_isa::Op2;
use sx_rules::Violation;

/// An operation on words from a constant onto PC, SP, SR or R3; `next` is the address after it.
#[inline(never)]
fn constant_onto_special<B: Bus>(
    executor: &mut Executor<B>,
    op: Op2,
    value: u16,
    dst: u8,
    next: u16,
) -> Result<(), Violation>
    ensures { RunsPlan (two op true (Const value) (Reg dst) (at_pc executor.old.regs next) next)
        executor.old result executor.new }
{
    answer_of(constant_onto_register(executor, op, value, dst, next))
}

/// The address of the extension word plus that word, `x`. PC is after it.
#[inline(always)]
fn symbolic_place<B: Bus>(executor: &Executor<B>, x: u16) -> u16
    ensures { result ≡ onward (reg executor.now.regs 0) (65534 + x) }
{
    executor.register(PC).wrapping_sub(2).wrapping_add(x)
}

/// An operation on words from a constant onto memory at the extension word's address plus that
/// word, `x`, at `pc`.
#[inline(never)]
fn constant_onto_symbolic<B: Bus>(
    executor: &mut Executor<B>,
    op: Op2,
    value: u16,
    x: u16,
    pc: u16,
) -> Result<(), Violation>
    ensures { RunsPlan (two op true (Const value) (Symbolic x)
        (at_pc executor.old.regs (onward pc 2)) (onward pc 4)) executor.old result executor.new }
{
    executor.set_pc(pc.wrapping_add(2));
    let value = cut(true, value);
    executor.set_pc(pc.wrapping_add(4));
    let at = symbolic_place(executor, x);
    on_memory(executor, op, true, at, value)
}

/// Executes the instruction at PC with this first word where its code isn't in each step. It finds
/// its shortcut again, so that a step which doesn't come here hands nothing on. It saves nothing:
/// what is done is a call at its end, which takes what it needs in registers.
#[cold]
#[inline(never)]
#[tactic(auto, unfolding(spec_machine::specs::Rows::program, sx_isa::specs::Reading::length_of))]
pub fn step_called<B: Bus, const AHEAD: bool>(
    executor: &mut Executor<B>,
    first: u16,
) -> Result<(), Violation>
    requires { IsTrue AHEAD → IsAhead executor.old.sections.live executor.old.devices
        executor.old.own (reg executor.old.regs 0) }
    ensures { RunsPlan (program first executor.old.regs) executor.old result executor.new }
{
    let pc = executor.register(PC);
    let shortcut = executor.shortcut(pc);
    if shortcut.first != first {
        return step_long(executor, first);
    }
    let after = pc.wrapping_add(2);
    match shortcut.form {
        Form::Single(form) => step_single(executor, form, after),
        Form::Double(form) => {
            let x = fetch_second::<B, AHEAD>(executor, shortcut, pc)?;
            step_double(executor, form, x, pc)
        }
        Form::Triple(_) => step_triple::<B, AHEAD>(executor, first),
        Form::ConstantOntoSpecial { op, value, dst } => {
            constant_onto_special(executor, op, value, dst, after)
        }
        Form::OntoSymbolic { op, value } => {
            let x = fetch_second::<B, AHEAD>(executor, shortcut, pc)?;
            constant_onto_symbolic(executor, op, value, x, pc)
        }
        Form::ByteOntoIndexed { op, value, base } => {
            let x = fetch_second::<B, AHEAD>(executor, shortcut, pc)?;
            constant_onto_indexed(executor, op, value, base, x, pc)
        }
        Form::ByteOntoAbsolute { op, value } => {
            let x = fetch_second::<B, AHEAD>(executor, shortcut, pc)?;
            constant_onto_absolute(executor, op, value, x, pc)
        }
        _ => step_long(executor, first),
    }
}
