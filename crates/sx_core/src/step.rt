//! Plain instructions from their first word on, and interrupts.

ghost use Rattle.std.specs.Prelude.{◌≡◌, ℕ, ◌*◌, ◌≤◌, List};
ghost use Rattle.sx_isa.specs.Reading.{length_of};
ghost use Rattle.sx_isa.specs.Extending.{extended};
ghost use Rattle.spec_machine.specs.Registers.{onward};
ghost use Rattle.spec_machine.specs.Rows.{row, with_words, program};
ghost use Rattle.spec_machine.specs.Acts.{interrupt};
ghost use Rattle.spec_machine.specs.Answers.{followed};
ghost use Rattle.sx_executor.specs.Machine.{ran, RunsPlan};

use crate::jump::jump;
use crate::one_operand::{one, reti};
use crate::quick::{Stepped, step_quick};
use crate::two_operands::two;
use sx_bus::Bus;
use sx_executor::registers::{PC, SP, SR};
use sx_executor::{Decoded, Executor};
use sx_isa::{Instr, Operand, with_word, with_words};
use sx_rules::Violation;

/// Fetches the extension words of the instruction whose first word is at `pc`; 0 stands for one
/// that it doesn't have.
#[inline(always)]
#[tactic(auto, unfolding(sx_isa::specs::Reading::length_of))]
fn fetch_words<B: Bus>(
    executor: &Executor<B>,
    decoded: &Decoded,
    pc: u16,
) -> Result<(u16, u16), Violation>
    ensures { (regs : List ℕ)
        → ran (with_words (length_of decoded.now.first) decoded.now.first regs pc) executor.now
        ≡ followed result (λ words. ran (row
        (extended decoded.now.instruction words.0 words.1) regs
        (onward pc (2 * decoded.now.words))) executor.now) }
{
    decoded.reads_on();
    match decoded.words {
        1 => Ok((0, 0)),
        2 => {
            let second = executor.fetch(pc.wrapping_add(2))?;
            Ok((second, 0))
        }
        _ => {
            let second = executor.fetch(pc.wrapping_add(2))?;
            let third = executor.fetch(pc.wrapping_add(4))?;
            Ok((second, third))
        }
    }
}

/// Executes a decoded instruction with these extension words; PC is after its first word, and
/// `next` is the address after the whole. Words and bytes are two arms, so that the compiler makes
/// code for each, and extension words are put in by an arm, so that it needn't build an
/// instruction.
fn execute<B: Bus>(
    executor: &mut Executor<B>,
    instruction: Instr,
    words: (u16, u16),
    next: u16,
) -> Result<(), Violation>
    ensures { RunsPlan (row (extended instruction words.0 words.1) executor.old.regs next)
        executor.old result executor.new }
{
    let (second, third) = words;
    match instruction {
        Instr::Two {
            op,
            byte: false,
            src,
            dst,
        } => {
            let (src, dst) = with_words(src, dst, second, third);
            two(executor, op, true, src, dst, next)
        }
        Instr::Two {
            op,
            byte: true,
            src,
            dst,
        } => {
            let (src, dst) = with_words(src, dst, second, third);
            two(executor, op, false, src, dst, next)
        }
        Instr::One { op, byte, arg } => one(executor, op, !byte, with_word(arg, second), next),
        Instr::Reti => reti(executor),
        Instr::Jump { cond, offset } => jump(executor, cond, offset, next),
        Instr::Sancus(_) => Err(Violation::Illegal),
    }
}

/// Executes the instruction at PC, whose first word this is.
#[inline(never)]
#[tactic(auto, unfolding(spec_machine::specs::Rows::program))]
fn step_decoded<B: Bus>(executor: &mut Executor<B>, decoded: Decoded) -> Result<(), Violation>
    ensures { RunsPlan (program decoded.first executor.old.regs) executor.old result
        executor.new }
{
    let pc = executor.register(PC);
    let words = fetch_words(executor, &decoded, pc)?;
    executor.set_pc(pc.wrapping_add(2));
    let next = pc.wrapping_add(2 * u16::from(decoded.words));
    execute(executor, decoded.instruction, words, next)
}

/// Executes the instruction at PC with this first word, which wasn't decoded before.
#[inline(never)]
#[tactic(auto, unfolding(spec_machine::specs::Rows::program))]
fn step_anew<B: Bus>(executor: &mut Executor<B>, first: u16) -> Result<(), Violation>
    ensures { RunsPlan (program first executor.old.regs) executor.old result executor.new }
{
    let pc = executor.register(PC);
    let decoded = executor.decode(pc, first).ok_or(Violation::Illegal)?;
    step_decoded(executor, decoded)
}

/// Executes the instruction at PC with this first word, where no shortcut of it is kept for PC;
/// from then on one is, if the word has one. Its code stays out of the way of what most steps do,
/// and the compiler takes those for likely.
#[cold]
#[inline(never)]
pub fn step_long<B: Bus>(executor: &mut Executor<B>, first: u16) -> Result<(), Violation>
    ensures { RunsPlan (program first executor.old.regs) executor.old result executor.new }
{
    let pc = executor.register(PC);
    let Some(decoded) = executor.kept(pc, first) else {
        return step_anew(executor, first);
    };
    let decoded = *decoded;
    executor.learn_shortcut(pc, &decoded);
    step_decoded(executor, decoded)
}

/// Executes the plain instruction at PC, whose first word the caller read. A module instruction is
/// illegal here. After a violation nothing is said of registers and memory, and the devices may
/// have lost a fresh mark: the caller resets the node. The instructions are those of TI's
/// MSP430x2xx Family User's Guide, "CPU".
#[inline(never)]
pub fn step_plain<B: Bus>(executor: &mut Executor<B>, first: u16) -> Result<(), Violation>
    ensures { RunsPlan (program first executor.old.regs) executor.old result executor.new }
{
    match step_quick::<B, 0, false>(executor, first) {
        Stepped::Quiet => Ok(()),
        Stepped::Answered(answer) => answer,
    }
}

/// Pushes PC and then SR, clears SR, and loads PC from the vector of the line. After a violation
/// nothing is said of registers and memory: the caller resets the node. TI's guide says what an
/// interrupt pushes and loads; that it runs as code outside every module is our own rule.
#[tactic(auto, unfolding(spec_machine::specs::Acts::interrupt))]
pub fn interrupt<B: Bus>(executor: &mut Executor<B>, line: u8) -> Result<(), Violation>
    requires { line ≤ 14 }
    ensures { RunsPlan (interrupt line executor.old.regs) executor.old result executor.new }
{
    let pc = executor.register(PC);
    let sp = executor.register(SP);
    let status = executor.register(SR);
    let first = sp.wrapping_sub(2);
    let second = sp.wrapping_sub(4);
    executor.store(true, first, pc)?;
    executor.store(true, second, status)?;
    let vector = 0xffe0 + 2 * u16::from(line);
    let target = executor.load(true, vector)?;
    executor.set_word(SP, second);
    executor.set_word(SR, 0);
    executor.set_register(PC, target);
    Ok(())
}
