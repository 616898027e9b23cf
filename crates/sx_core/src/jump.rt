//! Jumps: the condition, and where PC goes.

ghost use Rattle.std.specs.Prelude.{◌≡◌, if◌then◌else◌};
ghost use Rattle.spec_machine.specs.Registers.{onward};
ghost use Rattle.spec_machine.specs.Rows.{jump_taken, distance, jump};
ghost use Rattle.sx_executor.specs.Machine.{RunsPlan};
ghost use Rattle.sx_core.specs.Quickly.{RunsQuietly};

use sx_alu::StatusBits;
use sx_bus::Bus;
use sx_executor::Executor;
use sx_rules::Violation;

#[inline(always)]
fn taken(condition: u8, flags: StatusBits) -> bool
    ensures { result ≡ jump_taken condition flags }
{
    match condition {
        0 => !flags.z(),
        1 => flags.z(),
        2 => !flags.c(),
        3 => flags.c(),
        4 => flags.n(),
        5 => flags.n() == flags.v(),
        6 => flags.n() != flags.v(),
        _ => true,
    }
}

/// A jump's offset in words, as a distance in bytes modulo 65,536.
fn distance(offset: i16) -> u16
    ensures { result ≡ distance offset }
{
    offset.cast_unsigned().wrapping_mul(2)
}

/// Where PC goes.
#[inline(always)]
fn target(is_taken: bool, offset: i16, next: u16) -> u16
    ensures { result ≡ (if is_taken then onward next (distance offset) else next) }
{
    if is_taken {
        next.wrapping_add(distance(offset))
    } else {
        next
    }
}

/// A jump; `next` is the address after it.
#[inline(always)]
pub fn jump_quietly<B: Bus>(executor: &mut Executor<B>, condition: u8, offset: i16, next: u16)
    ensures { RunsQuietly (jump condition offset executor.old.regs next) executor.old
        executor.new }
{
    let is_taken = taken(condition, executor.flags());
    executor.set_pc(target(is_taken, offset, next));
}

/// The same with an answer: it has no violation.
pub fn jump<B: Bus>(
    executor: &mut Executor<B>,
    condition: u8,
    offset: i16,
    next: u16,
) -> Result<(), Violation>
    ensures { RunsPlan (jump condition offset executor.old.regs next) executor.old result
        executor.new }
{
    jump_quietly(executor, condition, offset, next);
    Ok(())
}
