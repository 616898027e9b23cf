//! Reads and writes of what a module instruction's registers name, each tested before.

ghost use Rattle.std.specs.Prelude.{◌≡◌, ◌≤◌, true, false, length, IfOk, IfErr, OnOk, OnErr};
ghost use Rattle.sx_rules.specs.declared.access.Access.TheVariants.{Read, Write};
ghost use Rattle.sx_rules.specs.declared.access.Violation.TheVariants as bad;
ghost use Rattle.spec_machine.specs.Memory.{bytes_from};
ghost use Rattle.sx_executor.specs.Machine.{reaches, reaches_each, with_bytes, IsClear};

use crate::text::Text;
use sx_bus::Bus;
use sx_executor::{Buffer, Executor};
use sx_rules::Violation;

/// Reads a buffer of 16 bytes: a key or a tag. The error is the violation `Read`.
pub fn read_block<B: Bus>(executor: &Executor<B>, buffer: Buffer) -> Result<[u8; 16], Violation>
    requires count { buffer.count ≡ 16 }
    requires memory { IsClear executor.now.devices buffer.at buffer.count }
    ensures closed { IfErr result (λ why. (why ≡ bad.Read)
        × (reaches executor.now Read buffer.at buffer.count ≡ false)) }
    ensures open { OnOk result (reaches executor.now Read buffer.at buffer.count ≡ true) }
    ensures bytes { IfOk result
        (λ bytes. bytes ≡ bytes_from executor.now.mem buffer.at buffer.count) }
{
    executor.readable(buffer)?;
    let mut block = [0; 16];
    executor.read_bytes(buffer.at, &mut block);
    Ok(block)
}

/// Reads a buffer of at most 32 bytes. The error is the violation `Read`.
pub fn read_text<B: Bus>(executor: &Executor<B>, buffer: Buffer) -> Result<Text, Violation>
    requires count { buffer.count ≤ 32 }
    requires memory { IsClear executor.now.devices buffer.at buffer.count }
    ensures closed { IfErr result (λ why. (why ≡ bad.Read)
        × (reaches executor.now Read buffer.at buffer.count ≡ false)) }
    ensures open { OnOk result (reaches executor.now Read buffer.at buffer.count ≡ true) }
    ensures bytes { IfOk result
        (λ bytes. bytes ≡ bytes_from executor.now.mem buffer.at buffer.count) }
    ensures count { IfOk result (λ text. length text ≡ buffer.count) }
{
    executor.readable(buffer)?;
    Ok(Text::read(executor, buffer))
}

/// Writes bytes to a buffer of as many. The error is the violation `Write`.
#[tactic(auto, using(sx_executor::proofs::Reach::each_in_range))]
pub fn write<B: Bus>(
    executor: &mut Executor<B>,
    buffer: Buffer,
    bytes: &[u8],
) -> Result<(), Violation>
    requires count { length bytes.now ≡ buffer.count }
    requires memory { IsClear executor.old.devices buffer.at buffer.count }
    ensures closed { IfErr result (λ why. (why ≡ bad.Write)
        × (reaches_each executor.old Write buffer.at bytes.now ≡ false)) }
    ensures open { OnOk result (reaches_each executor.old Write buffer.at bytes.now ≡ true) }
    ensures bytes { OnOk result (executor.new ≡ with_bytes executor.old buffer.at bytes.now) }
    ensures unchanged { OnErr result (executor.new ≡ executor.old) }
{
    executor.writable(buffer)?;
    executor.write_bytes(buffer.at, bytes);
    Ok(())
}
