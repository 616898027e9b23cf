//! Reading of source operands, in each addressing mode.

ghost use Rattle.std.specs.Prelude.{◌<◌, IfOk};
ghost use Rattle.sx_alu.specs.Table.{limit};
ghost use Rattle.spec_machine.specs.Rows.{from_source};
ghost use Rattle.sx_executor.specs.Machine.{GivesValue};

use sx_bus::Bus;
use sx_executor::Executor;
use sx_executor::registers::{PC, cut};
use sx_isa::Operand;
use sx_rules::Violation;

/// Reads a source operand, whose register goes on where the mode says so; any plan may follow. The
/// error is the instruction's first violation.
#[inline(always)]
pub fn read_source<B: Bus>(
    executor: &mut Executor<B>,
    wide: bool,
    src: Operand,
) -> Result<u16, Violation>
    ensures then { GivesValue (from_source wide src executor.old.regs)
        executor.old result executor.new }
    ensures below { IfOk result (λ v. v < limit wide) }
{
    match src {
        Operand::Reg(r) => Ok(executor.operand(wide, r)),
        Operand::Indexed(r, x) => {
            let at = executor.register(r).wrapping_add(x);
            executor.load(wide, at)
        }
        Operand::Symbolic(x) => {
            let at = executor.register(PC).wrapping_add(x);
            executor.load(wide, at)
        }
        Operand::Absolute(x) => executor.load(wide, x),
        Operand::Indirect(r) => {
            let at = executor.register(r);
            executor.load(wide, at)
        }
        Operand::Increment(r) => {
            let at = executor.register(r);
            let value = executor.load(wide, at)?;
            executor.increment(wide, r);
            Ok(value)
        }
        Operand::Immediate(x) => Ok(cut(wide, x)),
        Operand::Const(c) => Ok(cut(wide, c)),
    }
}
