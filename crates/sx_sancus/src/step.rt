//! Execution of one module instruction, by its code.

ghost use Rattle.std.specs.Prelude.{◌≡◌, true, ℕ, List};
ghost use Rattle.spec_machine.specs.ModuleRows.{module_row};
ghost use Rattle.spec_machine.specs.Modules.{is_code, module_instruction};
ghost use Rattle.sx_sancus.specs.Told.{given_by, ran_of, Concludes};
ghost use Rattle.sx_tag.specs.Keys.{boot_key};

use crate::attest::attest;
use crate::event::SancusEvent;
use crate::protect::{protect, unprotect};
use crate::wrapping::{unwrap, wrap};
use spec_machine::Exchange;
use sx_bus::Bus;
use sx_executor::Executor;
use sx_rules::Violation;
use sx_tag::Tag;

/// Executes an instruction that is a plan: any but protect and unprotect.
#[tactic(auto, unfolding(spec_machine::specs::ModuleRows::module_row))]
fn run_plan<B: Bus, T: Tag>(
    executor: &mut Executor<B>,
    code: u8,
    caller: u16,
    tag: &mut T,
    exchange: &mut Exchange,
) -> Result<SancusEvent, Violation>
    ensures { (base : List ℕ)
        → Concludes (ran_of (module_row T.mac code) executor.old caller base exchange.old)
        executor.old result executor.new exchange.new }
{
    if code == 6 {
        let id = executor.holder(executor.register(9));
        executor.conclude(id);
        return Ok(SancusEvent::Quiet);
    }
    let Some(own) = executor.running() else {
        executor.conclude(0);
        return Ok(SancusEvent::Quiet);
    };
    match code {
        2 => attest(executor, &own, tag, exchange),
        4 => wrap(executor, &own, tag, exchange),
        5 => unwrap(executor, &own, tag, exchange),
        _ => {
            executor.conclude(caller);
            Ok(SancusEvent::Quiet)
        }
    }
}

/// Executes the module instruction whose word is 0x1380 + `code`, as code of the module whose turn
/// the executor began, if any. `caller` is the module that entered it, `node_key` the node's own
/// key, and `boot` its boot count. After a violation the caller resets, and nothing is said of what
/// was changed. What the instructions do is Sancus 2.0; their words and registers are our own.
pub fn step_sancus<B: Bus, T: Tag>(
    executor: &mut Executor<B>,
    code: u8,
    caller: u16,
    tag: &mut T,
    node_key: &[u8; 16],
    boot: u32,
    exchange: &mut Exchange,
) -> Result<SancusEvent, Violation>
    requires { is_code code ≡ true }
    ensures { Concludes
        (module_instruction T.mac code
        (given_by executor.old caller (boot_key T.mac node_key.now boot) exchange.old)
        executor.old.mem)
        executor.old result executor.new exchange.new }
{
    match code {
        0 => Ok(unprotect(executor)),
        1 => Ok(protect(executor, tag, node_key, boot)),
        _ => run_plan(executor, code, caller, tag, exchange),
    }
}
