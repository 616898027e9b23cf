//! The instructions that protect a module and that remove it.

ghost use Rattle.std.specs.Prelude.{◌≡◌, ℕ, List, Ok, IfOk, OnOk, OnErr};
ghost use Rattle.std.specs.Result.{result_err};
ghost use Rattle.sx_bus.specs.Devices.{places_of};
ghost use Rattle.sx_rules.specs.Admission.{refusal};
ghost use Rattle.sx_tag.specs.Keys.{boot_key};
ghost use Rattle.spec_machine.specs.declared.kinds.Exchange.{Exchange};
ghost use Rattle.spec_machine.specs.Protect.{protect, unprotect, layout_in, answer_registers};
ghost use Rattle.spec_machine.specs.Protect.{number_of};
ghost use Rattle.sx_sancus.specs.Told.{given_by, Concludes};
ghost use Rattle.sx_sancus.specs.Parts.{after_admission};

use crate::event::SancusEvent;
use crate::identity::key_for;
use sx_bus::Bus;
use sx_executor::Executor;
use sx_rules::{Layout, Refusal};
use sx_tag::{Tag, boot_key};

/// The number of a refusal, which R14 takes.
fn number_of(refusal: Refusal) -> u16
    ensures { result ≡ number_of refusal }
{
    match refusal {
        Refusal::Bounds => 1,
        Refusal::Overlap => 2,
        Refusal::Device => 3,
        Refusal::Full => 4,
        Refusal::Ids => 5,
    }
}

/// The layout that R10 to R13 name.
fn layout_in<B: Bus>(executor: &Executor<B>) -> Layout
    ensures { result ≡ layout_in executor.now.regs }
{
    let regs = executor.regs();
    Layout {
        pub_from: regs[10],
        pub_to: regs[11],
        priv_from: regs[12],
        priv_to: regs[13],
    }
}

/// Moves PC on, and answers an id and the number of a refusal.
fn answer<B: Bus>(executor: &mut Executor<B>, id: u16, number: u16)
    ensures { executor.new ≡ record executor.old {
      regs =
          answer_registers executor.old.regs id number;
    } }
{
    executor.set_word(14, number);
    executor.conclude(id);
}

/// Admits the module that the registers name, with its key of this boot of a node with the key
/// `node_key`, and zeroes its private section. No key is derived for a module that is refused.
fn admit<B: Bus, T: Tag>(
    executor: &mut Executor<B>,
    tag: &T,
    node_key: &[u8; 16],
    boot: u32,
) -> Result<u16, Refusal>
    ensures refused { result_err result
        ≡ refusal executor.old.sections (layout_in executor.old.regs)
        (places_of executor.old.devices) }
    ensures id { IfOk result (λ id. id ≡ executor.old.sections.next) }
    ensures admitted { OnOk result (executor.new
        ≡ after_admission T.mac executor.old (boot_key T.mac node_key.now boot)) }
    ensures unchanged { OnErr result (executor.new ≡ executor.old) }
{
    let layout = layout_in(executor);
    let provider = executor.register(9);
    executor.test(layout)?;
    let base = boot_key(tag, node_key, boot);
    let key = key_for(executor, tag, &base, provider, &layout);
    Ok(executor.admit(layout, provider, key))
}

/// Protects the module that R9 to R13 name; its key is derived from the public section's bytes as
/// they are now, and its private section is zeroed. A refusal changes R14, R15 and PC alone.
#[tactic(auto, unfolding(spec_machine::specs::Protect::protect))]
pub fn protect<B: Bus, T: Tag>(
    executor: &mut Executor<B>,
    tag: &T,
    node_key: &[u8; 16],
    boot: u32,
) -> SancusEvent
    ensures { (caller : ℕ) (exchange : Exchange)
        → Concludes
        (protect T.mac (given_by executor.old caller (boot_key T.mac node_key.now boot) exchange)
        executor.old.mem)
        executor.old (Ok result) executor.new exchange }
{
    match admit(executor, tag, node_key, boot) {
        Ok(id) => {
            answer(executor, id, 0);
            SancusEvent::Protected(id)
        }
        Err(refusal) => {
            answer(executor, 0, number_of(refusal));
            SancusEvent::Quiet
        }
    }
}

/// Removes the module whose code it is, and zeroes its private section. Outside every module only
/// R15 becomes 0.
#[tactic(auto, unfolding(spec_machine::specs::Protect::unprotect))]
pub fn unprotect<B: Bus>(executor: &mut Executor<B>) -> SancusEvent
    ensures { (caller : ℕ) (base : List ℕ) (exchange : Exchange)
        → Concludes (unprotect (given_by executor.old caller base exchange) executor.old.mem)
        executor.old (Ok result) executor.new exchange }
{
    let own = executor.own();
    match executor.running() {
        None => {
            executor.conclude(0);
            SancusEvent::Quiet
        }
        Some(section) => {
            executor.remove(&section);
            executor.conclude(1);
            SancusEvent::Removed(own)
        }
    }
}
