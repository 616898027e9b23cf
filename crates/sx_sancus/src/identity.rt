//! Identities of modules, fed to a run of the tag.

ghost use Rattle.std.specs.Prelude.{◌≡◌, ◌+◌, ◌-◌, ◌<◌, ◌≤◌, ◌++◌, true, ℕ, List, None, length, take};
ghost use Rattle.sx_bus.specs.Devices.{places_of};
ghost use Rattle.sx_rules.specs.Admission.{refusal};
ghost use Rattle.sx_tag.specs.Keys.{section_key, attest_tag};
ghost use Rattle.sx_tag.specs.Stream.{Leads};
ghost use Rattle.spec_machine.specs.Memory.{bytes_from};
ghost use Rattle.spec_machine.specs.Protect.{identity_at};
ghost use Rattle.sx_executor.specs.Machine.{IsPublic};
ghost use Rattle.sx_sancus.specs.Parts.{reads_public};

use sx_bus::Bus;
use sx_executor::Executor;
use sx_rules::Layout;
use sx_tag::{Tag, begin_attest_tag, begin_module_key, feed_answer, finish_answer, layout_bytes};

/// How many bytes of a public section are fed at once: a block of SHA-256.
const PART: u16 = 64;

/// Copies at most 64 bytes of a public section, from an offset on, to the start of a block.
fn copy_part<B: Bus>(
    executor: &Executor<B>,
    layout: &Layout,
    from: u16,
    count: usize,
    into: &mut [u8; PART as usize],
)
    requires right { reads_public executor.now layout.now ≡ true }
    requires public { IsPublic executor.now layout.now }
    requires within { from + count ≤ layout.now.pub_to - layout.now.pub_from }
    requires short { count ≤ PART }
    ensures { take count into.new
        ≡ bytes_from executor.now.mem (layout.now.pub_from + from) count }
{
    executor.public_bytes(layout, from, &mut into[..count]);
}

/// Feeds at most 64 bytes of a public section, from an offset on.
fn feed_part<B: Bus, T: Tag>(
    executor: &Executor<B>,
    tag: &T,
    run: &mut T::Run,
    layout: &Layout,
    from: u16,
    count: usize,
)
    requires right { reads_public executor.now layout.now ≡ true }
    requires public { IsPublic executor.now layout.now }
    requires within { from + count ≤ layout.now.pub_to - layout.now.pub_from }
    requires short { count ≤ PART }
    ensures { (answer : List ℕ → List ℕ) (fed : List ℕ) → Leads T.has T.mac answer run.old fed
        → Leads T.has T.mac answer run.new
        (fed ++ bytes_from executor.now.mem (layout.now.pub_from + from) count) }
{
    let mut block = [0; PART as usize];
    copy_part(executor, layout, from, count, &mut block);
    feed_answer(tag, run, &block[..count]);
}

/// Feeds the bytes of a public section.
fn feed_public<B: Bus, T: Tag>(executor: &Executor<B>, tag: &T, run: &mut T::Run, layout: &Layout)
    requires right { reads_public executor.now layout.now ≡ true }
    requires public { IsPublic executor.now layout.now }
    ensures { (answer : List ℕ → List ℕ) (fed : List ℕ) → Leads T.has T.mac answer run.old fed
        → Leads T.has T.mac answer run.new (fed ++ bytes_from executor.now.mem layout.now.pub_from
        (layout.now.pub_to - layout.now.pub_from)) }
{
    let count = layout.pub_to.saturating_sub(layout.pub_from);
    for i in 0..count / PART {
        feed_part(executor, tag, run, layout, PART * i, PART as usize);
    }
    let rest = count % PART;
    feed_part(executor, tag, run, layout, count - rest, rest as usize);
}

/// Feeds the identity of a module with this layout, from the bytes as they are.
fn feed_identity<B: Bus, T: Tag>(executor: &Executor<B>, tag: &T, run: &mut T::Run, layout: &Layout)
    requires right { reads_public executor.now layout.now ≡ true }
    requires public { IsPublic executor.now layout.now }
    ensures { (answer : List ℕ → List ℕ) (fed : List ℕ) → Leads T.has T.mac answer run.old fed
        → Leads T.has T.mac answer run.new (fed ++ identity_at executor.now.mem layout.now) }
{
    let bounds = layout_bytes(
        layout.pub_from,
        layout.pub_to,
        layout.priv_from,
        layout.priv_to,
    );
    feed_public(executor, tag, run, layout);
    feed_answer(tag, run, &bounds);
}

/// The key of a module with this layout, from the bytes as they are. No rule refuses the module, so
/// that whatever code runs may read them.
#[tactic(auto, using(sx_executor::proofs::Rights::admitted_readable))]
pub fn key_for<B: Bus, T: Tag>(
    executor: &Executor<B>,
    tag: &T,
    base: &[u8; 16],
    provider: u16,
    layout: &Layout,
) -> [u8; 16]
    requires tested { refusal executor.now.sections layout.now (places_of executor.now.devices)
        ≡ None }
    ensures { result
        ≡ section_key T.mac base.now provider (identity_at executor.now.mem layout.now) }
{
    let mut run = begin_module_key(tag, base, provider);
    feed_identity(executor, tag, &mut run, layout);
    finish_answer(tag, run)
}

/// The tag by which a module with this key vouches for one with this layout.
pub fn attest_tag<B: Bus, T: Tag>(
    executor: &Executor<B>,
    tag: &T,
    key: &[u8; 16],
    layout: &Layout,
) -> [u8; 16]
    requires right { reads_public executor.now layout.now ≡ true }
    requires public { IsPublic executor.now layout.now }
    ensures { result ≡ attest_tag T.mac key.now (identity_at executor.now.mem layout.now) }
{
    let mut run = begin_attest_tag(tag, key);
    feed_identity(executor, tag, &mut run, layout);
    finish_answer(tag, run)
}
