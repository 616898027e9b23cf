//! Attestation: the deployer asks a module, and judges what is given to it as the answer.

ghost use Rattle.std.specs.Prelude.{◌≡◌, ◌+◌, ◌<◌, ◌≤◌, List, length, map, slice_get, OnOk};
ghost use Rattle.std.specs.Rc.{rc_slice_items};
ghost use Rattle.spec_run.specs.Acts.{after_answer, ask};
ghost use Rattle.sx_world.specs.Granted.{accepted_ask, confirmed, judged_by};
ghost use Rattle.sx_world.specs.Held.{DoesAct};
ghost use Rattle.sx_observe.specs.InMemory.{setting_at};
ghost use Rattle.spec_run.specs.Setting.{Setting, Site};

use crate::grants::granted;
use crate::network::add_packet;
use crate::running::Running;
use std::alloc::AllocError;
use std::rc::RcSlice;
use sx_bus::Copied;
use sx_deploy::deployment::Deployment;
use sx_deployer::{Deployer, Verdict};
use sx_ledger::Maker;
use sx_observe::recording::{NO_TARGET, add_unless_made, is_made, push_item};
use sx_tag::Tag;
use sx_trace::items::Item;
use sx_wire::challenge_in;

/// The open ask that a packet answers, as a module's answer at a boot of its node. Where it answers
/// none, the deployer is as before.
fn judge_answer<T: Tag>(
    tag: &T,
    deployer: &mut Deployer<T>,
    packets: &[RcSlice<u8>],
    m: u8,
    boot: u32,
    k: u32,
) -> Option<[u8; 18]>
    requires { m < length deployer.old.targets }
    ensures ask { result ≡ accepted_ask T.mac deployer.old m boot
        (slice_get (map rc_slice_items packets.now) k) }
    ensures state { deployer.new ≡ judged_by T.mac deployer.old m boot
        (slice_get (map rc_slice_items packets.now) k) }
{
    let ask = deployer.open_ask(m);
    match packets.get(k as usize) {
        Some(answer) => match deployer.answer(tag, m, boot, answer) {
            Verdict::Attested => ask,
            Verdict::Denied => None,
        },
        None => None,
    }
}

impl<B: Copied, T: Tag> Running<B, T> {
    /// The deployer asks a module.
    pub(crate) fn ask(&mut self, m: u8, items: &mut Vec<Item>) -> Result<(), AllocError>
        requires known { m < length self.old.deployer.targets }
        requires asks { self.old.deployer.state.asks < u32.MAX }
        requires packets { length self.old.packets < u32.MAX }
        ensures does { (set : Setting) → DoesAct set result self.old self.new items.old.items
            items.new.items (λ w. ask w m) }
        ensures count { OnOk result (length self.new.packets ≤ length self.old.packets + 1) }
    {
        let packet = self.deployer.ask(&self.tag, m);
        push_item(
            items,
            Item::Ask {
                module: m,
                challenge: challenge_in(&packet),
            },
        )?;
        add_packet(self.alloc, &mut self.packets, &packet, items)
    }

    /// What follows an accepted answer to an ask, of a module that was last attested at a boot, if
    /// any.
    fn confirm(
        &mut self,
        deployment: &Deployment,
        m: u8,
        boot: u32,
        ask: &[u8; 18],
        last: Option<u32>,
        items: &mut Vec<Item>,
    ) -> Result<(), AllocError>
        requires parts { length deployment.now.app.parts.items ≤ length self.old.deployer.targets }
        requires links { length deployment.now.app.links.items ≤ 64 }
        requires packets { length self.old.packets ≤ 4294967000 }
        ensures does { (sites : List Site) → DoesAct (setting_at T.mac deployment.now sites)
            result self.old self.new items.old.items items.new.items
            (confirmed (setting_at T.mac deployment.now sites) m boot ask.now last) }
        ensures count { OnOk result (length self.new.packets ≤ length self.old.packets + 192) }
    {
        let made = is_made(&self.ledger, Maker::Module(m), NO_TARGET, boot, ask, &[]);
        add_unless_made(items, None, made, Item::Attested { module: m, boot })?;
        let grants = granted(self.alloc, &self.deployer, &deployment.app, m, boot, last)?;
        self.give_keys(deployment, &grants, items)
    }

    /// The deployer judges a packet as a module's answer at a boot of its node.
    pub(crate) fn answer(
        &mut self,
        deployment: &Deployment,
        m: u8,
        boot: u32,
        k: u32,
        items: &mut Vec<Item>,
    ) -> Result<(), AllocError>
        requires known { m < length deployment.now.app.parts.items }
        requires parts { length deployment.now.app.parts.items ≤ length self.old.deployer.targets }
        requires links { length deployment.now.app.links.items ≤ 64 }
        requires packets { length self.old.packets ≤ 4294967000 }
        ensures does { (sites : List Site) → DoesAct (setting_at T.mac deployment.now sites)
            result self.old self.new items.old.items items.new.items
            (λ w. after_answer (setting_at T.mac deployment.now sites) w m boot
            (slice_get sites m) (slice_get w.packets k)) }
        ensures count { OnOk result (length self.new.packets ≤ length self.old.packets + 192) }
    {
        let last = self.deployer.attested(m);
        match judge_answer(&self.tag, &mut self.deployer, &self.packets, m, boot, k) {
            Some(ask) => self.confirm(deployment, m, boot, &ask, last, items),
            None => push_item(items, Item::Denied { module: m }),
        }
    }
}
