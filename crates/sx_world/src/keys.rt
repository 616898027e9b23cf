//! Connection keys are given: a set-key packet for each grant, and its entry of the ledger.

ghost use Rattle.std.specs.Prelude.{◌≡◌, ◌+◌, ◌<◌, ◌≤◌, List, length, slice_get, OnOk};
ghost use Rattle.spec_run.specs.Acts.{key_given, keys_given};
ghost use Rattle.sx_world.specs.Held.{DoesAct};
ghost use Rattle.sx_observe.specs.InMemory.{setting_at};
ghost use Rattle.spec_run.specs.Setting.{Site};

use crate::grants::Grant;
use crate::network::add_packet;
use crate::running::Running;
use std::alloc::AllocError;
use sx_bus::Copied;
use sx_deploy::deployment::Deployment;
use sx_ledger::Maker;
use sx_observe::recording::record;
use sx_tag::Tag;
use sx_trace::items::Item;

impl<B: Copied, T: Tag> Running<B, T> {
    /// The set-key packet of a grant, and its entry.
    fn give_key(
        &mut self,
        deployment: &Deployment,
        g: &Grant,
        items: &mut Vec<Item>,
    ) -> Result<(), AllocError>
        requires { length self.old.packets < u32.MAX }
        ensures does { (sites : List Site) → DoesAct (setting_at T.mac deployment.now sites)
            result self.old self.new items.old.items items.new.items
            (λ w. key_given (setting_at T.mac deployment.now sites) w g.now
            (slice_get sites g.now.holder)) }
        ensures count { OnOk result (length self.new.packets ≤ length self.old.packets + 1) }
    {
        match self
            .deployer
            .key_packet(&self.tag, g.holder, g.boot, g.end, g.epoch)
        {
            Some(packet) => {
                record(
                    &mut self.ledger,
                    Maker::Deployer,
                    g.holder,
                    g.boot,
                    &packet.bytes[..6],
                    &packet.key,
                )?;
                add_packet(self.alloc, &mut self.packets, &packet.bytes, items)
            }
            None => Ok(()),
        }
    }

    /// The set-key packets of these grants, and their entries.
    pub(crate) fn give_keys(
        &mut self,
        deployment: &Deployment,
        grants: &[Grant],
        items: &mut Vec<Item>,
    ) -> Result<(), AllocError>
        requires { length self.old.packets + length grants.now ≤ u32.MAX }
        ensures does { (sites : List Site) → DoesAct (setting_at T.mac deployment.now sites)
            result self.old self.new items.old.items items.new.items
            (keys_given (setting_at T.mac deployment.now sites) grants.now) }
        ensures count { OnOk result (length self.new.packets ≤ length self.old.packets
            + length grants.now) }
    {
        for g in grants {
            self.give_key(deployment, g, items)?;
        }
        Ok(())
    }
}
