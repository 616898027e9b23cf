//! The world of a deployment: its modules' sites, and the state of its run.

ghost use Rattle.std.specs.Prelude.{◌≡◌, ◌+◌, ◌<◌, false, true, length, slice_get, IfOk};
ghost use Rattle.std.specs.Prelude.{IsErr, OnOk, OnErr, Option, option_map};
ghost use Rattle.sx_deploy.specs.Law.{IsSoundDeployment};
ghost use Rattle.sx_deploy.specs.SeenDeployment.{deployed_as};
ghost use Rattle.sx_sched.specs.InForm.{IsLine};
ghost use Rattle.sx_sched.specs.Seen.{line_of};
ghost use Rattle.sx_world.specs.Continued.{Acts, ActsInPart, StaysLegal};
ghost use Rattle.sx_world.specs.InMemory.{image_setting, world_setting};
ghost use Rattle.spec_run.specs.Law.{IsSoundSetting};
ghost use Rattle.sx_world.specs.Standing.{IsGoing, Stands};
ghost use Rattle.spec_run.specs.State.{nodes_from, switched_on};

use crate::running::Running;
use crate::targets::targets_of;
use std::alloc::{AllocError, Global};
use std::marker::Model;
use sx_bus::{Bus, Copied};
use sx_deploy::deployment::Deployment;
use sx_deployer::Deployer;
use sx_image::Image;
use sx_node::Node;
use sx_observe::settings::Setting;
use sx_observe::sites::{Site, sites_of};
use sx_sched::lines::Line;
use sx_tag::Tag;
use sx_trace::items::Item;

/// As many lines as a schedule may have.
pub const MOST_LINES: u32 = 65_536;

/// A deployment that runs: its nodes, the network, the deployer and the ledger.
#[derive(Drop)]
pub struct World<B: Bus, T: Tag> {
    pub(crate) sites: Vec<Site>,
    pub(crate) running: Running<B, T>,
    pub(crate) performed: u32,
    /// Whether memory ran out in an act: no further line is performed then.
    pub(crate) ran_out: bool,
    /// How many items the list held when the last act ended.
    pub(crate) made: usize,
}

impl<B: Bus, T: Tag> Model for World<B, T> {
    ghost use Rattle.sx_world.specs.Held.{Held};

    ghost Value = { Held };

    ghost view = { λ w. record {
      sites = w.sites.items;
      running = w.running;
      performed = w.performed;
      ran_out = w.ran_out;
      made = w.made;
    } };
}

impl<B: Copied, T: Tag> World<B, T> {
    /// The world of a deployment with these images of its modules, where all nodes were just
    /// switched on. It fails only where memory runs out.
    pub fn new(
        alloc: Global,
        tag: T,
        deployment: &Deployment,
        images: &[Image],
        nodes: Vec<Node<B, T>>,
    ) -> Result<World<B, T>, AllocError>
        requires sound { IsSoundDeployment (deployed_as deployment.now) }
        requires images { length images.now ≡ length deployment.now.app.parts.items }
        requires nodes { nodes.items
            ≡ nodes_from (image_setting T.mac deployment.now images.now) 0
            (deployed_as deployment.now).keys }
        ensures sites { IfOk result (λ world.
            world.sites ≡ (image_setting T.mac deployment.now images.now).sites) }
        ensures stands { IfOk result (λ world.
            Stands (image_setting T.mac deployment.now images.now) world
            (switched_on (image_setting T.mac deployment.now images.now))) }
        ensures performed { IfOk result (λ world. world.performed ≡ 0) }
        ensures memory { IfOk result (λ world. world.ran_out ≡ false) }
    {
        let sites = sites_of(alloc, deployment, images)?;
        let targets = targets_of(alloc, deployment, &sites)?;
        let deployer = Deployer::new(deployment.secret, targets);
        Ok(World {
            sites,
            running: Running::new(alloc, tag, nodes, deployer),
            performed: 0,
            ran_out: false,
            made: 0,
        })
    }

    /// Performs a line of a schedule, and appends its items. The run stays legal up to the first
    /// item that is forged. After memory ran out the items that were appended are the first of
    /// those that were due, and no further line is performed.
    pub fn act(
        &mut self,
        deployment: &Deployment,
        line: &Line,
        items: &mut Vec<Item>,
    ) -> Result<(), AllocError>
        requires sound { IsSoundDeployment (deployed_as deployment.now) }
        requires images { IsSoundSetting (world_setting T.mac deployment.now self.old) }
        requires going { IsGoing (world_setting T.mac deployment.now self.old) self.old }
        requires few { self.old.performed < MOST_LINES }
        requires form { IsLine (deployed_as deployment.now).names (line_of line.now) }
        ensures acted { OnOk result (Acts (world_setting T.mac deployment.now self.old)
            (line_of line.now) self.old self.new items.old.items items.new.items) }
        ensures legal { OnOk result (StaysLegal (world_setting T.mac deployment.now self.old)
            (line_of line.now) self.old self.new items.old.items items.new.items) }
        ensures front { OnErr result (ActsInPart (world_setting T.mac deployment.now self.old)
            (line_of line.now) self.old items.old.items items.new.items) }
        ensures ran_out { OnErr result (self.new.ran_out ≡ true) }
        ensures goes_on { OnOk result (self.new.ran_out ≡ false) }
        ensures made { self.old.ran_out ≡ false → self.new.made ≡ length items.new.items }
        ensures stopped { self.old.ran_out ≡ true
            → IsErr result × (self.new ≡ self.old) × (items.new.items ≡ items.old.items) }
        ensures sites { self.new.sites ≡ self.old.sites }
        ensures counts { OnOk result (self.new.performed ≡ self.old.performed + 1) }
    {
        if self.ran_out {
            return Err(AllocError);
        }
        let setting = Setting {
            deployment,
            sites: &self.sites,
        };
        match self.running.perform(&setting, line, items) {
            Ok(()) => {
                self.performed += 1;
                self.made = items.len();
                Ok(())
            }
            Err(error) => {
                self.ran_out = true;
                self.made = items.len();
                Err(error)
            }
        }
    }

    /// How many lines were performed.
    pub fn performed(&self) -> u32
        ensures { result ≡ self.now.performed }
    {
        self.performed
    }

    /// How many items the list held when the last act ended, also where memory ran out in it.
    pub fn made(&self) -> usize
        ensures { result ≡ self.now.made }
    {
        self.made
    }

    /// How many steps of nodes were taken. A step that ends in a reset counts, an interrupt
    /// doesn't.
    pub fn steps(&self) -> u64
        ensures { result ≡ self.now.running.steps }
    {
        self.running.steps
    }

    /// The packet of this number; `None` exactly where there is no such packet.
    pub fn packet(&self, k: u32) -> Option<&[u8]>
        ensures { option_map (λ p. p.now) result ≡ slice_get self.now.running.packets k }
    {
        match self.running.packets.get(k as usize) {
            Some(packet) => Some(packet),
            None => None,
        }
    }
}
