//! A deployment in its honest run.

ghost use Rattle.std.specs.Prelude.{◌≡◌, ◌<◌, false, true, length};
ghost use Rattle.std.specs.Prelude.{IfOk, IsErr, OnErr, OnOk};
ghost use Rattle.sx_deploy.specs.Law.{IsSoundDeployment};
ghost use Rattle.sx_deploy.specs.SeenDeployment.{deployed_as};
ghost use Rattle.spec_run.specs.State.{nodes_from};
ghost use Rattle.sx_world.specs.InMemory.{image_setting};
ghost use Rattle.sx_drive.specs.Honest.{setup, start};
ghost use Rattle.sx_drive.specs.Driving.{Does, Follows, GoesOn};
ghost use Rattle.sx_drive.specs.Driving.{IsDrivenSensor, drove_of, reading};

use crate::said::{Drove, Said};
use std::alloc::{AllocError, Global};
use std::collections::VecDeque;
use std::marker::Model;
use sx_bus::{Bus, Copied};
use sx_deploy::deployment::Deployment;
use sx_image::Image;
use sx_node::Node;
use sx_tag::Tag;
use sx_trace::items::Item;
use sx_world::world::World;

/// A deployment in its honest run: its world, and the packets that wait to be delivered.
#[derive(Drop)]
pub struct Honest<B: Bus, T: Tag> {
    pub(crate) alloc: Global,
    pub(crate) world: World<B, T>,
    /// The numbers of the packets that wait, the oldest first.
    pub(crate) waiting: VecDeque<u32>,
    /// What the last line showed.
    pub(crate) shown: Vec<Item>,
    /// Whether a line was left out, since a schedule has no room for it.
    pub(crate) long: bool,
    /// Whether memory ran out: nothing more is said then.
    ran_out: bool,
}

impl<B: Bus, T: Tag> Model for Honest<B, T> {
    ghost use Rattle.sx_drive.specs.Driving.{Kept};

    ghost Value = { Kept };

    ghost view = { λ h. record {
      world = h.world;
      waiting = h.waiting.items;
      shown = h.shown.items;
      long = h.long;
      ran_out = h.ran_out;
    } };
}

impl<B: Copied, T: Tag> Honest<B, T> {
    /// The honest run of a deployment with these images of its modules, where all nodes were just
    /// switched on. It fails only where memory runs out.
    pub fn new(
        alloc: Global,
        tag: T,
        deployment: &Deployment,
        images: &[Image],
        nodes: Vec<Node<B, T>>,
    ) -> Result<Honest<B, T>, AllocError>
        requires sound { IsSoundDeployment (deployed_as deployment.now) }
        requires images { length images.now ≡ length deployment.now.app.parts.items }
        requires nodes { nodes.items
            ≡ nodes_from (image_setting T.mac deployment.now images.now) 0
            (deployed_as deployment.now).keys }
        ensures starts { IfOk result (λ honest. Follows T.mac deployment.now honest
            (image_setting T.mac deployment.now images.now)
            (start (image_setting T.mac deployment.now images.now))) }
        ensures memory { IfOk result (λ honest. honest.ran_out ≡ false) }
    {
        Ok(Honest {
            alloc,
            world: World::new(alloc, tag, deployment, images, nodes)?,
            waiting: VecDeque::new(alloc),
            shown: Vec::new(alloc),
            long: false,
            ran_out: false,
        })
    }

    /// How far the run came.
    fn drove(&self) -> Drove
        ensures { result ≡ drove_of self.now.long }
    {
        if self.long { Drove::Long } else { Drove::Done }
    }

    /// Sets all modules up, and appends the lines of this with what they showed. `Long` says that
    /// a schedule has no room for all of them. After memory ran out a prefix of what was due was
    /// appended, with all that the lines that were performed gave, and no call does anything more.
    pub fn setup(
        &mut self,
        deployment: &Deployment,
        said: &mut Vec<Said>,
    ) -> Result<Drove, AllocError>
        requires going { self.old.ran_out ≡ false → GoesOn T.mac deployment.now self.old }
        ensures does { Does T.mac deployment.now result self.old self.new said.old.items
            said.new.items setup }
        ensures drove { IfOk result (λ drove. drove ≡ drove_of self.new.long) }
        ensures goes_on { OnOk result (GoesOn T.mac deployment.now self.new) }
        ensures ran_out { OnErr result (self.new.ran_out ≡ true) }
        ensures memory { OnOk result (self.new.ran_out ≡ false) }
        ensures stopped { self.old.ran_out ≡ true
            → IsErr result × (self.new ≡ self.old) × (said.new.items ≡ said.old.items) }
    {
        if self.ran_out {
            return Err(AllocError);
        }
        match self.set_up_all(deployment, said) {
            Ok(()) => Ok(self.drove()),
            Err(error) => {
                self.ran_out = true;
                Err(error)
            }
        }
    }

    /// Gives a sensor a value, calls its driver, and delivers packets until none waits; appends the
    /// lines of this with what they showed. `Long` says that a schedule has no room for all of
    /// them. After memory ran out a prefix of what was due was appended, with all that the lines
    /// that were performed gave, and no call does anything more.
    pub fn reading(
        &mut self,
        deployment: &Deployment,
        device: u8,
        value: u16,
        said: &mut Vec<Said>,
    ) -> Result<Drove, AllocError>
        requires going { self.old.ran_out ≡ false → GoesOn T.mac deployment.now self.old }
        requires driven { IsDrivenSensor (deployed_as deployment.now) device }
        requires value { value < 32768 }
        ensures does { Does T.mac deployment.now result self.old self.new said.old.items
            said.new.items (reading device value) }
        ensures drove { IfOk result (λ drove. drove ≡ drove_of self.new.long) }
        ensures goes_on { OnOk result (GoesOn T.mac deployment.now self.new) }
        ensures ran_out { OnErr result (self.new.ran_out ≡ true) }
        ensures memory { OnOk result (self.new.ran_out ≡ false) }
        ensures stopped { self.old.ran_out ≡ true
            → IsErr result × (self.new ≡ self.old) × (said.new.items ≡ said.old.items) }
    {
        if self.ran_out {
            return Err(AllocError);
        }
        match self.read(deployment, device, value, said) {
            Ok(()) => Ok(self.drove()),
            Err(error) => {
                self.ran_out = true;
                Err(error)
            }
        }
    }

    /// How many steps of nodes the lines so far took. It takes no memory.
    pub fn steps(&self) -> u64
        ensures { result ≡ self.now.world.running.steps }
    {
        self.world.steps()
    }
}
