//! Timelines: a run's lines, with checkpoints on the way.

ghost use Rattle.std.specs.Prelude.{◌≡◌, ◌+◌, ◌-◌, ◌∷◌, ◌++◌, ◌<◌, ◌≤◌, [], IfOk, OnErr, OnOk, length};
ghost use Rattle.std.specs.Prelude.{map, take};
ghost use Rattle.sx_deploy.specs.Law.{IsSoundDeployment};
ghost use Rattle.sx_deploy.specs.SeenDeployment.{deployed_as};
ghost use Rattle.sx_sched.specs.InForm.{IsLine};
ghost use Rattle.sx_sched.specs.Seen.{line_of};
ghost use Rattle.spec_run.specs.Accepted.{AreImages, setting};
ghost use Rattle.sx_image.specs.InMemory.{texts_of};
ghost use Rattle.spec_run.specs.AcceptedLaw.{AreLines};
ghost use Rattle.spec_run.specs.Law.{IsSoundSetting};
ghost use Rattle.spec_run.specs.State.{nodes_from};
ghost use Rattle.sx_world.specs.InMemory.{image_setting, world_setting};
ghost use Rattle.sx_snap.specs.Timeline.{items_at};
ghost use Rattle.sx_snap.specs.Checkpoints.{IsTimeline, NextCheckpoint, StandsAfter};

use std::alloc::{AllocError, Global};
use std::marker::Model;
use sx_bus::{Bus, Copied};
use sx_deploy::deployment::Deployment;
use sx_image::Image;
use sx_node::Node;
use sx_sched::lines::Line;
use sx_tag::Tag;
use sx_trace::items::Item;
use sx_world::world::World;

/// The lines of a run, with a world of its own after each so many of them.
#[derive(Drop)]
pub struct Timeline<B: Bus, T: Tag> {
    alloc: Global,
    /// After how many lines there is a checkpoint.
    every: u32,
    lines: Vec<Line>,
    /// The worlds before all lines, after the first `every` of them, and so on.
    checkpoints: Vec<World<B, T>>,
}

impl<B: Bus, T: Tag> Model for Timeline<B, T> {
    ghost use Rattle.std.specs.Prelude.{map};
    ghost use Rattle.sx_sched.specs.Seen.{line_of};
    ghost use Rattle.sx_snap.specs.Kept.{Kept, first_sites};

    ghost Value = { Kept };

    ghost view = { λ t. record {
      sites = first_sites t.checkpoints.items;
      lines = map line_of t.lines.items;
      every = t.every;
      checkpoints = t.checkpoints.items;
    } };
}

/// Performs the lines from one index up to another in a world that is after those before, and
/// drops their items.
fn replay<B: Copied, T: Tag>(
    alloc: Global,
    plan: &Deployment,
    lines: &[Line],
    from: usize,
    to: usize,
    world: &mut World<B, T>,
) -> Result<(), AllocError>
    requires sound { IsSoundDeployment (deployed_as plan.now) }
    requires images { IsSoundSetting (world_setting T.mac plan.now world.old) }
    requires form { AreLines (deployed_as plan.now).names (map line_of lines.now) }
    requires few { length lines.now ≤ 65536 }
    requires within { to ≤ length lines.now }
    requires ordered { from ≤ to }
    requires stands { StandsAfter (world_setting T.mac plan.now world.old)
        (take from (map line_of lines.now)) world.old }
    ensures { OnOk result (StandsAfter (world_setting T.mac plan.now world.old)
        (take to (map line_of lines.now)) world.new) }
{
    let mut items = Vec::new(alloc);
    for i in from..to {
        items.clear();
        let line = &lines[i];
        world.act(plan, line, &mut items)?;
    }
    Ok(())
}

impl<B: Copied, T: Tag> Timeline<B, T> {
    /// The timeline of a deployment with these images of its modules, without a line, where all
    /// nodes were just switched on. There will be a checkpoint after each `every` lines, of which
    /// there is at least one. It fails only where memory runs out.
    pub fn new(
        alloc: Global,
        tag: T,
        plan: &Deployment,
        images: &[Image],
        nodes: Vec<Node<B, T>>,
        every: u32,
    ) -> Result<Timeline<B, T>, AllocError>
        requires sound { IsSoundDeployment (deployed_as plan.now) }
        requires many { length images.now ≡ length plan.now.app.parts.items }
        requires images { AreImages T.mac (deployed_as plan.now) (texts_of images.now) }
        requires nodes { nodes.items ≡ nodes_from (image_setting T.mac plan.now images.now) 0
            (deployed_as plan.now).keys }
        requires some { 1 ≤ every }
        ensures timeline { IfOk result (λ t. IsTimeline T.mac (deployed_as plan.now) t) }
        ensures sites { IfOk result (λ t.
            t.sites ≡ (image_setting T.mac plan.now images.now).sites) }
        ensures lines { IfOk result (λ t. t.lines ≡ []) }
        ensures every { IfOk result (λ t. t.every ≡ every) }
    {
        let world = World::new(alloc, tag, plan, images, nodes)?;
        let mut checkpoints = Vec::new(alloc);
        checkpoints.push(world)?;
        Ok(Timeline {
            alloc,
            every,
            lines: Vec::new(alloc),
            checkpoints,
        })
    }

    /// The number of lines.
    pub fn count(&self) -> usize
        ensures { result ≡ length self.now.lines }
    {
        self.lines.len()
    }

    /// The world after this many lines: a copy of the nearest checkpoint at or before them, in
    /// which the lines from there were performed, fewer than `every`.
    fn world_at(&self, plan: &Deployment, at: usize) -> Result<World<B, T>, AllocError>
        requires timeline { IsTimeline T.mac (deployed_as plan.now) self.now }
        requires within { at ≤ length self.now.lines }
        ensures { IfOk result (λ world. StandsAfter
            (setting T.mac (deployed_as plan.now) self.now.sites) (take at self.now.lines) world) }
    {
        let every = self.every as usize;
        let near = at / every;
        let checkpoint = &self.checkpoints[near];
        let mut world = checkpoint.copy(self.alloc)?;
        replay(self.alloc, plan, &self.lines, near * every, at, &mut world)?;
        Ok(world)
    }

    /// The world after all lines and one more, where that is a checkpoint's place.
    fn next_checkpoint(
        &self,
        plan: &Deployment,
        line: &Line,
    ) -> Result<Option<World<B, T>>, AllocError>
        requires timeline { IsTimeline T.mac (deployed_as plan.now) self.now }
        requires few { length self.now.lines < 65536 }
        requires form { IsLine (deployed_as plan.now).names (line_of line.now) }
        ensures { IfOk result (λ next. NextCheckpoint T.mac (deployed_as plan.now) self.now
            (line_of line.now) next) }
    {
        if self.lines.len() + 1 < self.checkpoints.len() * (self.every as usize) {
            return Ok(None);
        }
        let long = self.count();
        let mut world = self.world_at(plan, long)?;
        world.act(plan, line, &mut Vec::new(self.alloc))?;
        Ok(Some(world))
    }

    /// Adds a line and a checkpoint. After an error, which says that memory ran out, the timeline
    /// is as before.
    fn push_both(&mut self, line: Line, world: World<B, T>) -> Result<(), AllocError>
        requires { 1 ≤ length self.old.checkpoints }
        ensures ok { OnOk result (self.new ≡ record {
          sites = self.old.sites;
          lines = self.old.lines ++ line_of line ∷ [];
          every = self.old.every;
          checkpoints = self.old.checkpoints ++ world ∷ [];
        }) }
        ensures err { OnErr result (self.new ≡ self.old) }
    {
        let count = self.lines.len();
        self.lines.push(line)?;
        match self.checkpoints.push(world) {
            Ok(()) => Ok(()),
            Err(_) => {
                self.lines.truncate(count);
                Err(AllocError)
            }
        }
    }

    /// Adds a line after the others, and a checkpoint where it is time for one. After an error,
    /// which says that memory ran out, the timeline is as before.
    pub fn push(&mut self, plan: &Deployment, line: Line) -> Result<(), AllocError>
        requires timeline { IsTimeline T.mac (deployed_as plan.now) self.old }
        requires few { length self.old.lines < 65536 }
        requires form { IsLine (deployed_as plan.now).names (line_of line) }
        ensures timeline { IsTimeline T.mac (deployed_as plan.now) self.new }
        ensures sites { self.new.sites ≡ self.old.sites }
        ensures added { OnOk result (self.new.lines ≡ self.old.lines ++ line_of line ∷ []) }
        ensures kept { OnErr result (self.new ≡ self.old) }
    {
        match self.next_checkpoint(plan, &line)? {
            Some(world) => self.push_both(line, world),
            None => {
                self.lines.push(line)?;
                Ok(())
            }
        }
    }

    /// The world after this many lines.
    pub fn seek(&self, plan: &Deployment, at: u32) -> Result<World<B, T>, AllocError>
        requires timeline { IsTimeline T.mac (deployed_as plan.now) self.now }
        requires within { at ≤ length self.now.lines }
        ensures world { IfOk result (λ world. StandsAfter
            (setting T.mac (deployed_as plan.now) self.now.sites) (take at self.now.lines) world) }
        ensures nodes { IfOk result (λ world. length world.running.nodes
            ≡ length (deployed_as plan.now).names.nodes) }
    {
        let world = self.world_at(plan, at as usize)?;
        Ok(world)
    }

    /// Takes a world that is after so many lines to where it is after this many. It performs the
    /// lines between, unless it is past them or a checkpoint is nearer: that is copied then.
    pub fn advance(
        &self,
        plan: &Deployment,
        world: &mut World<B, T>,
        from: u32,
        to: u32,
    ) -> Result<(), AllocError>
        requires timeline { IsTimeline T.mac (deployed_as plan.now) self.now }
        requires within { to ≤ length self.now.lines }
        requires stands { StandsAfter (setting T.mac (deployed_as plan.now) self.now.sites)
            (take from self.now.lines) world.old }
        ensures world { OnOk result (StandsAfter
            (setting T.mac (deployed_as plan.now) self.now.sites) (take to self.now.lines)
            world.new) }
    {
        if to < from || from / self.every < to / self.every {
            *world = self.world_at(plan, to as usize)?;
            return Ok(());
        }
        replay(
            self.alloc,
            plan,
            &self.lines,
            from as usize,
            to as usize,
            world,
        )
    }

    /// The items of the line with this number, counted from 1, in a world that is after those
    /// before it.
    pub fn items_in(
        &self,
        plan: &Deployment,
        mut world: World<B, T>,
        at: u32,
    ) -> Result<Vec<Item>, AllocError>
        requires timeline { IsTimeline T.mac (deployed_as plan.now) self.now }
        requires some { 1 ≤ at }
        requires within { at ≤ length self.now.lines }
        requires stands { StandsAfter (setting T.mac (deployed_as plan.now) self.now.sites)
            (take (at - 1) self.now.lines) world }
        ensures { IfOk result (λ items. items.items
            ≡ items_at (setting T.mac (deployed_as plan.now) self.now.sites) self.now.lines at) }
    {
        let mut items = Vec::new(self.alloc);
        let line = &self.lines[at as usize - 1];
        world.act(plan, line, &mut items)?;
        Ok(items)
    }

    /// The items of the line with this number, counted from 1.
    pub fn items(&self, plan: &Deployment, at: u32) -> Result<Vec<Item>, AllocError>
        requires timeline { IsTimeline T.mac (deployed_as plan.now) self.now }
        requires some { 1 ≤ at }
        requires within { at ≤ length self.now.lines }
        ensures { IfOk result (λ items. items.items
            ≡ items_at (setting T.mac (deployed_as plan.now) self.now.sites) self.now.lines at) }
    {
        let world = self.world_at(plan, at as usize - 1)?;
        self.items_in(plan, world, at)
    }
}
