//! A line of an honest run is performed, and what it showed is told.

ghost use Rattle.std.specs.Prelude.{◌≡◌, ◌<◌, ◌+◌, ◌++◌, ◌∷◌, [], false, length, map, OnErr, OnOk};
ghost use Rattle.std.specs.Prelude.{vec_capacity, vec_len};
ghost use Rattle.sx_deploy.specs.SeenDeployment.{deployed_as};
ghost use Rattle.sx_sched.specs.InForm.{IsLine};
ghost use Rattle.sx_sched.specs.Seen.{line_of};
ghost use Rattle.sx_world.specs.Continued.{Acts, ActsInPart};
ghost use Rattle.sx_world.specs.Whole.{next};
ghost use Rattle.sx_world.specs.InMemory.{world_setting};
ghost use Rattle.sx_drive.specs.Honest.{SaidItem, SaidLine, performed, says};
ghost use Rattle.sx_drive.specs.Driving.{Does, GoesOn, all_said, is_full, left};

use crate::honest::Honest;
use crate::said::Said;
use std::alloc::AllocError;
use std::mem;
use sx_bus::Copied;
use sx_deploy::deployment::Deployment;
use sx_sched::lines::Line;
use sx_tag::Tag;
use sx_world::world::MOST_LINES;

impl<B: Copied, T: Tag> Honest<B, T> {
    /// Whether a line was left out, or a schedule has no room for one more.
    fn is_full(&self) -> bool
        ensures { result ≡ is_full self.now }
    {
        self.long || self.world.performed() == MOST_LINES
    }

    /// Leaves a line out.
    fn leave_out(&mut self)
        ensures { self.new ≡ left self.old }
    {
        self.shown.clear();
        self.long = true;
    }

    /// Performs a line, and keeps what it showed.
    fn act(&mut self, deployment: &Deployment, line: &Line) -> Result<(), AllocError>
        requires going { GoesOn T.mac deployment.now self.old }
        requires form { IsLine (deployed_as deployment.now).names (line_of line.now) }
        requires room { self.old.world.performed < MOST_LINES }
        ensures acted { OnOk result (Acts (world_setting T.mac deployment.now self.old.world)
            (line_of line.now) self.old.world self.new.world [] self.new.shown) }
        ensures front { OnErr result (ActsInPart (world_setting T.mac deployment.now
            self.old.world) (line_of line.now) self.old.world [] self.new.shown) }
        ensures counts { OnOk result (self.new.world.performed ≡ self.old.world.performed + 1) }
        ensures sites { self.new.world.sites ≡ self.old.world.sites }
        ensures waiting { self.new.waiting ≡ self.old.waiting }
        ensures long { self.new.long ≡ self.old.long }
        ensures ran_out { self.new.ran_out ≡ self.old.ran_out }
        ensures goes_on { OnOk result (self.new.world.ran_out ≡ false) }
        ensures made { self.old.world.ran_out ≡ false
            → self.new.world.made ≡ length self.new.shown }
    {
        self.shown.clear();
        self.world.act(deployment, line, &mut self.shown)
    }

    /// Appends a line with what it showed. That is kept, too, as a copy: where there is no memory
    /// for this, all was appended.
    fn tell(&mut self, line: Line, said: &mut Vec<Said>) -> Result<(), AllocError>
        requires { vec_len said.old < vec_capacity said.old }
        ensures said { all_said said.new.items ≡ all_said said.old.items
            ++ SaidLine (line_of line) ∷ map SaidItem self.old.shown }
        ensures ok { OnOk result (self.new ≡ self.old) }
        ensures world { self.new.world ≡ self.old.world }
        ensures ran_out { self.new.ran_out ≡ self.old.ran_out }
    {
        let items = mem::replace(&mut self.shown, Vec::new(self.alloc));
        let copied = self.shown.extend_from_slice(&items);
        said.push(Said { line, items })?;
        copied
    }

    /// Performs a line, and appends it with what it showed. Room for it is there before it is
    /// performed, so where memory runs out in its act, all that this gave is appended.
    fn perform(
        &mut self,
        deployment: &Deployment,
        line: Line,
        said: &mut Vec<Said>,
    ) -> Result<(), AllocError>
        requires going { GoesOn T.mac deployment.now self.old }
        requires form { IsLine (deployed_as deployment.now).names (line_of line) }
        requires room { is_full self.old ≡ false }
        ensures does { Does T.mac deployment.now result self.old self.new said.old.items
            said.new.items (λ set h. performed (line_of line) h (next set h.world (line_of line))) }
        ensures ran_out { self.new.ran_out ≡ self.old.ran_out }
    {
        said.reserve(1)?;
        let acted = self.act(deployment, &line);
        self.tell(line, said)?;
        acted
    }

    /// Performs a line, and appends it with what it showed. It is left out where a schedule has no
    /// room for it.
    pub(crate) fn say(
        &mut self,
        deployment: &Deployment,
        line: Line,
        said: &mut Vec<Said>,
    ) -> Result<(), AllocError>
        requires going { GoesOn T.mac deployment.now self.old }
        requires form { IsLine (deployed_as deployment.now).names (line_of line) }
        ensures does { Does T.mac deployment.now result self.old self.new said.old.items
            said.new.items (λ set. says set (line_of line)) }
        ensures goes_on { OnOk result (GoesOn T.mac deployment.now self.new) }
        ensures ran_out { self.new.ran_out ≡ self.old.ran_out }
    {
        if self.is_full() {
            self.leave_out();
            return Ok(());
        }
        self.perform(deployment, line, said)
    }
}
