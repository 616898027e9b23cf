//! The fast path of a node's step while a module runs. It is taken where the last instruction was
//! of that module too, and where PC is in its public section, whose bounds the executor knows
//! as those of the module's home.
//!
//! Then fetch and order pass, the module of the instruction is the one that runs, and its private
//! section is at hand. Where PC is at home again after an instruction, nothing of the node but what
//! the instruction did has changed.

ghost use Rattle.std.specs.Prelude.{◌≡◌, ◌==◌, ◌<◌, if◌then◌else◌, false, None, IsTrue};
ghost use Rattle.sx_rules.specs.Access.{holder};
ghost use Rattle.sx_bus.specs.Devices.{device_at};
ghost use Rattle.spec_machine.specs.declared.kinds.Event.TheVariants.{Quiet};
ghost use Rattle.spec_machine.specs.Memory.{word};
ghost use Rattle.spec_machine.specs.Run.{exec, untouched};
ghost use Rattle.spec_machine.specs.Rows.{program};
ghost use Rattle.spec_machine.specs.Step.{step, instruction, pc_of, own_of};
ghost use Rattle.spec_machine.specs.Step.{start, entered_from, left};
ghost use Rattle.sx_executor.specs.Occupancy.{IsAhead};
ghost use Rattle.sx_node.specs.Telling.{told, Tells, IsAtHome, IsDeepAtHome};

use crate::node::Node;
use crate::node::quick::is_untouched;
use spec_machine::{Seen, Touch};
use sx_bus::Bus;
use sx_core::{Stepped, step_quick};
use sx_executor::registers::PC;
use sx_rules::Violation;
use sx_tag::Tag;

impl<B: Bus, T: Tag> Node<B, T> {
    /// Whether a module goes on at home.
    #[inline(always)]
    pub fn is_at_home(&self) -> bool
        ensures { IsTrue result → IsAtHome self.now }
    {
        let cur = self.running();
        let pc = self.executor.register(PC);
        cur != 0 && self.last == cur && self.executor.is_at_home(cur, pc)
    }

    /// Whether a module goes on deep at home.
    #[inline(always)]
    pub fn is_deep_at_home(&self) -> bool
        ensures { IsTrue result → IsDeepAtHome self.now }
    {
        let cur = self.running();
        cur != 0 && self.last == cur && self.stays_deep_at_home()
    }

    /// One step of a module deep at home, as `step` takes it. Whether it shows something, or leaves
    /// no module deep at home; what is seen is then left in `seen`. So in a loop of such steps none
    /// looks at where PC is before its instruction. The caller has a number as in `step_idle`.
    #[inline(always)]
    pub fn step_at_home<const CALLER: u8>(&mut self, seen: &mut Seen) -> bool
        requires boot { self.old.boot < u32.MAX }
        requires home { IsDeepAtHome self.old }
        ensures state { self.new ≡ (step T.mac self.old).state }
        ensures shown { told result seen.new ≡ (step T.mac self.old).shown }
        ensures home { result ≡ false → IsDeepAtHome self.new }
    {
        self.instruction_inside::<CALLER, true>(seen)
    }

    /// One step, wherever PC is. Where a module is at home but not deep there, as on the last words
    /// of its text, the step is short, too.
    #[inline(never)]
    pub fn step_anywhere(&mut self, seen: &mut Seen) -> bool
        requires { self.old.boot < u32.MAX }
        ensures state { self.new ≡ (step T.mac self.old).state }
        ensures shown { told result seen.new ≡ (step T.mac self.old).shown }
    {
        let pc = self.executor.register(PC);
        if self.is_at_home() && self.executor.windows().at(pc).is_none() {
            return self.instruction_inside::<3, false>(seen);
        }
        *seen = self.step_learning();
        true
    }

    /// The instruction at PC, where the fast path is taken.
    #[inline(always)]
    #[tactic(auto, using(sx_executor::proofs::Rights::outside_word, sx_executor::proofs::Clear::none_found))]
    fn instruction_inside<const CALLER: u8, const AHEAD: bool>(&mut self, seen: &mut Seen) -> bool
        requires boot { self.old.boot < u32.MAX }
        requires home { IsAtHome self.old }
        requires memory { device_at self.old.devices (pc_of self.old) ≡ None }
        requires ahead { IsTrue AHEAD
            → IsAhead self.old.sections.live self.old.devices self.old.cur (pc_of self.old) }
        ensures tells { Tells self.old (instruction T.mac self.old) result seen.new self.new }
        ensures home { result ≡ false → IsDeepAtHome self.new }
    {
        let pc = self.executor.register(PC);
        let first = self.executor.read(true, pc);
        if self.executor.has_shortcut(pc, first) {
            self.plain_inside::<CALLER, AHEAD>(first, seen)
        } else {
            self.instruction_near(self.running(), first, seen) || !self.is_deep_at_home()
        }
    }

    /// A plain instruction with a shortcut. The turn is the module's already, and stays so.
    #[inline(always)]
    fn plain_inside<const CALLER: u8, const AHEAD: bool>(
        &mut self,
        first: u16,
        seen: &mut Seen,
    ) -> bool
        requires boot { self.old.boot < u32.MAX }
        requires home { IsAtHome self.old }
        requires ahead { IsTrue AHEAD
            → IsAhead self.old.sections.live self.old.devices self.old.cur (pc_of self.old) }
        ensures tells { Tells self.old
            (exec self.old.sections self.old.cur (program first self.old.regs) (start self.old))
            result seen.new self.new }
        ensures home { result ≡ false → IsDeepAtHome self.new }
    {
        match step_quick::<B, CALLER, AHEAD>(&mut self.executor, first) {
            Stepped::Quiet => self.ends_inside(seen),
            Stepped::Answered(Err(violation)) => {
                self.executor.begin(0);
                self.end_reset(violation, seen)
            }
            Stepped::Answered(Ok(())) => {
                let touch = self.executor.touches();
                if is_untouched(&touch) {
                    return self.ends_inside(seen);
                }
                let own = self.executor.own();
                self.executor.begin(0);
                self.ends_plain(own, self.caller, touch, seen);
                true
            }
        }
    }

    /// The end of an instruction of the module that did nothing at devices.
    #[inline(always)]
    fn ends_inside(&mut self, seen: &mut Seen) -> bool
        requires some { 0 < self.old.cur }
        requires last { self.old.last ≡ self.old.cur }
        ensures state { self.new ≡ record self.old {
          cur = if holder self.old.sections.live (pc_of self.old) == self.old.cur
              then self.old.cur else 0;
          last = self.old.cur;
          caller = entered_from self.old self.old.cur;
        } }
        ensures shown { told result seen.new
            ≡ record { touch = untouched; event = left self.old self.old.cur self.old.regs } }
        ensures home { result ≡ false → IsDeepAtHome self.new }
    {
        if self.stays_deep_at_home() {
            return false;
        }
        self.ends_plain(self.running(), self.caller, [Touch::Quiet; 2], seen);
        true
    }

    /// Whether PC is deep at home. Then the end of an instruction of the module changes nothing.
    #[inline(always)]
    fn stays_deep_at_home(&self) -> bool
        requires some { 0 < self.now.cur }
        requires last { self.now.last ≡ self.now.cur }
        ensures cur { IsTrue result
            → (if holder self.now.sections.live (pc_of self.now) == self.now.cur
            then self.now.cur else 0) ≡ self.now.cur }
        ensures caller { IsTrue result
            → entered_from self.now self.now.cur ≡ self.now.caller }
        ensures event { IsTrue result → left self.now self.now.cur self.now.regs ≡ Quiet }
        ensures home { IsTrue result → IsDeepAtHome self.now }
    {
        self.executor
            .is_deep_at_home(self.running(), self.executor.register(PC))
    }
}
