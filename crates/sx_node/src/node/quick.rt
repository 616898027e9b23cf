//! The fast path of a node's step. It is taken where no module runs and the last instruction was of
//! none, and where no section has a byte of the word at PC, which one look says. Where that look
//! says as much of the two words after it, the fast path is in the loop; else it is a call.
//!
//! Then neither the sections nor who ran before change anything, so what a step does is what its
//! instruction does. Most steps show nothing, which is told without a look at what was touched, and
//! with no word on what was seen.

ghost use Rattle.std.specs.Prelude.{◌≡◌, ◌==◌, ◌<◌, if◌then◌else◌, true, false, None, IsTrue};
ghost use Rattle.sx_rules.specs.Access.{holder, in_order};
ghost use Rattle.sx_bus.specs.Devices.{device_at};
ghost use Rattle.spec_machine.specs.declared.kinds.Event.TheVariants.{Quiet};
ghost use Rattle.spec_machine.specs.Memory.{word};
ghost use Rattle.spec_machine.specs.Run.{exec, untouched, Violated};
ghost use Rattle.spec_machine.specs.Rows.{program};
ghost use Rattle.spec_machine.specs.Step.{step, attempt, instruction, word_outside, pc_of, own_of};
ghost use Rattle.spec_machine.specs.Step.{start, entered_from, left};
ghost use Rattle.sx_executor.specs.Occupancy.{IsAhead};
ghost use Rattle.sx_node.specs.Telling.{told, Tells, IsIdle};

use crate::node::step::code_of;
use crate::node::{Node, reset_by};
use spec_machine::{Event, Seen, Touch};
use sx_bus::Bus;
use sx_core::{Stepped, step_long, step_quick};
use sx_executor::Executor;
use sx_executor::registers::PC;
use sx_rules::Violation;
use sx_tag::Tag;

/// Whether an instruction did nothing at devices.
pub(super) fn is_untouched(touch: &[Touch; 2]) -> bool
    ensures { IsTrue result → touch.now ≡ untouched }
{
    matches!(*touch, [Touch::Quiet, Touch::Quiet])
}

/// Whether a step shows anything.
pub(super) fn is_anything(seen: &Seen) -> bool
    ensures { told result seen.now ≡ seen.now }
{
    !is_untouched(&seen.touch) || !matches!(seen.event, Event::Quiet)
}

/// Leaves what a plain instruction did at devices, and says whether that is anything.
#[inline(never)]
fn tell_touches(touch: [Touch; 2], seen: &mut Seen) -> bool
    ensures { told result seen.new ≡ record { touch = touch; event = Quiet } }
{
    *seen = Seen {
        touch,
        event: Event::Quiet,
    };
    is_anything(seen)
}

/// Whether one look says that no section has a byte of the word at an address nor of the two after
/// it, and that no device is there. Then a step asks nothing of the words of its instruction.
#[inline(always)]
fn is_deep_apart<B: Bus>(executor: &Executor<B>, at: u16) -> bool
    ensures outside { IsTrue result → word_outside executor.now.sections.live at ≡ true }
    ensures order { IsTrue result → in_order executor.now.sections.live 0 at ≡ true }
    ensures own { IsTrue result → holder executor.now.sections.live at ≡ 0 }
    ensures memory { IsTrue result → device_at executor.now.devices at ≡ None }
    ensures ahead { IsTrue result
        → IsAhead executor.now.sections.live executor.now.devices 0 at }
{
    if executor.is_vacant(at) {
        return true;
    }
    executor.is_deep_in_gap(at)
}

impl<B: Bus, T: Tag> Node<B, T> {
    /// Whether no module runs, and the last instruction was of none.
    #[inline(always)]
    pub fn is_idle(&self) -> bool
        ensures { IsTrue result → IsIdle self.now }
    {
        self.running() == 0 && self.last == 0
    }

    /// One step of an idle node, as `step` takes it. Whether it shows something, as few steps do, or
    /// leaves a node that isn't idle; what is seen is then left in `seen`. So a loop of such steps
    /// ends where a module is entered, and none of them asks who ran before. Each caller has a
    /// number, and so code of its own (`step_quick`).
    #[inline(always)]
    pub fn step_idle<const CALLER: u8>(&mut self, seen: &mut Seen) -> bool
        requires boot { self.old.boot < u32.MAX }
        requires idle { IsIdle self.old }
        ensures state { self.new ≡ (step T.mac self.old).state }
        ensures shown { told result seen.new ≡ (step T.mac self.old).shown }
        ensures idle { result ≡ false → IsIdle self.new }
    {
        let pc = self.executor.register(PC);
        if is_deep_apart(&self.executor, pc) {
            return self.instruction_idle::<CALLER, true>(seen);
        }
        self.step_near(seen)
    }

    /// The same in each case. Its code stays out of the way of what most steps do, and `cold` keeps
    /// what only the end of a loop needs out of the registers of its steps.
    #[cold]
    #[inline(never)]
    fn step_near(&mut self, seen: &mut Seen) -> bool
        requires boot { self.old.boot < u32.MAX }
        requires idle { IsIdle self.old }
        ensures state { self.new ≡ (step T.mac self.old).state }
        ensures shown { told result seen.new ≡ (step T.mac self.old).shown }
        ensures idle { result ≡ false → IsIdle self.new }
    {
        let pc = self.executor.register(PC);
        if self.is_apart(pc) && self.executor.windows().at(pc).is_none() {
            self.executor.learn_gap(pc);
            return self.instruction_idle::<3, false>(seen);
        }
        *seen = self.step_learning();
        !self.is_idle() || is_anything(seen)
    }

    /// One step, after which the home of the module that runs is known, or the gap where PC is may
    /// be.
    #[inline(never)]
    pub fn step_learning(&mut self) -> Seen
        requires { self.old.boot < u32.MAX }
        ensures state { self.new ≡ (step T.mac self.old).state }
        ensures seen { result ≡ (step T.mac self.old).shown }
    {
        let seen = self.step();
        let pc = self.executor.register(PC);
        let cur = self.running();
        if cur == 0 {
            self.executor.learn_gap(pc);
        } else if !self.executor.is_at_home(cur, pc) {
            self.executor.learn_home(cur);
        }
        seen
    }

    /// The end of a step by a violation, which is always told.
    #[inline(never)]
    pub(super) fn end_reset(&mut self, violation: Violation, seen: &mut Seen) -> bool
        requires { self.old.boot < u32.MAX }
        ensures tells { Tells self.old (Violated violation) result seen.new self.new }
        ensures seen { result ≡ true }
    {
        self.reset();
        *seen = reset_by(violation);
        true
    }

    /// The instruction at PC, where the fast path is taken.
    #[inline(always)]
    #[tactic(auto, using(sx_executor::proofs::Rights::outside_word, sx_executor::proofs::Clear::none_found))]
    fn instruction_idle<const CALLER: u8, const AHEAD: bool>(&mut self, seen: &mut Seen) -> bool
        requires boot { self.old.boot < u32.MAX }
        requires own { own_of self.old ≡ 0 }
        requires idle { IsIdle self.old }
        requires outside { word_outside self.old.sections.live (pc_of self.old) ≡ true }
        requires memory { device_at self.old.devices (pc_of self.old) ≡ None }
        requires ahead { IsTrue AHEAD
            → IsAhead self.old.sections.live self.old.devices 0 (pc_of self.old) }
        ensures { Tells self.old (instruction T.mac self.old) result seen.new self.new }
    {
        let pc = self.executor.register(PC);
        let first = self.executor.read(true, pc);
        if self.executor.has_shortcut(pc, first) {
            self.plain_idle::<CALLER, AHEAD>(first, seen)
        } else {
            self.instruction_near(0, first, seen)
        }
    }

    /// A plain instruction with a shortcut.
    #[inline(always)]
    fn plain_idle<const CALLER: u8, const AHEAD: bool>(
        &mut self,
        first: u16,
        seen: &mut Seen,
    ) -> bool
        requires boot { self.old.boot < u32.MAX }
        requires own { own_of self.old ≡ 0 }
        requires idle { IsIdle self.old }
        requires ahead { IsTrue AHEAD
            → IsAhead self.old.sections.live self.old.devices 0 (pc_of self.old) }
        ensures { Tells self.old
            (exec self.old.sections 0 (program first self.old.regs) (start self.old))
            result seen.new self.new }
    {
        match step_quick::<B, CALLER, AHEAD>(&mut self.executor, first) {
            Stepped::Quiet => {
                self.stays_idle();
                false
            }
            Stepped::Answered(Err(violation)) => {
                self.executor.begin(0);
                self.end_reset(violation, seen)
            }
            Stepped::Answered(Ok(())) => {
                let touch = self.executor.touches();
                if is_untouched(&touch) {
                    self.stays_idle();
                    return false;
                }
                self.executor.begin(0);
                self.stays_idle();
                tell_touches(touch, seen)
            }
        }
    }

    /// An instruction without a shortcut, of the module `own` or with 0 of code outside. Its code
    /// stays out of the way of what most steps do. What is seen is left in `seen` in each case.
    #[inline(never)]
    pub(super) fn instruction_near(&mut self, own: u16, first: u16, seen: &mut Seen) -> bool
        requires boot { self.old.boot < u32.MAX }
        requires own { own ≡ own_of self.old }
        requires word { first ≡ word self.old.mem (pc_of self.old) }
        ensures tells { Tells self.old (instruction T.mac self.old) result seen.new self.new }
        ensures seen { told result seen.new ≡ seen.new }
    {
        match code_of(first) {
            Some(code) => match self.module_instruction(own, code) {
                Ok(shown) => {
                    *seen = shown;
                    is_anything(seen)
                }
                Err(violation) => self.end_reset(violation, seen),
            },
            None => self.plain_long(own, first, seen),
        }
    }

    /// A plain instruction without a shortcut.
    #[inline(always)]
    fn plain_long(&mut self, own: u16, first: u16, seen: &mut Seen) -> bool
        requires boot { self.old.boot < u32.MAX }
        requires own { own ≡ own_of self.old }
        ensures tells { Tells self.old
            (exec self.old.sections own (program first self.old.regs) (start self.old))
            result seen.new self.new }
        ensures seen { told result seen.new ≡ seen.new }
    {
        let caller = self.entered_from(own);
        self.executor.turn(own);
        match step_long(&mut self.executor, first) {
            Err(violation) => {
                self.executor.begin(0);
                self.end_reset(violation, seen)
            }
            Ok(()) => {
                let touch = self.executor.touches();
                self.executor.begin(0);
                self.ends_plain(own, caller, touch, seen);
                is_anything(seen)
            }
        }
    }

    /// The end of a plain instruction of `own`, which did this at devices.
    #[inline(never)]
    pub(super) fn ends_plain(&mut self, own: u16, caller: u16, touch: [Touch; 2], seen: &mut Seen)
        ensures state { self.new ≡ record self.old {
          cur = if holder self.old.sections.live (pc_of self.old) == own then own else 0;
          last = own;
          caller = caller;
        } }
        ensures seen { seen.new
            ≡ record { touch = touch; event = left self.old own self.old.regs } }
    {
        self.settle(own, caller);
        let stays = own == 0 || self.running() == own;
        let event = if stays {
            Event::Quiet
        } else {
            Event::Left(own)
        };
        *seen = Seen { touch, event };
    }

    /// Whether one look says that no section has a byte of the word at an address. Then what a step
    /// asks of the sections needs no look at them.
    fn is_apart(&self, at: u16) -> bool
        ensures outside { IsTrue result → word_outside self.now.sections.live at ≡ true }
        ensures order { IsTrue result → in_order self.now.sections.live self.now.cur at ≡ true }
        ensures own { IsTrue result → holder self.now.sections.live at ≡ 0 }
    {
        self.executor.is_apart(at)
    }

    /// Where no module runs and the last instruction was of none, `settle` changes nothing.
    #[inline(always)]
    fn stays_idle(&self)
        requires { IsIdle self.now }
        ensures cur { (if holder self.now.sections.live (pc_of self.now) == 0 then 0 else 0)
            ≡ self.now.cur }
        ensures caller { entered_from self.now 0 ≡ self.now.caller }
    {}
}
