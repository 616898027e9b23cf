//! One step of a node: the tests of PC, and then the instruction.

ghost use Rattle.std.specs.Prelude.{◌≡◌, ◌==◌, ◌-◌, ◌<◌, if◌then◌else◌, true, false};
ghost use Rattle.std.specs.Prelude.{None, MatchOption};
ghost use Rattle.sx_rules.specs.Access.{Lives, holder};
ghost use Rattle.sx_rules.specs.Placed.{Placed};
ghost use Rattle.sx_bus.specs.Devices.{device_at};
ghost use Rattle.sx_rules.specs.declared.section.Section.{Section};
ghost use Rattle.spec_machine.specs.declared.kinds.Seen.{Seen};
ghost use Rattle.spec_machine.specs.Run.{exec};
ghost use Rattle.spec_machine.specs.Rows.{program};
ghost use Rattle.spec_machine.specs.Modules.{is_code, module_instruction};
ghost use Rattle.spec_machine.specs.Step.{step, attempt, instruction, given_at_pc, is_module_word};
ghost use Rattle.spec_machine.specs.Step.{word_outside, pc_of, own_of, start, entered_from};
ghost use Rattle.spec_machine.specs.Answers.{Attempts};
ghost use Rattle.spec_machine.specs.Guard.{Foreign};
ghost use Rattle.spec_machine.specs.Guarding.{Guarded};
ghost use Rattle.sx_sancus.specs.Told.{event_of};

use crate::node::{Node, reset_by};
use spec_machine::{Event, Seen, Touch};
use sx_bus::Bus;
use sx_core::step_plain;
use sx_executor::registers::PC;
use sx_rules::Violation;
use sx_sancus::{SancusEvent, step_sancus};
use sx_tag::Tag;

/// The module instructions are the eight words from here on, but one.
const FIRST_MODULE_WORD: u16 = 0x1380;

const NO_MODULE_WORD: u16 = 0x1383;

/// The code of the module instruction whose word it is, or None.
pub(super) fn code_of(word: u16) -> Option<u8>
    ensures { MatchOption result (is_module_word word ≡ false) (λ code.
        (is_module_word word ≡ true) × (code ≡ word - 0x1380) × (is_code code ≡ true)) }
{
    // The high byte alone tells most words apart.
    if word / 256 != FIRST_MODULE_WORD / 256 {
        return None;
    }
    if word < FIRST_MODULE_WORD || word >= FIRST_MODULE_WORD + 8 || word == NO_MODULE_WORD {
        return None;
    }
    Some((word - FIRST_MODULE_WORD) as u8)
}

/// What a step shows of a module instruction of `own`.
fn event_of(own: u16, event: SancusEvent) -> Event
    ensures { result ≡ event_of own event }
{
    match event {
        SancusEvent::Quiet => Event::Quiet,
        SancusEvent::Protected(id) => Event::Protected(id),
        SancusEvent::Removed(id) => Event::Removed(id),
        SancusEvent::Wrapped => Event::Wrapped(own),
        SancusEvent::Unwrapped => Event::Unwrapped(own),
    }
}

impl<B: Bus, T: Tag> Node<B, T> {
    /// Executes one instruction. A violation resets the node; its cause is then the event, both
    /// touches are quiet, and nothing else of the step is seen.
    pub fn step(&mut self) -> Seen
        requires { self.old.boot < u32.MAX }
        ensures state { self.new ≡ (step T.mac self.old).state }
        ensures seen { result ≡ (step T.mac self.old).shown }
        ensures guarded { (s : Section) → Placed self.old.sections → Lives self.old.sections.live s
            → Foreign s self.old → Guarded Seen (step T.mac) s self.old }
    {
        match self.attempt() {
            Ok(seen) => seen,
            Err(violation) => {
                self.reset();
                reset_by(violation)
            }
        }
    }

    /// The instruction at PC, up to its first violation.
    #[inline(always)]
    fn attempt(&mut self) -> Result<Seen, Violation>
        ensures { Attempts self.old (attempt T.mac self.old) result self.new }
    {
        let pc = self.executor.register(PC);
        if !self.word_outside(pc) {
            return Err(Violation::Fetch);
        }
        if let Some(_device) = self.executor.windows().at(pc) {
            return Err(Violation::Device);
        }
        if !self.executor.table().in_order(self.running(), pc) {
            return Err(Violation::Order);
        }
        let own = self.executor.holder(pc);
        self.instruction(own)
    }

    /// Whether the word at an address lies in no private section.
    fn word_outside(&self, at: u16) -> bool
        ensures { result ≡ word_outside self.now.sections.live at }
    {
        self.executor.table().outside_private_word(at)
    }

    /// The instruction at PC, where it may be run: its word lies in no private section and is no
    /// device's.
    #[inline(always)]
    #[tactic(auto, using(sx_executor::proofs::Rights::outside_word, sx_executor::proofs::Clear::none_found))]
    fn instruction(&mut self, own: u16) -> Result<Seen, Violation>
        requires own { own ≡ own_of self.old }
        requires outside { word_outside self.old.sections.live (pc_of self.old) ≡ true }
        requires memory { device_at self.old.devices (pc_of self.old) ≡ None }
        ensures { Attempts self.old (instruction T.mac self.old) result self.new }
    {
        let pc = self.executor.register(PC);
        let word = self.executor.read(true, pc);
        match code_of(word) {
            Some(code) => self.module_instruction(own, code),
            None => self.plain_instruction(own, word),
        }
    }

    /// A module instruction. Its code stays out of the way of the plain ones'.
    #[inline(never)]
    pub(super) fn module_instruction(&mut self, own: u16, code: u8) -> Result<Seen, Violation>
        requires own { own ≡ own_of self.old }
        requires code { is_code code ≡ true }
        ensures { Attempts self.old
            (module_instruction T.mac code (given_at_pc T.mac self.old) self.old.mem) result
            self.new }
    {
        let caller = self.entered_from(own);
        self.executor.begin(own);
        let event = step_sancus(
            &mut self.executor,
            code,
            caller,
            &mut self.tag,
            &self.key,
            self.boot,
            &mut self.exchange,
        );
        self.executor.begin(0);
        let event = event?;
        self.settle(own, caller);
        Ok(Seen {
            touch: [Touch::Quiet; 2],
            event: event_of(own, event),
        })
    }

    #[inline(always)]
    fn plain_instruction(&mut self, own: u16, word: u16) -> Result<Seen, Violation>
        requires { own ≡ own_of self.old }
        ensures { Attempts self.old
            (exec self.old.sections own (program word self.old.regs) (start self.old))
            result self.new }
    {
        let caller = self.entered_from(own);
        self.executor.begin(own);
        let done = step_plain(&mut self.executor, word);
        let touch = self.executor.touches();
        self.executor.begin(0);
        done?;
        self.settle(own, caller);
        let stays = own == 0 || self.running() == own;
        let event = if stays {
            Event::Quiet
        } else {
            Event::Left(own)
        };
        Ok(Seen { touch, event })
    }

    /// The module that entered that of the instruction, or 0.
    pub(super) fn entered_from(&self, own: u16) -> u16
        ensures { result ≡ entered_from self.now own }
    {
        if own == self.running() {
            self.caller
        } else if self.executor.section(self.last).is_some() {
            self.last
        } else {
            0
        }
    }

    /// Keeps which module runs after an instruction of `own`: it has the turn where PC is in its
    /// public section.
    pub(super) fn settle(&mut self, own: u16, caller: u16)
        ensures { self.new ≡ record self.old {
          cur = if holder self.old.sections.live (pc_of self.old) == own then own else 0;
          last = own;
          caller = caller;
        } }
    {
        if own != 0 && self.executor.holder(self.executor.register(PC)) == own {
            self.executor.turn(own);
        } else {
            self.executor.turn(0);
        }
        self.last = own;
        self.caller = caller;
    }
}
