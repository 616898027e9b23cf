//! The state of a node, its reset, and the calls that look at it.
//!
//! Its fields are seen here and in the child modules: `step`, `quick` and `at_home`, which run
//! instructions, `copied`, and `outside`, by which alone an act from outside reaches memory. While a
//! module runs, the calls of this file have its turn, too: that none reads memory is to be checked
//! by eye.

ghost use Rattle.std.specs.Prelude.{◌≡◌, ◌<◌, slice_index};
ghost use Rattle.sx_bus.specs.Memory.{blank};
ghost use Rattle.sx_bus.specs.Windows.{AreNew};
ghost use Rattle.sx_rules.specs.Access.{section_of};
ghost use Rattle.sx_rules.specs.declared.section.Section.{Section};
ghost use Rattle.spec_machine.specs.declared.kinds.Event.TheVariants.{Reset};
ghost use Rattle.spec_machine.specs.State.{power_on, no_exchange, reset};
ghost use Rattle.spec_machine.specs.Run.{untouched};
ghost use Rattle.spec_machine.specs.Guarding.{Guarded};

mod at_home;
mod copied;
mod outside;
mod quick;
mod step;

use spec_machine::{Event, Exchange, Seen, Touch};
use std::marker::Model;
use sx_bus::{Bus, Windows};
use sx_executor::Executor;
use sx_rules::{Section, Table, Violation};
use sx_tag::Tag;

/// A node over any memory and any tag.
#[derive(Drop)]
pub struct Node<B: Bus, T: Tag> {
    executor: Executor<B>,
    last: u16,
    caller: u16,
    boot: u32,
    key: [u8; 16],
    exchange: Exchange,
    tag: T,
}

impl<B: Bus, T: Tag> Model for Node<B, T> {
    ghost use Rattle.std.specs.Prelude.{◌≡◌};
    ghost use Rattle.spec_machine.specs.State.{State};
    ghost use Rattle.spec_machine.specs.Run.{untouched};

    ghost Value = { State };

    // Between acts nothing was touched, and the executor's turn is that of the module that runs.
    ghost invariant = { λ n. n.executor.touches ≡ untouched };

    ghost view = { λ n. record {
      regs = n.executor.regs;
      mem = n.executor.mem;
      devices = n.executor.devices;
      sections = n.executor.sections;
      cur = n.executor.own;
      last = n.last;
      caller = n.caller;
      boot = n.boot;
      key = n.key;
      exchange = n.exchange;
    } };
}

/// What is shown where a violation ended a step or an interrupt.
pub(crate) fn reset_by(violation: Violation) -> Seen
    ensures { result ≡ record { touch = untouched; event = Reset violation } }
{
    Seen {
        touch: [Touch::Quiet; 2],
        event: Event::Reset(violation),
    }
}

/// No header and no body yet.
fn no_exchange() -> Exchange
    ensures { result ≡ no_exchange }
{
    Exchange {
        ad: [0; 32],
        ad_len: 0,
        body: [0; 32],
        body_len: 0,
        own_key: false,
    }
}

impl<B: Bus, T: Tag> Node<B, T> {
    /// A node when its power is switched on: all registers are 0, there is no section, and the boot
    /// count is 0. As the conditions say, all bytes are 0, and no device was used. `key` is the
    /// node's own key.
    pub fn new(bus: B, tag: T, key: [u8; 16], windows: Windows) -> Node<B, T>
        requires blank { B.bytes bus ≡ blank 65536 }
        requires new { AreNew windows }
        ensures { result ≡ power_on key windows }
    {
        Node {
            executor: Executor::new(bus, windows),
            last: 0,
            caller: 0,
            boot: 0,
            key,
            exchange: no_exchange(),
            tag,
        }
    }

    /// Clears memory, registers, sections and the sensors' fresh marks, sets PC to 0 and raises the
    /// boot count by one. The sensors keep their values.
    pub fn reset(&mut self)
        requires { self.old.boot < u32.MAX }
        ensures state { self.new ≡ reset self.old }
        ensures guarded { (s : Section)
            → Guarded (Unit {0}) (λ a. record { state = reset a; shown = tt }) s self.old }
    {
        self.executor.reset();
        self.last = 0;
        self.caller = 0;
        self.boot += 1;
        self.exchange = no_exchange();
    }

    /// The id of the module that runs, or 0: the module of the last instruction runs where PC was
    /// in its public section afterwards.
    #[inline(always)]
    pub fn running(&self) -> u16
        ensures { result ≡ self.now.cur }
    {
        self.executor.own()
    }

    /// The value of a register.
    pub fn reg(&self, reg: u8) -> u16
        requires { reg < 16 }
        ensures { result ≡ slice_index self.now.regs reg }
    {
        self.executor.register(reg)
    }

    /// How many resets the node has had.
    pub fn boot(&self) -> u32
        ensures { result ≡ self.now.boot }
    {
        self.boot
    }

    /// The live section with this id; None exactly where there is none.
    pub fn section(&self, id: u16) -> Option<Section>
        ensures { result ≡ section_of self.now.sections.live id }
    {
        self.executor.section(id)
    }

    /// The sections.
    pub(crate) fn table(&self) -> &Table
        ensures { result.now ≡ self.now.sections }
    {
        self.executor.table()
    }

    /// The devices.
    pub(crate) fn windows(&self) -> &Windows
        ensures { result.now ≡ self.now.devices }
    {
        self.executor.windows()
    }

    /// The header and the body of the last `Wrapped` or `Unwrapped`.
    pub fn exchange(&self) -> &Exchange
        ensures { result.now ≡ self.now.exchange }
    {
        &self.exchange
    }
}
