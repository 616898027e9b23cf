//! What acts from outside do to a node's memory, registers and devices. They see no field of a node,
//! so these calls are their only way there.
//!
//! Each requires that no module runs. Then the turn is that of code outside every module, and what a
//! body here does to memory, it does by the right of that code.

ghost use Rattle.std.specs.Prelude.{◌≡◌, ◌≢◌, ◌==◌, ◌+◌, ◌<◌, ◌≤◌, if◌then◌else◌, true, length};
ghost use Rattle.std.specs.Prelude.{slice_get, IfSome};
ghost use Rattle.sx_bus.specs.declared.devices.Kind.TheVariants.{Sensor};
ghost use Rattle.sx_bus.specs.Devices.{with_sample};
ghost use Rattle.sx_rules.specs.declared.access.Access.TheVariants.{Read, Write};
ghost use Rattle.spec_machine.specs.Acts.{interrupt};
ghost use Rattle.spec_machine.specs.Answers.{Interrupts};
ghost use Rattle.spec_machine.specs.Memory.{bytes_from, put_bytes};
ghost use Rattle.spec_machine.specs.Registers.{set_reg};
ghost use Rattle.spec_machine.specs.Run.{exec, may_range};
ghost use Rattle.spec_machine.specs.Step.{start};
ghost use Rattle.sx_executor.specs.Machine.{IsClear};

use crate::node::Node;
use spec_machine::{Event, Seen};
use sx_bus::Bus;
use sx_core::interrupt;
use sx_executor::registers::PC;
use sx_rules::Violation;
use sx_tag::Tag;

impl<B: Bus, T: Tag> Node<B, T> {
    /// Writes bytes from an address on. Code outside may write them, and no device meets them.
    pub(crate) fn write_bytes(&mut self, at: u16, bytes: &[u8])
        requires outside { self.old.cur ≡ 0 }
        requires within { at + length bytes.now ≤ 65536 }
        requires right { may_range self.old.sections.live 0 Write at (length bytes.now) ≡ true }
        requires memory { IsClear self.old.devices at (length bytes.now) }
        ensures { self.new ≡ record self.old { mem = put_bytes self.old.mem at bytes.now } }
    {
        self.executor.write_bytes(at, bytes);
    }

    /// Copies the bytes from an address on. Code outside may read them, and no device meets them.
    pub(crate) fn read_bytes(&self, at: u16, into: &mut [u8])
        requires outside { self.now.cur ≡ 0 }
        requires within { at + length into.old ≤ 65536 }
        requires right { may_range self.now.sections.live 0 Read at (length into.old) ≡ true }
        requires memory { IsClear self.now.devices at (length into.old) }
        ensures { into.new ≡ bytes_from self.now.mem at (length into.old) }
    {
        self.executor.read_bytes(at, into);
    }

    /// Sets a register. A set of PC ends what was known of the last instruction.
    pub(crate) fn set_register(&mut self, reg: u8, value: u16)
        requires outside { self.old.cur ≡ 0 }
        requires below { reg < 16 }
        requires settable { reg ≢ 3 }
        ensures { self.new ≡ record self.old {
          regs = set_reg self.old.regs reg value;
          last = if reg == 0 then 0 else self.old.last;
        } }
    {
        self.executor.set_register(reg, value);
        if reg == PC {
            self.last = 0;
        }
    }

    /// A sensor's new sample.
    pub(crate) fn set_sample(&mut self, device: u8, value: u16)
        requires outside { self.old.cur ≡ 0 }
        requires device { device < length self.old.devices }
        requires sensor { IfSome (slice_get self.old.devices device)
            (λ window. window.kind ≡ Sensor) }
        requires value { value < 32768 }
        ensures { self.new ≡ record self.old {
          devices = with_sample self.old.devices device value;
        } }
    {
        self.executor.sense(device, value);
    }

    /// The interrupt of a line, up to its first violation. It is code outside.
    pub(crate) fn interrupt(&mut self, line: u8) -> Result<Seen, Violation>
        requires outside { self.old.cur ≡ 0 }
        requires line { line ≤ 14 }
        ensures { Interrupts self.old
            (exec self.old.sections 0 (interrupt line self.old.regs) (start self.old))
            result self.new }
    {
        let done = interrupt(&mut self.executor, line);
        let touch = self.executor.touches();
        self.executor.begin(0);
        done?;
        self.last = 0;
        Ok(Seen {
            touch,
            event: Event::Quiet,
        })
    }
}
