//! Acts on a node from outside, but for `reset`: what refuses each, and what it does.
//!
//! No field of a node is seen here. So an act reaches memory by the calls of `node::outside` alone,
//! each of which requires that no module runs: none touches a byte before it has asked that.

ghost use Rattle.std.specs.Prelude.{◌≡◌, ◌≢◌, ◌<◌, ◌≤◌, ◌+◌, ℕ, false, length, slice_get, List};
ghost use Rattle.std.specs.Prelude.{Ok, Err, Result, Option, Some, IfSome, IfNone, IfErr, OnOk};
ghost use Rattle.sx_rules.specs.Access.{Lives};
ghost use Rattle.sx_rules.specs.Placed.{Placed};
ghost use Rattle.sx_rules.specs.declared.section.Section.{Section};
ghost use Rattle.sx_bus.specs.declared.devices.Kind.TheVariants.{Sensor};
ghost use Rattle.spec_machine.specs.declared.kinds.Refused.{Refused};
ghost use Rattle.spec_machine.specs.declared.kinds.Seen.{Seen};
ghost use Rattle.spec_machine.specs.Acts.{put_refusal, take_refusal, busy, irq_refusal};
ghost use Rattle.spec_machine.specs.Acts.{put, take, set, sense, irq};
ghost use Rattle.spec_machine.specs.Ranges.{meets_private, meets_public};
ghost use Rattle.spec_machine.specs.Guarding.{Guarded};
ghost use Rattle.sx_executor.specs.Machine.{IsClear};

use crate::node::{Node, reset_by};
use spec_machine::{Refused, Seen};
use sx_bus::Bus;
use sx_executor::Range;
use sx_executor::registers::SR;
use sx_tag::Tag;

impl<B: Bus, T: Tag> Node<B, T> {
    fn busy(&self) -> Option<Refused>
        ensures refusal { result ≡ busy self.now }
        ensures outside { IfNone result (self.now.cur ≡ 0) }
    {
        if self.running() == 0 {
            None
        } else {
            Some(Refused::Busy)
        }
    }

    fn put_refusal(&self, at: u16, count: usize) -> Option<Refused>
        ensures refusal { result ≡ put_refusal self.now at count }
        ensures outside { IfNone result (self.now.cur ≡ 0) }
        ensures within { IfNone result (at + count ≤ 65536) }
        ensures public { IfNone result (meets_public self.now.sections.live at count ≡ false) }
        ensures private { IfNone result (meets_private self.now.sections.live at count ≡ false) }
        ensures memory { IfNone result (IsClear self.now.devices at count) }
    {
        if self.running() != 0 {
            return Some(Refused::Busy);
        }
        let Some(range) = Range::new(at, count) else {
            return Some(Refused::Guarded);
        };
        let live = self.table().live();
        if range.meets_public(live)
            || range.meets_private(live)
            || range.meets_device(self.windows().places())
        {
            return Some(Refused::Guarded);
        }
        None
    }

    fn take_refusal(&self, at: u16, count: usize) -> Option<Refused>
        ensures refusal { result ≡ take_refusal self.now at count }
        ensures outside { IfNone result (self.now.cur ≡ 0) }
        ensures within { IfNone result (at + count ≤ 65536) }
        ensures private { IfNone result (meets_private self.now.sections.live at count ≡ false) }
        ensures memory { IfNone result (IsClear self.now.devices at count) }
    {
        if self.running() != 0 {
            return Some(Refused::Busy);
        }
        let Some(range) = Range::new(at, count) else {
            return Some(Refused::Guarded);
        };
        if range.meets_private(self.table().live()) || range.meets_device(self.windows().places()) {
            return Some(Refused::Guarded);
        }
        None
    }

    /// Writes bytes from an address on. `Busy` exactly where a module runs; else `Guarded` exactly
    /// where they pass 0xFFFF or meet a public or private section or a device's word.
    #[tactic(auto, using(sx_executor::proofs::Rights::apart_writable))]
    pub fn put(&mut self, at: u16, bytes: &[u8]) -> Result<(), Refused>
        ensures state { self.new ≡ (put self.old at bytes.now).state }
        ensures answer { result ≡ (put self.old at bytes.now).shown }
        ensures guarded { (s : Section) → Lives self.old.sections.live s
            → Guarded (Result (Unit {0}) Refused) (λ a. put a at bytes.now) s self.old }
    {
        if let Some(refused) = self.put_refusal(at, bytes.len()) {
            return Err(refused);
        }
        self.write_bytes(at, bytes);
        Ok(())
    }

    /// Copies the bytes from an address on. `Busy` exactly where a module runs; else `Guarded`
    /// exactly where they pass 0xFFFF or meet a private section or a device's word. `into` is
    /// unchanged where the call is refused.
    #[tactic(auto, using(sx_executor::proofs::Rights::apart_readable))]
    pub fn take(&self, at: u16, into: &mut [u8]) -> Result<(), Refused>
        ensures taken { OnOk result ((take self.now at (length into.old)).shown ≡ Ok into.new) }
        ensures refused { IfErr result (λ refused.
            ((take self.now at (length into.old)).shown ≡ Err refused) × (into.new ≡ into.old)) }
        ensures guarded { (s : Section) → Lives self.now.sections.live s
            → Guarded (Result (List ℕ) Refused) (λ a. take a at (length into.old)) s self.now }
    {
        if let Some(refused) = self.take_refusal(at, into.len()) {
            return Err(refused);
        }
        self.read_bytes(at, into);
        Ok(())
    }

    /// Sets a register: bit 0 of PC and SP stays 0, and so do bits 9 to 15 of SR. `Busy` exactly
    /// where a module runs.
    pub fn set(&mut self, reg: u8, value: u16) -> Result<(), Refused>
        requires below { reg < 16 }
        requires settable { reg ≢ 3 }
        ensures state { self.new ≡ (set self.old reg value).state }
        ensures answer { result ≡ (set self.old reg value).shown }
        ensures guarded { (s : Section) → Lives self.old.sections.live s
            → Guarded (Result (Unit {0}) Refused) (λ a. set a reg value) s self.old }
    {
        if let Some(refused) = self.busy() {
            return Err(refused);
        }
        self.set_register(reg, value);
        Ok(())
    }

    /// A sensor takes a sample, and is fresh. `Busy` exactly where a module runs.
    pub fn sense(&mut self, device: u8, value: u16) -> Result<(), Refused>
        requires device { device < length self.old.devices }
        requires sensor { IfSome (slice_get self.old.devices device)
            (λ window. window.kind ≡ Sensor) }
        requires value { value < 32768 }
        ensures state { self.new ≡ (sense self.old device value).state }
        ensures answer { result ≡ (sense self.old device value).shown }
        ensures guarded { (s : Section) → Lives self.old.sections.live s
            → Guarded (Result (Unit {0}) Refused) (λ a. sense a device value) s self.old }
    {
        if let Some(refused) = self.busy() {
            return Err(refused);
        }
        self.set_sample(device, value);
        Ok(())
    }

    fn irq_refusal(&self) -> Option<Refused>
        ensures refusal { result ≡ irq_refusal self.now }
        ensures outside { IfNone result (self.now.cur ≡ 0) }
    {
        if self.running() != 0 {
            return Some(Refused::Busy);
        }
        if (self.reg(SR) >> 3) & 1 == 1 {
            None
        } else {
            Some(Refused::Masked)
        }
    }

    /// An interrupt of a line from 0 to 14: PC and then SR are pushed as by code outside every
    /// module, SR becomes 0, and PC is loaded from the vector at 0xFFE0 + 2 `line`. A violation
    /// resets the node. `Busy` exactly where a module runs; else `Masked` exactly where GIE, bit 3
    /// of SR, is 0.
    pub fn irq(&mut self, line: u8) -> Result<Seen, Refused>
        requires line { line ≤ 14 }
        requires boots { self.old.boot < u32.MAX }
        ensures state { self.new ≡ (irq self.old line).state }
        ensures answer { result ≡ (irq self.old line).shown }
        ensures guarded { (s : Section) → Placed self.old.sections → Lives self.old.sections.live s
            → Guarded (Result Seen Refused) (λ a. irq a line) s self.old }
    {
        if let Some(refused) = self.irq_refusal() {
            return Err(refused);
        }
        match self.interrupt(line) {
            Ok(seen) => Ok(seen),
            Err(violation) => {
                self.reset();
                Ok(reset_by(violation))
            }
        }
    }
}
