//! The state that an instruction runs on, and every call that touches its memory.
//!
//! Memory, devices, sections and whose turn it is are fields that are seen in this file alone: the
//! rest of the crate reaches them by these calls. An access reads by `read` and `public_bytes` and
//! writes by `write`, and these require its right, which is that of the module whose turn `begin`
//! began. `new` and `reset` are about a whole node; `admit` and `remove` say why they ask for no
//! right. `byte`, `holds` and `copy` ask for none either, but are only where the memory can be
//! copied, which code of an instruction doesn't know.

ghost use Rattle.std.specs.Prelude.{◌≡◌, ◌⊎◌, ◌+◌, ◌-◌, ◌<◌, ◌≤◌, true, None, Some, length};
ghost use Rattle.std.specs.Prelude.{slice_index, slice_get, bytes_eq, IfOk, IfSome};
ghost use Rattle.sx_alu.specs.Table.{limit};
ghost use Rattle.sx_bus.specs.declared.devices.Kind.TheVariants.{Sensor};
ghost use Rattle.sx_bus.specs.Devices.{cleared, with_sample};
ghost use Rattle.sx_rules.specs.declared.access.Access.TheVariants.{Read, Write};
ghost use Rattle.sx_rules.specs.Access.{holder, section_of};
ghost use Rattle.sx_rules.specs.Admission.{admitted, removed};
ghost use Rattle.spec_machine.specs.Memory.{bytes_from, read_at, write_at, zeroed};
ghost use Rattle.spec_machine.specs.Protect.{wiped};
ghost use Rattle.spec_machine.specs.Registers.{reg};
ghost use Rattle.spec_machine.specs.Run.{may_at, device_of, untouched};
ghost use Rattle.sx_executor.specs.Machine.{switched_on, cleared_by_reset, reaches, IsPublic};

use crate::buffer::Buffer;
use crate::decoded::Decoded;
use crate::decoding::{PLACES, SHORTCUT_PLACES};
use crate::occupancy::Occupancy;
use crate::protection::Protection;
use crate::shortcut::Shortcut;
use spec_machine::Touch;
use std::alloc::{AllocError as OutOfMemory, Global};
use std::marker::Model;
use sx_bus::{Bus, Copied, Windows};
use sx_rules::{Layout, Section, Table};

/// The registers R0 to R15, the memory, the devices and the sections of a node, with the module
/// whose code runs, else 0, and what it touched so far.
#[derive(Drop)]
pub struct Executor<B: Bus> {
    pub(crate) regs: [u16; 16],
    bus: B,
    occupancy: Occupancy,
    own: u16,
    pub(crate) touches: [Touch; 2],
    /// Decoded first words and shortcuts, each in the place of an address that it was decoded at.
    pub(crate) decoded: [Decoded; PLACES],
    pub(crate) shortcuts: [Shortcut; SHORTCUT_PLACES],
}

impl<B: Bus> Model for Executor<B> {
    ghost use Rattle.sx_executor.specs.Machine.{Machine};

    ghost Value = { Machine };

    ghost view = { λ e. record {
      regs = e.regs;
      mem = B.bytes e.bus;
      devices = e.occupancy.devices;
      sections = e.occupancy.sections;
      own = e.own;
      touches = e.touches;
    } };
}

/// Makes the bytes of a buffer zero.
#[tactic(auto, unfolding(spec_machine::specs::Memory::zeroed))]
fn zero<B: Bus>(bus: &mut B, buffer: Buffer)
    ensures { B.bytes bus.new ≡ zeroed (B.bytes bus.old) buffer.at buffer.count }
{
    for i in 0..buffer.count {
        bus.put(buffer.at + i, 0);
    }
}

/// Makes the private section of a layout zero.
fn wipe<B: Bus>(bus: &mut B, layout: &Layout)
    ensures { B.bytes bus.new ≡ wiped (B.bytes bus.old) layout.now }
{
    zero(bus, Buffer::between(layout.priv_from, layout.priv_to));
}

impl<B: Bus> Executor<B> {
    /// A node's parts as its power is switched on: all registers are 0, and there is no section.
    pub fn new(bus: B, windows: Windows) -> Executor<B>
        ensures { result ≡ switched_on (B.bytes bus) windows }
    {
        Executor {
            regs: [0; 16],
            bus,
            occupancy: Occupancy::new(windows),
            own: 0,
            touches: [Touch::Quiet; 2],
            decoded: [Decoded::idle(); PLACES],
            shortcuts: [Shortcut::idle(); SHORTCUT_PLACES],
        }
    }

    /// Clears memory, registers, sections and the sensors' fresh marks.
    pub fn reset(&mut self)
        ensures { self.new ≡ cleared_by_reset self.old }
    {
        self.bus.wipe();
        self.regs = [0; 16];
        self.occupancy.reset();
        self.own = 0;
        self.touches = [Touch::Quiet; 2];
    }

    /// Begins an instruction of the module `own` whose code PC is at, or with 0 of code outside
    /// every module, as which an interrupt and an act from outside run.
    pub fn begin(&mut self, own: u16)
        requires { (own ≡ 0) ⊎ (own ≡ holder self.old.sections.live (reg self.old.regs 0)) }
        ensures { self.new ≡ record self.old { own = own; touches = untouched } }
    {
        self.own = own;
        self.touches = [Touch::Quiet; 2];
    }

    /// Gives the turn to the module whose code PC is at, or with 0 to code outside every module,
    /// and keeps what was touched.
    #[inline(always)]
    pub fn turn(&mut self, own: u16)
        requires { (own ≡ 0) ⊎ (own ≡ holder self.old.sections.live (reg self.old.regs 0)) }
        ensures { self.new ≡ record self.old { own = own } }
    {
        self.own = own;
    }

    /// The module whose code runs, else 0.
    #[inline(always)]
    pub fn own(&self) -> u16
        ensures { result ≡ self.now.own }
    {
        self.own
    }

    /// The sections.
    #[inline(always)]
    pub fn table(&self) -> &Table
        ensures { result.now ≡ self.now.sections }
    {
        self.occupancy.protection().table()
    }

    /// The devices and the sections, with what is known of both.
    #[inline(always)]
    pub(crate) fn occupancy(&self) -> &Occupancy
        ensures devices { result.now.devices ≡ self.now.devices }
        ensures sections { result.now.sections ≡ self.now.sections }
    {
        &self.occupancy
    }

    /// The sections, with what is known beside them.
    #[inline(always)]
    pub(crate) fn protection(&self) -> &Protection
        ensures { result.now ≡ self.now.sections }
    {
        self.occupancy.protection()
    }

    /// Learns the home of a module: from then on its own code needs no look at the sections there,
    /// until they change or another home is learnt.
    pub fn learn_home(&mut self, id: u16)
        ensures { self.new ≡ self.old }
    {
        self.occupancy.learn_home(id);
    }

    /// Learns the gap around a place, if no section holds it: from then on no code needs a look at
    /// the sections there, until they change or two others are learnt.
    pub fn learn_gap(&mut self, at: u16)
        ensures { self.new ≡ self.old }
    {
        self.occupancy.learn_gap(at);
    }

    /// Learns what all code may read around a place: from then on a read there needs no look at the
    /// sections nor at the devices, until the sections change or another place's is learnt.
    #[inline(always)]
    pub(crate) fn learn_readable(&mut self, at: u16)
        ensures { self.new ≡ self.old }
    {
        self.occupancy.learn_readable(at);
    }

    /// The devices.
    #[inline(always)]
    pub fn windows(&self) -> &Windows
        ensures { result.now ≡ self.now.devices }
    {
        self.occupancy.windows()
    }

    /// A sensor's new sample.
    pub fn sense(&mut self, device: u8, value: u16)
        requires device { device < length self.old.devices }
        requires sensor { IfSome (slice_get self.old.devices device)
            (λ window. window.kind ≡ Sensor) }
        requires value { value < 32768 }
        ensures { self.new ≡ record self.old {
          devices = with_sample self.old.devices device value;
        } }
    {
        self.occupancy.sense(device, value);
    }

    /// Clears the fresh mark of a device.
    pub(crate) fn clear(&mut self, device: u8)
        requires { device < length self.old.devices }
        ensures { self.new ≡ record self.old { devices = cleared self.old.devices device } }
    {
        self.occupancy.clear(device);
    }

    /// The word at an address, whose bit 0 doesn't count, or in byte form the byte. It may be read,
    /// and is no device's.
    #[inline(always)]
    pub fn read(&self, wide: bool, at: u16) -> u16
        requires right { may_at wide self.now.sections.live self.now.own Read at ≡ true }
        requires memory { device_of self.now.devices at ≡ None }
        ensures value { result ≡ read_at wide self.now.mem at }
        ensures below { result < limit wide }
    {
        if wide {
            self.read_word(at)
        } else {
            u16::from(self.bus.get(at))
        }
    }

    /// The word. Where inlining is but a hint, both bytes become one load before it.
    #[inline]
    fn read_word(&self, at: u16) -> u16
        requires right { may_at true self.now.sections.live self.now.own Read at ≡ true }
        requires memory { device_of self.now.devices at ≡ None }
        ensures value { result ≡ read_at true self.now.mem at }
        ensures below { result < limit true }
    {
        let even = at - at % 2;
        let low = self.bus.get(even);
        let high = self.bus.get(even + 1);
        u16::from(low) + 256 * u16::from(high)
    }

    /// Writes the word at an address, or in byte form the byte. It may be written, and is no
    /// device's.
    #[inline(always)]
    pub fn write(&mut self, wide: bool, at: u16, value: u16)
        requires right { may_at wide self.old.sections.live self.old.own Write at ≡ true }
        requires memory { device_of self.old.devices at ≡ None }
        ensures { self.new ≡ record self.old { mem = write_at wide self.old.mem at value } }
    {
        if wide {
            let even = at - at % 2;
            self.bus.put_word(even, value);
        } else {
            self.bus.put(at, (value % 256) as u8);
        }
    }

    /// Copies bytes of the public section of a live module, or of one that no rule refuses, from an
    /// offset on. They may be read, and there is no device, since no module is admitted over one.
    pub fn public_bytes(&self, layout: &Layout, from: u16, into: &mut [u8])
        requires right { reaches self.now Read layout.now.pub_from
            (layout.now.pub_to - layout.now.pub_from) ≡ true }
        requires public { IsPublic self.now layout.now }
        requires within { from + length into.old ≤ layout.now.pub_to - layout.now.pub_from }
        ensures { into.new
            ≡ bytes_from self.now.mem (layout.now.pub_from + from) (length into.old) }
    {
        self.bus.stays_in_range();
        let public = Buffer::between(layout.pub_from, layout.pub_to);
        self.bus.copy_bytes(public.at + from, into);
    }

    /// Admits a module that `test` doesn't refuse under the next id, which it gives back. Its
    /// private section is made zero whatever code runs: by design, this asks for no right.
    pub fn admit(&mut self, layout: Layout, provider: u16, key: [u8; 16]) -> u16
        requires room { length self.old.sections.live < 8 }
        requires ids { self.old.sections.next ≤ 65535 }
        ensures id { result ≡ self.old.sections.next }
        ensures admitted { self.new ≡ record self.old {
          mem = wiped self.old.mem layout;
          sections = admitted self.old.sections layout provider key;
        } }
    {
        let id = self.occupancy.add(layout, provider, key);
        wipe(&mut self.bus, &layout);
        id
    }

    /// Removes the module whose code runs, and makes its private section zero: bytes of its own, so
    /// this asks for no right.
    pub fn remove(&mut self, section: &Section)
        requires own { section_of self.old.sections.live self.old.own ≡ Some section.now }
        ensures { self.new ≡ record self.old {
          mem = wiped self.old.mem section.now.layout;
          sections = removed self.old.sections self.old.own;
        } }
    {
        wipe(&mut self.bus, &section.layout);
        self.occupancy.remove(self.own);
    }
}

/// Calls for callers that inspect a whole node from outside. An instruction's code is written for
/// every `Bus`, so it can't make them.
impl<B: Copied> Executor<B> {
    /// The byte at an address. It asks for no right.
    pub fn byte(&self, at: u16) -> u8
        ensures { result ≡ slice_index self.now.mem at }
    {
        self.bus.get(at)
    }

    /// Whether these bytes are in memory from an address on. It asks for no right.
    pub fn holds(&self, at: u16, expected: &[u8]) -> bool
        requires { at + length expected.now ≤ 65536 }
        ensures { result
            ≡ bytes_eq (bytes_from self.now.mem at (length expected.now)) expected.now }
    {
        self.bus.stays_in_range();
        self.bus.holds(at, expected)
    }

    /// An executor of its own in an equal state. `OutOfMemory` where there is none for it.
    pub fn copy(&self, alloc: Global) -> Result<Executor<B>, OutOfMemory>
        ensures { IfOk result (λ copy. copy ≡ self.now) }
    {
        let bus = self.bus.copy(alloc)?;
        let occupancy = self.occupancy.copy(alloc)?;
        Ok(Executor {
            regs: self.regs,
            bus,
            occupancy,
            own: self.own,
            touches: self.touches,
            decoded: self.decoded,
            shortcuts: self.shortcuts,
        })
    }
}
