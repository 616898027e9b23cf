//! What stands in the memory: the devices of a node and its sections, with what is known of both
//! together.

ghost use Rattle.std.specs.Prelude.{◌≡◌, ◌<◌, ◌≤◌, ◌+◌, ◌/◌, ℕ, Bool, false, true, None, length};
ghost use Rattle.std.specs.Prelude.{IsTrue, IfOk, IfSome, slice_get, slice_index_or};
ghost use Rattle.sx_bus.specs.declared.devices.Kind.TheVariants.{Sensor};
ghost use Rattle.sx_bus.specs.Devices.{cleared, device_at, with_sample, all_stale};
ghost use Rattle.sx_rules.specs.declared.access.Access.{Access};
ghost use Rattle.sx_rules.specs.declared.access.Access.TheVariants.{Read, Write};
ghost use Rattle.sx_rules.specs.Access.{holder, in_order};
ghost use Rattle.sx_rules.specs.Admission.{admitted, removed};
ghost use Rattle.spec_machine.specs.State.{no_sections};
ghost use Rattle.spec_machine.specs.Run.{may_at};
ghost use Rattle.spec_machine.specs.Step.{word_outside};
ghost use Rattle.sx_executor.specs.Occupancy.{is_bare, is_vacant, IsVacantIndex, IsAhead};

use crate::gap::Gap;
use crate::home::Deep;
use crate::marks::{self, PAGE_COUNT};
use crate::protection::{MISSES_BETWEEN, Protection};
use std::alloc::{AllocError as OutOfMemory, Global};
use std::marker::Model;
use sx_bus::Windows;
use sx_rules::Layout;

/// The devices and the sections. Where these change, what is known is made anew.
#[derive(Drop)]
pub(crate) struct Occupancy {
    windows: Windows,
    protection: Protection,
    /// For each page whether no section meets it and the next one, and no device is there.
    vacant: [bool; PAGE_COUNT],
    deep: Deep,
    /// What all code may read around a place where a read missed. The next is learnt after `rest`
    /// more misses.
    readable: Gap,
    rest: u8,
}

impl Model for Occupancy {
    ghost use Rattle.sx_bus.specs.Devices.{ArePlaces, places_of};
    ghost use Rattle.sx_executor.specs.Occupancy.{Occupied, IsVacantIndex, KeepsDeep};
    ghost use Rattle.sx_executor.specs.Readable.{KeepsReadable};

    ghost Value = { Occupied };

    ghost view = { λ o. record { devices = o.windows; sections = o.protection } };

    ghost invariant = { λ o. ArePlaces (places_of o.windows)
        × IsVacantIndex o.vacant o.protection.live (places_of o.windows)
        × KeepsDeep o.deep o.protection.live (places_of o.windows)
        × KeepsReadable o.readable o.protection.live (places_of o.windows) };
}

/// Whether no device is at three words.
#[inline(always)]
fn are_bare(windows: &Windows, at: u16) -> bool
    requires { at + 5 < 65536 }
    ensures first { IsTrue result → device_at windows.now at ≡ None }
    ensures second { IsTrue result → device_at windows.now (at + 2) ≡ None }
    ensures third { IsTrue result → device_at windows.now (at + 4) ≡ None }
{
    windows.at(at).is_none() && windows.at(at + 2).is_none() && windows.at(at + 4).is_none()
}

impl Occupancy {
    /// These devices, and no section.
    pub(crate) fn new(windows: Windows) -> Occupancy
        ensures { result ≡ record { devices = windows; sections = no_sections } }
    {
        let protection = Protection::new();
        let vacant = marks::without_sections(windows.places());
        Occupancy {
            windows,
            protection,
            vacant,
            deep: Deep::empty(),
            readable: Gap::empty(),
            rest: 0,
        }
    }

    /// Removes all sections, and clears the sensors' fresh marks.
    pub(crate) fn reset(&mut self)
        ensures { self.new ≡ record { devices = all_stale self.old.devices; sections = no_sections } }
    {
        self.windows.reset();
        self.protection = Protection::new();
        self.vacant = marks::without_sections(self.windows.places());
        self.deep = Deep::empty();
        self.readable = Gap::empty();
    }

    /// The devices.
    #[inline(always)]
    pub(crate) fn windows(&self) -> &Windows
        ensures { result.now ≡ self.now.devices }
    {
        &self.windows
    }

    /// The sections, with what is known beside them.
    #[inline(always)]
    pub(crate) fn protection(&self) -> &Protection
        ensures { result.now ≡ self.now.sections }
    {
        &self.protection
    }

    /// Whether one look says that no section and no device is on the page of the word at an address
    /// and on the next one.
    #[inline(always)]
    pub(crate) fn is_vacant(&self, at: u16) -> bool
        ensures reached { IsTrue result → (own : ℕ) (wide : Bool) (access : Access)
            → may_at wide self.now.sections.live own access at ≡ true }
        ensures outside { IsTrue result → word_outside self.now.sections.live at ≡ true }
        ensures order { IsTrue result
            → (cur : ℕ) → in_order self.now.sections.live cur at ≡ true }
        ensures none { IsTrue result → holder self.now.sections.live at ≡ 0 }
        ensures memory { IsTrue result → device_at self.now.devices at ≡ None }
        ensures ahead { IsTrue result
            → (own : ℕ) → IsAhead self.now.sections.live self.now.devices own at }
    {
        marks::is_marked(&self.vacant, at)
    }

    /// Whether the word at an address and the two after it are known to lie in a gap, and no device
    /// is there. It promises the same.
    #[inline(always)]
    pub(crate) fn is_deep_in_gap(&self, at: u16) -> bool
        ensures outside { IsTrue result → word_outside self.now.sections.live at ≡ true }
        ensures order { IsTrue result
            → (cur : ℕ) → in_order self.now.sections.live cur at ≡ true }
        ensures none { IsTrue result → holder self.now.sections.live at ≡ 0 }
        ensures memory { IsTrue result → device_at self.now.devices at ≡ None }
        ensures ahead { IsTrue result
            → (own : ℕ) → IsAhead self.now.sections.live self.now.devices own at }
    {
        self.protection.has_deep_gap(at) && are_bare(&self.windows, at)
    }

    /// Whether the word at an address and the two after it are known to be code of the module `id`,
    /// and no device is there.
    #[inline(always)]
    pub(crate) fn is_deep_at_home(&self, id: u16, at: u16) -> bool
        ensures held { IsTrue result → holder self.now.sections.live at ≡ id }
        ensures outside { IsTrue result → word_outside self.now.sections.live at ≡ true }
        ensures order { IsTrue result → in_order self.now.sections.live id at ≡ true }
        ensures memory { IsTrue result → device_at self.now.devices at ≡ None }
        ensures ahead { IsTrue result → IsAhead self.now.sections.live self.now.devices id at }
    {
        self.deep.has(id, at)
    }

    /// Whether the byte is known to be data of the module `id`, which may read and write it there,
    /// and no device is there.
    #[inline(always)]
    pub(crate) fn has_bare_data(&self, id: u16, at: u16) -> bool
        ensures read { IsTrue result
            → (wide : Bool) → may_at wide self.now.sections.live id Read at ≡ true }
        ensures write { IsTrue result
            → (wide : Bool) → may_at wide self.now.sections.live id Write at ≡ true }
        ensures memory { IsTrue result → device_at self.now.devices at ≡ None }
    {
        self.deep.has_data(id, at)
    }

    /// Whether the byte is known to be in the text of the home, which all code may read, and no
    /// device is there.
    #[inline(always)]
    pub(crate) fn has_text(&self, at: u16) -> bool
        ensures read { IsTrue result → (own : ℕ) (wide : Bool)
            → may_at wide self.now.sections.live own Read at ≡ true }
        ensures memory { IsTrue result → device_at self.now.devices at ≡ None }
    {
        self.deep.has_text(at)
    }

    /// Whether the byte is known to be one that all code may read, and no device is there.
    #[inline(always)]
    pub(crate) fn has_readable(&self, at: u16) -> bool
        ensures read { IsTrue result → (own : ℕ) (wide : Bool)
            → may_at wide self.now.sections.live own Read at ≡ true }
        ensures memory { IsTrue result → device_at self.now.devices at ≡ None }
    {
        self.readable.has(at)
    }

    /// Learns the home of a module, and its deep part.
    pub(crate) fn learn_home(&mut self, id: u16)
        ensures { self.new ≡ self.old }
    {
        self.protection.learn_home(id);
        self.deep = Deep::of(self.protection.home(), self.windows.places());
    }

    /// Learns the gap around a place, as `Protection::learn_gap` does.
    #[inline(always)]
    pub(crate) fn learn_gap(&mut self, at: u16)
        ensures { self.new ≡ self.old }
    {
        self.protection.learn_gap(at);
    }

    /// Learns what all code may read around a place, if no private part and no device holds the
    /// place; but not soon after the last time.
    #[inline(always)]
    pub(crate) fn learn_readable(&mut self, at: u16)
        ensures { self.new ≡ self.old }
    {
        if self.rest > 0 {
            self.rest -= 1;
            return;
        }
        self.rest = MISSES_BETWEEN;
        self.learn_readable_now(at);
    }

    #[inline(never)]
    fn learn_readable_now(&mut self, at: u16)
        ensures { self.new ≡ self.old }
    {
        let readable = Gap::readable_around(self.protection.table(), self.windows.places(), at);
        if readable.has(at) {
            self.readable = readable;
        }
    }

    /// A sensor's new sample.
    pub(crate) fn sense(&mut self, device: u8, value: u16)
        requires device { device < length self.old.devices }
        requires sensor { IfSome (slice_get self.old.devices device)
            (λ window. window.kind ≡ Sensor) }
        requires value { value < 32768 }
        ensures { self.new ≡ record self.old {
          devices = with_sample self.old.devices device value;
        } }
    {
        self.windows.sense(device, value);
    }

    /// Clears the fresh mark of a device.
    pub(crate) fn clear(&mut self, device: u8)
        requires { device < length self.old.devices }
        ensures { self.new ≡ record self.old { devices = cleared self.old.devices device } }
    {
        self.windows.clear(device);
    }

    /// Adds a section, as `Table::add` does.
    pub(crate) fn add(&mut self, layout: Layout, provider: u16, key: [u8; 16]) -> u16
        requires room { length self.old.sections.live < 8 }
        requires ids { self.old.sections.next ≤ 65535 }
        ensures id { result ≡ self.old.sections.next }
        ensures admitted { self.new ≡ record self.old {
          sections = admitted self.old.sections layout provider key;
        } }
    {
        let id = self.protection.add(layout, provider, key);
        self.vacant = marks::of(self.protection.table(), self.windows.places());
        self.deep = Deep::empty();
        self.readable = Gap::empty();
        id
    }

    /// Removes the section with the id, as `Table::remove` does.
    pub(crate) fn remove(&mut self, id: u16)
        ensures { self.new ≡ record self.old { sections = removed self.old.sections id } }
    {
        self.protection.remove(id);
        self.vacant = marks::of(self.protection.table(), self.windows.places());
        self.deep = Deep::empty();
        self.readable = Gap::empty();
    }

    /// An equal one. `OutOfMemory` where there is none for it.
    pub(crate) fn copy(&self, alloc: Global) -> Result<Occupancy, OutOfMemory>
        ensures { IfOk result (λ copy. copy ≡ self.now) }
    {
        let windows = self.windows.copy(alloc)?;
        Ok(Occupancy {
            windows,
            protection: self.protection.copy(),
            vacant: self.vacant,
            deep: self.deep,
            readable: self.readable,
            rest: self.rest,
        })
    }
}
