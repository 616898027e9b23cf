//! The devices of a node: sensors and actuators, each one word of the memory.

ghost use Rattle.std.specs.Prelude.{◌≡◌, ℕ, ◌<◌, ◌≤◌, true, false, length, map, IfOk, IfSome};
ghost use Rattle.std.specs.Prelude.{slice_get, slice_index_or, Option, Some};
ghost use Rattle.sx_bus.specs.declared.devices.Kind.TheVariants.{Sensor};
ghost use Rattle.sx_bus.specs.Devices.{ArePlaces, on_word, powered_on, places_of};
ghost use Rattle.sx_bus.specs.Windows.{AreNew, has_place};
ghost use Rattle.sx_bus.specs.Devices.{device_at, with_sample, cleared, all_stale};

use std::alloc::{AllocError as OutOfMemory, Global};
use std::marker::Model;

/// How many pages the memory has, of 256 bytes each.
const PAGE_COUNT: usize = 256;

/// What a device is.
#[derive(Clone, Copy, Debug, PartialEq, Eq)]
pub enum Kind {
    /// Gives values.
    Sensor,
    /// Takes values.
    Actuator,
}

/// One device.
#[derive(Clone, Copy, Debug, PartialEq, Eq)]
pub struct Window {
    /// The even address of its word.
    pub at: u16,
    /// What it is.
    pub kind: Kind,
    /// A sensor's last value, below 32,768; 0 at an actuator.
    pub value: u16,
    /// Whether the value is a sample that no read has taken yet.
    pub fresh: bool,
}

impl Window {
    /// Whether the device's word holds the byte.
    pub fn holds(&self, at: u16) -> bool
        ensures { result ≡ on_word at self.now }
    {
        self.at <= at && at - self.at < 2
    }
}

/// The devices of a node, at most 32. A device is named by its index in the order in which `new`
/// was given them.
#[derive(Drop)]
pub struct Windows {
    windows: Vec<Window>,
    places: Vec<u16>,
    /// For each page whether a device is there.
    pages: [bool; PAGE_COUNT],
}

impl Model for Windows {
    ghost use Rattle.std.specs.Prelude.{◌≡◌, List};
    ghost use Rattle.sx_bus.specs.declared.devices.Window.{Window};

    ghost Value = { List Window };

    ghost use Rattle.sx_bus.specs.Devices.{ArePlaces, HaveSamples, places_of};
    ghost use Rattle.sx_bus.specs.Windows.{IsDeviceIndex};

    ghost view = { λ w. w.windows.items };

    ghost invariant = { λ w. (w.places.items ≡ places_of w.windows.items) × ArePlaces w.places.items
        × HaveSamples w.windows.items × IsDeviceIndex w.pages w.places.items };
}

impl Windows {
    /// The devices at these places, with value 0 and not fresh. `OutOfMemory` where there is none
    /// for them.
    pub fn new(alloc: Global, devices: &[(u16, Kind)]) -> Result<Windows, OutOfMemory>
        requires { ArePlaces (map (λ d. d.0) devices.now) }
        ensures devices { IfOk result (λ windows. windows ≡ powered_on devices.now) }
        ensures new { IfOk result (λ windows. AreNew windows) }
    {
        let windows = switched_on(alloc, devices)?;
        let places = places(alloc, devices)?;
        let mut pages = [false; PAGE_COUNT];
        index(&mut pages, &places);
        Ok(Windows {
            windows,
            places,
            pages,
        })
    }

    /// The device whose word holds the byte.
    #[inline(always)]
    pub fn at(&self, at: u16) -> Option<u8>
        ensures device { result ≡ device_at self.now at }
        ensures within { IfSome result (λ device. device < length self.now) }
    {
        if !self.pages[usize::from(at / 256)] {
            return None;
        }
        first_at(&self.windows, at)
    }

    /// The devices' places, in order.
    pub fn places(&self) -> &[u16]
        ensures places { result.now ≡ places_of self.now }
        ensures sound { ArePlaces result.now }
    {
        &self.places
    }

    /// One device.
    pub fn get(&self, device: u8) -> Window
        requires { device < length self.now }
        ensures device { slice_get self.now device ≡ Some result }
        ensures value { result.value < 32768 }
    {
        self.windows[device as usize]
    }

    /// A sensor's new sample: sets its value and its fresh mark.
    pub fn sense(&mut self, device: u8, value: u16)
        requires device { device < length self.old }
        requires sensor { IfSome (slice_get self.old device) (λ window. window.kind ≡ Sensor) }
        requires value { value < 32768 }
        ensures { self.new ≡ with_sample self.old device value }
    {
        sense_one(&mut self.windows, device as usize, value);
    }

    /// Clears the device's fresh mark.
    pub fn clear(&mut self, device: u8)
        requires { device < length self.old }
        ensures { self.new ≡ cleared self.old device }
    {
        clear_one(&mut self.windows, device as usize);
    }

    /// Clears every fresh mark and keeps the values, as a reset of the node does.
    pub fn reset(&mut self)
        ensures { self.new ≡ all_stale self.old }
    {
        clear_all(&mut self.windows);
    }

    /// Equal devices of their own. `OutOfMemory` where there is none for them.
    pub fn copy(&self, alloc: Global) -> Result<Windows, OutOfMemory>
        ensures { IfOk result (λ copy. copy ≡ self.now) }
    {
        let windows = self.windows.to_vec(alloc)?;
        let places = self.places.to_vec(alloc)?;
        Ok(Windows {
            windows,
            places,
            pages: self.pages,
        })
    }
}

fn switched_on(alloc: Global, devices: &[(u16, Kind)]) -> Result<Vec<Window>, OutOfMemory>
    ensures { IfOk result (λ windows. windows.items ≡ powered_on devices.now) }
{
    devices
        .iter()
        .map(|d| Window {
            at: d.0,
            kind: d.1,
            value: 0,
            fresh: false,
        })
        .collect(alloc)
}

fn places(alloc: Global, devices: &[(u16, Kind)]) -> Result<Vec<u16>, OutOfMemory>
    ensures { IfOk result (λ places. places.items ≡ map (λ d. d.0) devices.now) }
{
    devices.iter().map(|d| d.0).collect(alloc)
}

fn has_place(places: &[u16], page: u16) -> bool
    ensures { result ≡ has_place page places.now }
{
    places.iter().any(|place| *place / 256 == page)
}

/// Keeps for each page whether a device is there.
fn index(pages: &mut [bool], places: &[u16])
    requires { length pages.old ≤ PAGE_COUNT }
    ensures { (page : ℕ) → page < length pages.new →
        slice_index_or pages.new page false ≡ has_place page places.now }
{
    for (page, kept) in pages.iter_mut().enumerate() {
        *kept = has_place(places, page as u16);
    }
}

/// The first of the devices whose word holds the byte. Its code stays out of the way of the many
/// accesses on pages without a device, and the compiler takes those for likely.
#[cold]
#[inline(never)]
fn first_at(windows: &[Window], at: u16) -> Option<u8>
    requires { length windows.now ≤ 256 }
    ensures device { result ≡ device_at windows.now at }
    ensures within { IfSome result (λ device. device < length windows.now) }
{
    for (i, window) in windows.iter().enumerate() {
        if window.holds(at) {
            return Some(i as u8);
        }
    }
    None
}

fn sense_one(windows: &mut [Window], device: usize, value: u16)
    requires { device < length windows.old }
    ensures { windows.new ≡ with_sample windows.old device value }
{
    windows[device] = Window {
        value,
        fresh: true,
        ..windows[device]
    };
}

fn clear_one(windows: &mut [Window], device: usize)
    requires { device < length windows.old }
    ensures { windows.new ≡ cleared windows.old device }
{
    windows[device].fresh = false;
}

fn clear_all(windows: &mut [Window])
    ensures { windows.new ≡ all_stale windows.old }
{
    for window in windows.iter_mut() {
        window.fresh = false;
    }
}
