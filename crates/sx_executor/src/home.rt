//! The home of a module: its two parts, where its own code needs no look at the sections, and the
//! places of them where it needs no look at the devices either.

ghost use Rattle.std.specs.Prelude.{◌≡◌, ◌+◌, ◌≤◌, ℕ, List};
ghost use Rattle.std.specs.List.{list_all};
ghost use Rattle.sx_rules.specs.declared.section.Section.{Section};
ghost use Rattle.sx_rules.specs.Admission.{apart, is_even};
ghost use Rattle.sx_executor.specs.Homes.{has_code, has_data, has_data_range, leaves};
ghost use Rattle.sx_executor.specs.Homes.{is_even_home, KeepsHome};
ghost use Rattle.sx_executor.specs.Occupancy.{has_deep, has_deep_text, has_deep_data, KeepsDeep};

use crate::buffer::Buffer;
use sx_rules::{Layout, Section, Table};

/// A module's id and the bounds of its two parts. Where the parts are empty, it is no one's home.
#[derive(Clone, Copy)]
pub(crate) struct Home {
    id: u16,
    layout: Layout,
}

pub(crate) fn apart(from: u16, to: u16, start: u16, end: u16) -> bool
    ensures { result ≡ apart from to start end }
{
    to <= start || end <= from
}

pub(crate) fn is_even(bound: u16) -> bool
    ensures { result ≡ is_even bound }
{
    bound % 2 == 0
}

impl Home {
    /// No one's.
    pub(crate) fn empty() -> Home
        ensures { (live : List Section) → KeepsHome result live }
    {
        Home {
            id: 0,
            layout: Layout {
                pub_from: 0,
                pub_to: 0,
                priv_from: 0,
                priv_to: 0,
            },
        }
    }

    /// That of a live module; no one's where there is no such module, or where another section
    /// meets it.
    pub(crate) fn of(table: &Table, id: u16) -> Home
        ensures { KeepsHome result table.now.live }
    {
        let Some(section) = table.section(id) else {
            return Home::empty();
        };
        let home = Home {
            id,
            layout: section.layout,
        };
        if home.is_even() && home.is_left_by_all(table.live()) {
            return home;
        }
        Home::empty()
    }

    /// Whether the byte lies in the public part of the home of the module `id`.
    #[inline(always)]
    pub(crate) fn has_code(&self, id: u16, at: u16) -> bool
        ensures { result ≡ has_code self.now id at }
    {
        id == self.id && self.layout.pub_from <= at && at < self.layout.pub_to
    }

    /// The same of the private part.
    #[inline(always)]
    pub(crate) fn has_data(&self, id: u16, at: u16) -> bool
        ensures { result ≡ has_data self.now id at }
    {
        id == self.id && self.layout.priv_from <= at && at < self.layout.priv_to
    }

    /// The same of each of so many bytes from an address on. At least one is asked for.
    pub(crate) fn has_data_range(&self, id: u16, at: u16, count: u16) -> bool
        requires { at + count ≤ 65536 }
        ensures { result ≡ has_data_range self.now id at count }
    {
        count > 0 && self.has_data(id, at) && self.has_data(id, at + (count - 1))
    }

    fn is_even(&self) -> bool
        ensures { result ≡ is_even_home self.now }
    {
        is_even(self.layout.pub_from)
            && is_even(self.layout.pub_to)
            && is_even(self.layout.priv_from)
            && is_even(self.layout.priv_to)
    }

    /// Whether no part of a section meets it but its module's own.
    fn is_left_by(&self, section: &Section) -> bool
        ensures { result ≡ leaves self.now section.now }
    {
        let home = &self.layout;
        let other = &section.layout;
        apart(home.pub_from, home.pub_to, other.priv_from, other.priv_to)
            && apart(home.priv_from, home.priv_to, other.pub_from, other.pub_to)
            && (section.id == self.id
                || apart(home.pub_from, home.pub_to, other.pub_from, other.pub_to)
                    && apart(home.priv_from, home.priv_to, other.priv_from, other.priv_to))
    }

    fn is_left_by_all(&self, live: &[Section]) -> bool
        ensures { result ≡ list_all (leaves self.now) live.now }
    {
        live.iter().all(|section| self.is_left_by(section))
    }
}

/// Places of a home without a device: those from which three words lie in its public part, so each
/// instruction that begins there does; its text, which is the whole of that part; and its data, which
/// is what no device is before in its private part.
#[derive(Clone, Copy)]
pub(crate) struct Deep {
    id: u16,
    from: u16,
    to: u16,
    text_to: u16,
    data_from: u16,
    data_to: u16,
}

/// Where a range goes on after its last device, if its devices come in order.
fn after_devices(from: u16, to: u16, places: &[u16]) -> u16
    ensures { from ≤ result }
{
    let mut start = from;
    for place in places {
        if start <= *place && *place < to {
            start = place.saturating_add(2);
        }
    }
    start
}

impl Deep {
    /// No place.
    pub(crate) fn empty() -> Deep
        ensures { (live : List Section) (places : List ℕ) → KeepsDeep result live places }
    {
        Deep {
            id: 0,
            from: 0,
            to: 0,
            text_to: 0,
            data_from: 0,
            data_to: 0,
        }
    }

    /// That of a home: its data begin after the last device in its private part, as a driver's do. No
    /// place where a device is in its public part.
    pub(crate) fn of(home: &Home, places: &[u16]) -> Deep
        ensures { (live : List Section) → KeepsHome home.now live
            → KeepsDeep result live places.now }
    {
        let layout = &home.layout;
        let data_from = after_devices(layout.priv_from, layout.priv_to, places);
        if Buffer::between(layout.pub_from, layout.pub_to).meets_device(places)
            || Buffer::between(data_from, layout.priv_to).meets_device(places)
        {
            return Deep::empty();
        }
        Deep {
            id: home.id,
            from: layout.pub_from,
            to: layout.pub_to.saturating_sub(4),
            text_to: layout.pub_to,
            data_from,
            data_to: layout.priv_to,
        }
    }

    /// Whether the byte lies in the deep part of the home of the module `id`.
    #[inline(always)]
    pub(crate) fn has(&self, id: u16, at: u16) -> bool
        ensures { result ≡ has_deep self.now id at }
    {
        id == self.id && self.from <= at && at < self.to
    }

    /// Whether the byte lies in the text of that home, which all code may read.
    #[inline(always)]
    pub(crate) fn has_text(&self, at: u16) -> bool
        ensures { result ≡ has_deep_text self.now at }
    {
        self.from <= at && at < self.text_to
    }

    /// Whether the byte lies in the data of that home.
    #[inline(always)]
    pub(crate) fn has_data(&self, id: u16, at: u16) -> bool
        ensures { result ≡ has_deep_data self.now id at }
    {
        id == self.id && self.data_from <= at && at < self.data_to
    }
}
