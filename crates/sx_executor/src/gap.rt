//! Gaps: stretches of memory in which no live section has a byte, and one that all code may read.

ghost use Rattle.std.specs.Prelude.{◌≡◌, ◌&&◌, ◌+◌, ◌<◌, ℕ, IsTrue, List};
ghost use Rattle.std.specs.List.{list_all};
ghost use Rattle.sx_rules.specs.declared.section.Section.{Section};
ghost use Rattle.sx_rules.specs.Admission.{apart, is_even};
ghost use Rattle.sx_executor.specs.Homes.{within};
ghost use Rattle.sx_executor.specs.Gaps.{passes, within_deep, has_place, has_deep_place};
ghost use Rattle.sx_executor.specs.Gaps.{KeepsGap, KeepsGaps};
ghost use Rattle.sx_executor.specs.Readable.{spares, KeepsReadable};

use crate::buffer::Buffer;
use crate::home::{apart, is_even};
use sx_rules::{Section, Table};

/// Where a gap ends that no section ends. The last word of memory is in none.
const LAST_WORD: u16 = 0xfffe;

/// The addresses from `from` up to but not `to`.
#[derive(Clone, Copy)]
pub(crate) struct Gap {
    from: u16,
    to: u16,
}

/// The widest bounds around a place that leave out the sections which don't hold it.
fn bounds_around(live: &[Section], at: u16) -> Gap {
    let mut gap = Gap::whole();
    for section in live {
        let layout = &section.layout;
        gap = gap
            .beside(layout.pub_from, layout.pub_to, at)
            .beside(layout.priv_from, layout.priv_to, at);
    }
    gap
}

/// The same that leave out the private parts which don't hold it.
fn between_private(live: &[Section], at: u16) -> Gap {
    let mut gap = Gap::whole();
    for section in live {
        gap = gap.beside(section.layout.priv_from, section.layout.priv_to, at);
    }
    gap
}

/// The part of a gap around a place that leaves out the devices which don't hold it.
fn between_devices(gap: Gap, places: &[u16], at: u16) -> Gap {
    let mut gap = gap;
    for place in places {
        gap = gap.beside(*place, place.saturating_add(2), at);
    }
    gap
}

impl Gap {
    /// No place.
    pub(crate) fn empty() -> Gap
        ensures gap { (live : List Section) → KeepsGap result live }
        ensures readable { (live : List Section) (places : List ℕ)
            → KeepsReadable result live places }
    {
        Gap { from: 0, to: 0 }
    }

    /// All places but the last word of memory.
    fn whole() -> Gap {
        Gap {
            from: 0,
            to: LAST_WORD,
        }
    }

    /// That around a place; no place where a section holds it.
    pub(crate) fn around(table: &Table, at: u16) -> Gap
        ensures { KeepsGap result table.now.live }
    {
        let gap = bounds_around(table.live(), at);
        if gap.has(at) && gap.is_even() && gap.is_passed_by_all(table.live()) {
            return gap;
        }
        Gap::empty()
    }

    /// What all code may read around a place, where no private part and no device is; no place where
    /// one of these holds it.
    pub(crate) fn readable_around(table: &Table, places: &[u16], at: u16) -> Gap
        ensures { KeepsReadable result table.now.live places.now }
    {
        let gap = between_devices(between_private(table.live(), at), places, at);
        if gap.has(at)
            && gap.is_even()
            && gap.is_spared_by_all(table.live())
            && !Buffer::between(gap.from, gap.to).meets_device(places)
        {
            return gap;
        }
        Gap::empty()
    }

    /// Its part around a place that leaves out the addresses from `from` up to but not `to`.
    fn beside(self, from: u16, to: u16, at: u16) -> Gap {
        if to <= at {
            let from = if to > self.from { to } else { self.from };
            return Gap { from, to: self.to };
        }
        let to = if from < self.to { from } else { self.to };
        Gap {
            from: self.from,
            to,
        }
    }

    /// Whether the byte lies in it.
    #[inline(always)]
    pub(crate) fn has(&self, at: u16) -> bool
        ensures { result ≡ within self.now.from self.now.to at }
    {
        self.from <= at && at < self.to
    }

    /// Whether the byte lies in it, and the five after it.
    #[inline(always)]
    fn has_deep(&self, at: u16) -> bool
        ensures place { result ≡ within_deep self.now.from self.now.to at }
        ensures ends { IsTrue result → at + 5 < 65536 }
    {
        self.from <= at && u32::from(at) + 5 < u32::from(self.to)
    }

    fn is_even(&self) -> bool
        ensures { result ≡ (is_even self.now.from && is_even self.now.to) }
    {
        is_even(self.from) && is_even(self.to)
    }

    fn is_passed_by(&self, section: &Section) -> bool
        ensures { result ≡ passes self.now section.now }
    {
        let layout = &section.layout;
        apart(self.from, self.to, layout.pub_from, layout.pub_to)
            && apart(self.from, self.to, layout.priv_from, layout.priv_to)
    }

    fn is_passed_by_all(&self, live: &[Section]) -> bool
        ensures { result ≡ list_all (passes self.now) live.now }
    {
        live.iter().all(|section| self.is_passed_by(section))
    }

    fn is_spared_by(&self, section: &Section) -> bool
        ensures { result ≡ spares self.now section.now }
    {
        let layout = &section.layout;
        apart(self.from, self.to, layout.priv_from, layout.priv_to)
    }

    /// Whether no private part has a byte in it.
    fn is_spared_by_all(&self, live: &[Section]) -> bool
        ensures { result ≡ list_all (spares self.now) live.now }
    {
        live.iter().all(|section| self.is_spared_by(section))
    }
}

/// Two gaps, so that code that goes from one to the other learns neither again.
#[derive(Clone, Copy)]
pub(crate) struct Gaps {
    last: Gap,
    older: Gap,
}

impl Gaps {
    /// No place.
    pub(crate) fn empty() -> Gaps
        ensures { (live : List Section) → KeepsGaps result live }
    {
        let gap = Gap::empty();
        Gaps {
            last: gap,
            older: gap,
        }
    }

    /// Whether the byte lies in one of them.
    #[inline(always)]
    pub(crate) fn has(&self, at: u16) -> bool
        ensures { result ≡ has_place self.now at }
    {
        self.last.has(at) || self.older.has(at)
    }

    /// Whether the byte lies in one of them, and the five after it.
    #[inline(always)]
    pub(crate) fn has_deep(&self, at: u16) -> bool
        ensures place { result ≡ has_deep_place self.now at }
        ensures ends { IsTrue result → at + 5 < 65536 }
    {
        self.last.has_deep(at) || self.older.has_deep(at)
    }

    /// This gap and the one that was learnt last.
    pub(crate) fn with(self, gap: Gap) -> Gaps
        ensures { (live : List Section) → KeepsGaps self live → KeepsGap gap live
            → KeepsGaps result live }
    {
        Gaps {
            last: gap,
            older: self.last,
        }
    }
}
