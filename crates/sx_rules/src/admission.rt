//! When a new section is refused.

ghost use Rattle.std.specs.Prelude.{◌≡◌, ◌+◌, ◌<◌, ◌≤◌, length, IfNone};
ghost use Rattle.std.specs.List.{list_all};
ghost use Rattle.sx_rules.specs.Admission.{apart, is_even, good_bounds, parts_apart, clear_of};
ghost use Rattle.sx_rules.specs.Admission.{no_overlap, no_device, refusal};

use crate::section::{Layout, Section};

/// How many sections can be live at once.
pub const LIVE_LIMIT: usize = 8;

/// The last id of a boot.
pub const LAST_ID: u32 = 65535;

/// Why a section was refused. Where several rules refuse it, the first of them is given.
#[derive(Clone, Copy, Debug, PartialEq, Eq)]
pub enum Refusal {
    /// A bound is odd, or an end isn't above its start.
    Bounds,
    /// The public and the private part meet each other or a part of a live section.
    Overlap,
    /// The word of a device meets the public part.
    Device,
    /// There are 8 live sections.
    Full,
    /// The ids up to 65,535 of this boot are used.
    Ids,
}

fn apart(from: u16, to: u16, start: u16, end: u16) -> bool
    ensures { result ≡ apart from to start end }
{
    to <= start || end <= from
}

fn is_even(bound: u16) -> bool
    ensures { result ≡ is_even bound }
{
    bound % 2 == 0
}

impl Layout {
    fn has_good_bounds(&self) -> bool
        ensures { result ≡ good_bounds self.now }
    {
        self.pub_from < self.pub_to
            && self.priv_from < self.priv_to
            && is_even(self.pub_from)
            && is_even(self.pub_to)
            && is_even(self.priv_from)
            && is_even(self.priv_to)
    }

    fn has_parts_apart(&self) -> bool
        ensures { result ≡ parts_apart self.now }
    {
        apart(self.pub_from, self.pub_to, self.priv_from, self.priv_to)
    }

    fn is_clear_of(&self, section: &Section) -> bool
        ensures { result ≡ clear_of self.now section.now }
    {
        let other = &section.layout;
        apart(self.pub_from, self.pub_to, other.pub_from, other.pub_to)
            && apart(self.pub_from, self.pub_to, other.priv_from, other.priv_to)
            && apart(self.priv_from, self.priv_to, other.pub_from, other.pub_to)
            && apart(self.priv_from, self.priv_to, other.priv_from, other.priv_to)
    }

    fn is_clear_of_all(&self, live: &[Section]) -> bool
        ensures { result ≡ list_all (clear_of self.now) live.now }
    {
        live.iter().all(|s| self.is_clear_of(s))
    }

    fn is_clear_of_device(&self, place: u16) -> bool
        ensures { result ≡ apart self.now.pub_from self.now.pub_to place (place + 2) }
    {
        self.pub_to <= place || u32::from(place) + 2 <= u32::from(self.pub_from)
    }

    fn is_clear_of_devices(&self, places: &[u16]) -> bool
        ensures { result ≡ no_device places.now self.now }
    {
        places.iter().all(|place| self.is_clear_of_device(*place))
    }

    fn overlaps_none(&self, live: &[Section]) -> bool
        ensures { result ≡ no_overlap live.now self.now }
    {
        self.has_parts_apart() && self.is_clear_of_all(live)
    }
}

/// The first rule that refuses the section, where `next` is the next id.
#[tactic(auto, unfolding(crate::specs::Admission::refusal))]
pub fn first_refusal(
    live: &[Section],
    next: u32,
    layout: &Layout,
    places: &[u16],
) -> Option<Refusal>
    ensures refusal { result ≡ refusal (record { live = live.now; next = next }) layout.now
        places.now }
    ensures room { IfNone result (length live.now < LIVE_LIMIT) }
    ensures ids { IfNone result (next ≤ LAST_ID) }
{
    if !layout.has_good_bounds() {
        Some(Refusal::Bounds)
    } else if !layout.overlaps_none(live) {
        Some(Refusal::Overlap)
    } else if !layout.is_clear_of_devices(places) {
        Some(Refusal::Device)
    } else if live.len() >= LIVE_LIMIT {
        Some(Refusal::Full)
    } else if next > LAST_ID {
        Some(Refusal::Ids)
    } else {
        None
    }
}
