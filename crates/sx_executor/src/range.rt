//! Ranges of addresses, and what they meet.

ghost use Rattle.std.specs.Prelude.{◌≡◌, ◌+◌, ◌-◌, ◌≤◌, MatchOption, false, true, IfSome};
ghost use Rattle.spec_machine.specs.Ranges.{meets, passes_end};
ghost use Rattle.spec_machine.specs.Ranges.{meets_private, meets_public, meets_device};

use crate::buffer::Buffer;
use sx_rules::Section;

/// The addresses from `from` up to but not `to`, within the memory.
#[derive(Clone, Copy)]
pub struct Range {
    from: u32,
    to: u32,
    ghost ordered: { from ≤ to },
    ghost within: { to ≤ 65536 },
}

impl Range {
    /// This many bytes from an address on, or None where they pass the end of memory.
    pub fn new(at: u16, count: usize) -> Option<Range>
        ensures passes { MatchOption result
            (passes_end at count ≡ true) (λ range. passes_end at count ≡ false) }
        ensures range { IfSome result (λ range. (range.from ≡ at) × (range.to ≡ at + count)) }
    {
        let from = u32::from(at);
        if count > (65536 - from) as usize {
            return None;
        }
        let to = from + count as u32;
        Some(Range { from, to })
    }

    /// The addresses of a buffer.
    pub(crate) fn of_buffer(buffer: Buffer) -> Range
        ensures from { result.from ≡ buffer.at }
        ensures count { result.to - result.from ≡ buffer.count }
    {
        let from = u32::from(buffer.at);
        Range {
            from,
            to: from + u32::from(buffer.count),
        }
    }

    /// Whether it meets the addresses from `from` up to but not `to`. No byte meets nothing.
    fn meets(self, from: u32, to: u32) -> bool
        ensures { result ≡ meets self.from (self.to - self.from) from to }
    {
        self.from < self.to && self.from < to && from < self.to
    }

    fn meets_private_of(self, section: &Section) -> bool
        ensures { result ≡ meets self.from (self.to - self.from)
            section.now.layout.priv_from section.now.layout.priv_to }
    {
        let layout = &section.layout;
        self.meets(u32::from(layout.priv_from), u32::from(layout.priv_to))
    }

    fn meets_public_of(self, section: &Section) -> bool
        ensures { result ≡ meets self.from (self.to - self.from)
            section.now.layout.pub_from section.now.layout.pub_to }
    {
        let layout = &section.layout;
        self.meets(u32::from(layout.pub_from), u32::from(layout.pub_to))
    }

    /// Whether it meets a live private section.
    pub fn meets_private(self, live: &[Section]) -> bool
        ensures { result ≡ meets_private live.now self.from (self.to - self.from) }
    {
        live.iter().any(|section| self.meets_private_of(section))
    }

    /// Whether it meets a live public section.
    pub fn meets_public(self, live: &[Section]) -> bool
        ensures { result ≡ meets_public live.now self.from (self.to - self.from) }
    {
        live.iter().any(|section| self.meets_public_of(section))
    }

    /// Whether it meets a device, which is the word at its place.
    pub fn meets_device(self, places: &[u16]) -> bool
        ensures { result ≡ meets_device places.now self.from (self.to - self.from) }
    {
        places.iter().any(|place| self.meets(u32::from(*place), u32::from(*place) + 2))
    }
}
