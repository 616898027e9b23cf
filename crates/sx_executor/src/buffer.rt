//! Buffers that module instructions name by an address and a length.

ghost use Rattle.std.specs.Prelude.{◌≡◌, ◌+◌, ◌-◌, ◌≤◌, true, false, IfOk, IfErr, OnOk};
ghost use Rattle.sx_rules.specs.declared.access.Violation.TheVariants as bad;
ghost use Rattle.spec_machine.specs.Ranges.{passes_end, meets_device};

use crate::range::Range;
use sx_rules::Violation;

/// This many bytes from an address on, which don't pass the end of memory.
#[derive(Clone, Copy)]
pub struct Buffer {
    /// The address of the first byte.
    pub at: u16,
    /// How many bytes it has.
    pub count: u16,
    ghost within: { at + count ≤ 65536 },
}

impl Buffer {
    /// A buffer, or the violation `Range` where it would pass the end of memory.
    pub fn new(at: u16, count: u16) -> Result<Buffer, Violation>
        ensures range { IfErr result (λ why. (why ≡ bad.Range) × (passes_end at count ≡ true)) }
        ensures within { OnOk result (passes_end at count ≡ false) }
        ensures at { IfOk result (λ buffer. buffer.at ≡ at) }
        ensures count { IfOk result (λ buffer. buffer.count ≡ count) }
    {
        if u32::from(at) + u32::from(count) > 65536 {
            return Err(Violation::Range);
        }
        Ok(Buffer { at, count })
    }

    /// The bytes from `from` up to but not `to`; none where `to` isn't above `from`.
    pub fn between(from: u16, to: u16) -> Buffer
        ensures at { result.at ≡ from }
        ensures count { result.count ≡ to - from }
    {
        Buffer {
            at: from,
            count: to.saturating_sub(from),
        }
    }

    /// Whether it meets a device, which is the word at its place.
    pub fn meets_device(self, places: &[u16]) -> bool
        ensures { result ≡ meets_device places.now self.at self.count }
    {
        Range::of_buffer(self).meets_device(places)
    }
}
