//! Intervals in others, and boxes in boxes.

ghost use Rattle.std.specs.Prelude.{◌≡◌};
ghost use Rattle.sx_table.specs.Boxes.{box_has, box_within, fills, within};

use sx_span::intervals::Interval;

/// Whether the first lies in the second.
pub fn within(i: Interval, j: Interval) -> bool
    ensures { result ≡ within i j }
{
    j.low <= i.low && i.high <= j.high
}

/// Whether the intervals, in order, have each number of another.
pub fn fills(list: &[Interval], i: Interval) -> bool
    ensures { result ≡ fills list.now i }
{
    let mut low = u32::from(i.low);
    for j in list {
        if u32::from(j.low) <= low {
            low = low.max(u32::from(j.high) + 1);
        }
    }
    u32::from(i.high) < low
}

/// Whether each of the first lies in that of the second.
pub fn box_within(is: &[Interval], js: &[Interval]) -> bool
    ensures { result ≡ box_within is.now js.now }
{
    if is.len() != js.len() {
        return false;
    }
    for k in 0..is.len() {
        if !within(is[k], js[k]) {
            return false;
        }
    }
    true
}

/// Whether each number lies in its interval.
pub fn box_has(is: &[Interval], values: &[u16]) -> bool
    ensures { result ≡ box_has is.now values.now }
{
    if is.len() != values.len() {
        return false;
    }
    for k in 0..is.len() {
        if values[k] < is[k].low || is[k].high < values[k] {
            return false;
        }
    }
    true
}
