//! Words between two ends.

ghost use Rattle.std.specs.Prelude.{◌≡◌};
ghost use Rattle.sx_span.specs.Intervals.{between, decided, hull, most_of_bits};
ghost use Rattle.sx_span.specs.Intervals.{ones, only, wrapped};

/// The words from `low` to `high`.
#[derive(Clone, Copy, PartialEq, Eq, Debug)]
pub struct Interval {
    /// The least of them.
    pub low: u16,
    /// The greatest of them.
    pub high: u16,
}

/// From one word to another.
pub fn between(low: u16, high: u16) -> Interval
    ensures { result ≡ between low high }
{
    Interval { low, high }
}

/// This word alone.
pub fn only(n: u16) -> Interval
    ensures { result ≡ only n }
{
    Interval { low: n, high: n }
}

/// The least interval that has both.
pub fn hull(i: Interval, j: Interval) -> Interval
    ensures { result ≡ hull i j }
{
    Interval {
        low: i.low.min(j.low),
        high: i.high.max(j.high),
    }
}

/// Words of the numbers from `low` to `high`.
pub fn wrapped(low: u32, high: u32) -> Interval
    ensures { result ≡ wrapped low high }
{
    if low / 65536 == high / 65536 {
        Interval {
            low: (low % 65536) as u16,
            high: (high % 65536) as u16,
        }
    } else {
        Interval {
            low: 0,
            high: 65535,
        }
    }
}

/// A truth value that is surely true, surely false, or either.
pub fn decided(surely: bool, never: bool) -> Interval
    ensures { result ≡ decided surely never }
{
    if surely {
        only(1)
    } else if never {
        only(0)
    } else {
        between(0, 1)
    }
}

fn ones(n: u16) -> u16
    ensures { result ≡ ones 16 65535 n }
{
    let mut mask: u16 = 65535;
    for _k in 0..16u8 {
        if n > mask / 2 {
            return mask;
        }
        mask /= 2;
    }
    mask
}

/// No bits of two words up to these make more.
pub fn most_of_bits(a: u16, b: u16) -> u16
    ensures { result ≡ most_of_bits a b }
{
    ones(a.max(b))
}
