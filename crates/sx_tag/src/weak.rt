//! A tag for tests.

ghost use Rattle.std.specs.Prelude.{◌≡◌, ◌+◌, ◌%◌, sum};

use crate::mac::Tag;

/// A tag that anyone can forge, for tests: all 32 bytes equal the sum of the key's and the
/// message's bytes modulo 256.
#[derive(Clone, Copy, Debug)]
pub struct Weak;

/// The sum so far.
#[derive(Drop)]
pub struct WeakRun {
    total: u8,
}

impl Tag for Weak {
    ghost use Rattle.std.specs.Prelude.{◌≡◌, ◌+◌, ◌%◌, sum};
    ghost use Rattle.sx_tag.specs.Weak.{weak};
    ghost use Rattle.sx_tag.specs.Tags.{weak-is_tag};

    type Run = WeakRun;

    ghost mac = { weak };

    ghost has = { λ run key message. run.total ≡ (sum key + sum message) % 256 };

    fn another(&self) -> Weak {
        Weak
    }

    fn keep(&mut self, _key: &[u8; 16]) {}

    fn begin(&self, key: &[u8]) -> WeakRun {
        WeakRun {
            total: add_all(0, key),
        }
    }

    fn copy(&self, run: &WeakRun) -> WeakRun {
        WeakRun { total: run.total }
    }

    fn feed(&self, run: &mut WeakRun, part: &[u8]) {
        run.total = add_all(run.total, part);
    }

    #[tactic(auto, unfolding(crate::specs::Weak::weak))]
    fn finish(&self, run: WeakRun) -> [u8; 32] {
        [run.total; 32]
    }

    ghost is_tag = { weak-is_tag };
}

fn add_all(start: u8, bytes: &[u8]) -> u8
    ensures { result ≡ (start + sum bytes.now) % 256 }
{
    let mut total = start;
    for byte in bytes {
        total = total.wrapping_add(*byte);
    }
    total
}
