//! Places of modules.

ghost use Rattle.std.specs.Prelude.{◌≡◌, map};
ghost use Rattle.sx_table.specs.Places.{covers_places, fills_each, has_place, place_as};
ghost use Rattle.sx_table.specs.Places.{place_within};

use crate::boxes::{box_within, fills};
use sx_span::intervals::Interval;

/// Where a present module may be: its cells, and the emits that it owes.
#[derive(Drop)]
pub struct Place {
    /// Where its cells lie.
    pub cells: Vec<Interval>,
    /// Where the emits lie that it owes.
    pub owed: Vec<Interval>,
}

/// Whether a place lies in another.
pub fn place_within(p: &Place, q: &Place) -> bool
    ensures { result ≡ place_within (place_as p.now) (place_as q.now) }
{
    box_within(&p.cells, &q.cells) && box_within(&p.owed, &q.owed)
}

/// Whether a place lies in one of others.
pub fn has_place(p: &Place, qs: &[Place]) -> bool
    ensures { result ≡ has_place (place_as p.now) (map place_as qs.now) }
{
    for q in qs {
        if place_within(p, q) {
            return true;
        }
    }
    false
}

/// Whether each place lies in one of others.
pub fn covers_places(ps: &[Place], qs: &[Place]) -> bool
    ensures { result ≡ covers_places (map place_as ps.now) (map place_as qs.now) }
{
    for p in ps {
        if !has_place(p, qs) {
            return false;
        }
    }
    true
}

/// Whether intervals have each number of others.
pub fn fills_each(js: &[Interval], is: &[Interval]) -> bool
    ensures { result ≡ fills_each js.now is.now }
{
    for i in is {
        if !fills(js, *i) {
            return false;
        }
    }
    true
}
