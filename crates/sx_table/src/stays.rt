//! What stays of a row.

ghost use Rattle.std.specs.Prelude.{◌≡◌, map};
ghost use Rattle.sx_mean.specs.View.{app_as, part_as};
ghost use Rattle.sx_table.specs.Stays.{device_at, frees_device, frees_module, is_set, item_lists};
ghost use Rattle.sx_table.specs.Stays.{list_stays, part_at, values_at, values_stay};

use crate::places::fills_each;
use sx_mean::apps::{App, AppDevice, Part};
use sx_span::intervals::Interval;

/// Which modules or devices an item frees.
#[derive(Clone, Copy)]
pub enum Freed {
    /// None.
    Nobody,
    /// The one of this index.
    Only(usize),
    /// Those at a node.
    AtNode(usize),
}

/// The list of an index.
pub fn values_at(lists: &[Vec<Interval>], n: usize) -> &[Interval]
    ensures { result.now ≡ values_at (item_lists lists.now) n }
{
    if n < lists.len() { &lists[n] } else { &[] }
}

/// Whether the bit of an index is set.
pub fn is_set(bits: &[bool], n: usize) -> bool
    ensures { result ≡ is_set bits.now n }
{
    if n < bits.len() { bits[n] } else { false }
}

fn part_at(parts: &[Part], n: usize, m: usize) -> bool
    ensures { result ≡ part_at (map part_as parts.now) n m }
{
    if m < parts.len() {
        usize::from(parts[m].node) == n
    } else {
        false
    }
}

fn device_at(devices: &[AppDevice], n: usize, d: usize) -> bool
    ensures { result ≡ device_at devices.now n d }
{
    if d < devices.len() {
        usize::from(devices[d].node) == n
    } else {
        false
    }
}

/// Whether the module is freed.
pub fn frees_module(app: &App, freed: Freed, m: usize) -> bool
    ensures { result ≡ frees_module (app_as app.now) freed m }
{
    match freed {
        Freed::Nobody => false,
        Freed::Only(k) => k == m,
        Freed::AtNode(n) => part_at(&app.parts, n, m),
    }
}

/// Whether the device is freed.
pub fn frees_device(app: &App, freed: Freed, d: usize) -> bool
    ensures { result ≡ frees_device (app_as app.now) freed d }
{
    match freed {
        Freed::Nobody => false,
        Freed::Only(k) => k == d,
        Freed::AtNode(n) => device_at(&app.devices, n, d),
    }
}

/// Whether the list of an index stays.
fn list_stays(app: &App, freed: Freed, n: usize, old: &[Interval], new: &[Vec<Interval>]) -> bool
    ensures { result ≡ list_stays (app_as app.now) freed n old.now (item_lists new.now) }
{
    frees_device(app, freed, n) || fills_each(values_at(new, n), old)
}

/// Whether a row has what another has of all lists but the freed ones.
pub fn values_stay(app: &App, freed: Freed, old: &[Vec<Interval>], new: &[Vec<Interval>]) -> bool
    ensures { result ≡ values_stay (app_as app.now) freed 0 (item_lists old.now)
        (item_lists new.now) }
{
    for k in 0..old.len() {
        if !list_stays(app, freed, k, &old[k], new) {
            return false;
        }
    }
    true
}
