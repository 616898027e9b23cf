//! What an item asks of the next row.

ghost use Rattle.std.specs.Prelude.{◌≡◌, map};
ghost use Rattle.sx_mean.specs.View.{app_as, part_as};
ghost use Rattle.sx_table.specs.Demands.{demand_as, gone_at, gone_from, has_gone, has_needed};
ghost use Rattle.sx_table.specs.Demands.{has_values, have_needed, have_values, meets, needed_as};
ghost use Rattle.sx_table.specs.Stays.{item_lists};
ghost use Rattle.sx_table.specs.Rows.{place_lists, row_as};

use crate::boxes::fills;
use crate::places::{Place, has_place};
use crate::rows::{Row, places_at, stays};
use crate::stays::{Freed, is_set, values_at};
use sx_mean::apps::{App, Part};
use sx_span::intervals::Interval;

/// A place of a module that the next row must have.
#[derive(Drop)]
pub struct NeededPlace {
    /// The module.
    pub module_of: usize,
    /// Its place.
    pub place: Place,
}

/// Values of a device or a connection that the next row must have.
#[derive(Clone, Copy)]
pub struct NeededValues {
    /// The device or connection.
    pub index: usize,
    /// The values.
    pub values: Interval,
}

/// What an item asks of the next row.
#[derive(Drop)]
pub struct Demand {
    /// The modules that it frees.
    pub modules: Freed,
    /// The devices that it frees.
    pub devices: Freed,
    /// The places that it asks for.
    pub places: Vec<NeededPlace>,
    /// The fresh values that it asks for.
    pub readings: Vec<NeededValues>,
    /// The words that it asks for.
    pub words: Vec<NeededValues>,
}

fn gone_at(n: usize, m: usize, q: &Part, new: &[bool]) -> bool
    ensures { result ≡ gone_at n m (part_as q.now) new.now }
{
    usize::from(q.node) != n || is_set(new, m)
}

fn gone_from(n: usize, parts: &[Part], new: &[bool]) -> bool
    ensures { result ≡ gone_from n 0 (map part_as parts.now) new.now }
{
    for m in 0..parts.len() {
        if !gone_at(n, m, &parts[m], new) {
            return false;
        }
    }
    true
}

/// Whether the modules of a node may be absent.
pub fn has_gone(app: &App, freed: Freed, new: &[bool]) -> bool
    ensures { result ≡ has_gone (app_as app.now) freed new.now }
{
    match freed {
        Freed::Nobody => true,
        Freed::Only(_) => true,
        Freed::AtNode(n) => gone_from(n, &app.parts, new),
    }
}

fn has_needed(lists: &[Vec<Place>], k: &NeededPlace) -> bool
    ensures { result ≡ has_needed (place_lists lists.now) (needed_as k.now) }
{
    has_place(&k.place, places_at(lists, k.module_of))
}

fn have_needed(lists: &[Vec<Place>], ks: &[NeededPlace]) -> bool
    ensures { result ≡ have_needed (place_lists lists.now) (map needed_as ks.now) }
{
    for k in ks {
        if !has_needed(lists, k) {
            return false;
        }
    }
    true
}

fn has_values(lists: &[Vec<Interval>], k: NeededValues) -> bool
    ensures { result ≡ has_values (item_lists lists.now) k }
{
    fills(values_at(lists, k.index), k.values)
}

fn have_values(lists: &[Vec<Interval>], ks: &[NeededValues]) -> bool
    ensures { result ≡ have_values (item_lists lists.now) ks.now }
{
    for k in ks {
        if !has_values(lists, *k) {
            return false;
        }
    }
    true
}

/// Whether the next row meets the demand.
pub fn meets(app: &App, row: &Row, d: &Demand, new: &Row) -> bool
    ensures { result ≡ meets (app_as app.now) (row_as row.now) (demand_as d.now) (row_as new.now) }
{
    stays(app, d.modules, d.devices, row, new)
        && (has_gone(app, d.modules, &new.absent)
            && (have_needed(&new.places, &d.places)
                && (have_values(&new.readings, &d.readings) && have_values(&new.words, &d.words))))
}
