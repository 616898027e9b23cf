//! Rows, and what stays of them.

ghost use Rattle.std.specs.Prelude.{◌≡◌, map};
ghost use Rattle.sx_table.specs.Places.{place_as};
ghost use Rattle.sx_table.specs.Rows.{absent_stays, absents_stay, place_lists, places_at};
ghost use Rattle.sx_table.specs.Rows.{places_list_stays};
ghost use Rattle.sx_table.specs.Rows.{places_stay, row_as, stays};
ghost use Rattle.sx_mean.specs.View.{app_as};

use crate::places::{Place, covers_places};
use crate::stays::{Freed, frees_module, is_set, values_stay};
use sx_mean::apps::App;
use sx_span::intervals::Interval;

/// Where the application may be while the property's cells are in the box.
#[derive(Drop)]
pub struct Row {
    /// Where the property's cells lie.
    pub watch: Vec<Interval>,
    /// Whether each module may be absent.
    pub absent: Vec<bool>,
    /// The places of each module where it is present.
    pub places: Vec<Vec<Place>>,
    /// The values of each sensor that are fresh.
    pub readings: Vec<Vec<Interval>>,
    /// The words that were sent over each connection.
    pub words: Vec<Vec<Interval>>,
}

/// The rows, and the values that each device may be given.
#[derive(Drop)]
pub struct Table {
    /// The rows.
    pub rows: Vec<Row>,
    /// The values that each device may be given from outside.
    pub given: Vec<Vec<Interval>>,
}

/// The places of a module.
pub fn places_at(lists: &[Vec<Place>], m: usize) -> &[Place]
    ensures { map place_as result.now ≡ places_at (place_lists lists.now) m }
{
    if m < lists.len() { &lists[m] } else { &[] }
}

fn places_list_stays(app: &App, freed: Freed, m: usize, old: &[Place], new: &[Vec<Place>]) -> bool
    ensures { result ≡ places_list_stays (app_as app.now) freed m (map place_as old.now)
        (place_lists new.now) }
{
    frees_module(app, freed, m) || covers_places(old, places_at(new, m))
}

fn places_stay(app: &App, freed: Freed, old: &[Vec<Place>], new: &[Vec<Place>]) -> bool
    ensures { result ≡ places_stay (app_as app.now) freed 0 (place_lists old.now)
        (place_lists new.now) }
{
    for m in 0..old.len() {
        if !places_list_stays(app, freed, m, &old[m], new) {
            return false;
        }
    }
    true
}

fn absent_stays(app: &App, freed: Freed, m: usize, old: bool, new: &[bool]) -> bool
    ensures { result ≡ absent_stays (app_as app.now) freed m old new.now }
{
    frees_module(app, freed, m) || (!old || is_set(new, m))
}

fn absents_stay(app: &App, freed: Freed, old: &[bool], new: &[bool]) -> bool
    ensures { result ≡ absents_stay (app_as app.now) freed 0 old.now new.now }
{
    for m in 0..old.len() {
        if !absent_stays(app, freed, m, old[m], new) {
            return false;
        }
    }
    true
}

/// Whether a row has what another has of all modules and devices but the freed ones, and of all
/// connections.
pub fn stays(app: &App, modules: Freed, devices: Freed, row: &Row, new: &Row) -> bool
    ensures { result ≡ stays (app_as app.now) modules devices (row_as row.now) (row_as new.now) }
{
    absents_stay(app, modules, &row.absent, &new.absent)
        && (places_stay(app, modules, &row.places, &new.places)
            && (values_stay(app, devices, &row.readings, &new.readings)
                && values_stay(app, Freed::Nobody, &row.words, &new.words)))
}
