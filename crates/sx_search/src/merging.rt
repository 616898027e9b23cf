//! What a search adds to a row.

use crate::blocks::{Grid, around, cut};
use crate::relevance::has;
use std::alloc::{AllocError, Global};
use sx_mean::apps::App;
use sx_span::intervals::{Interval, hull};
use sx_table::boxes::{box_within, fills};
use sx_table::demands::{Demand, NeededPlace, NeededValues};
use sx_table::places::{Place, has_place, place_within};
use sx_table::rows::{Row, places_at};
use sx_table::stays::{Freed, frees_device, frees_module, is_set, values_at};

/// So many places of a module stay apart in a row; if there are more, those that owe the same are
/// joined.
pub const MOST_APART: usize = 300;

/// The box around each of its intervals.
pub fn box_around(
    alloc: Global,
    blocks: &[Interval],
    cells: &[Interval],
) -> Result<Vec<Interval>, AllocError> {
    let mut wide = Vec::new(alloc);
    for i in cells {
        wide.push(around(blocks, *i))?;
    }
    Ok(wide)
}

fn copy_place(alloc: Global, place: &Place) -> Result<Place, AllocError> {
    Ok(Place {
        cells: Vec::from_slice(alloc, &place.cells)?,
        owed: Vec::from_slice(alloc, &place.owed)?,
    })
}

/// Copies of the places.
pub fn copies_of(alloc: Global, places: &[Place]) -> Result<Vec<Place>, AllocError> {
    let mut copies = Vec::new(alloc);
    for place in places {
        copies.push(copy_place(alloc, place)?)?;
    }
    Ok(copies)
}

/// Copies of the places that lie in none of others.
pub fn places_beyond(
    alloc: Global,
    places: &[Place],
    seen: &[Place],
) -> Result<Vec<Place>, AllocError> {
    let mut fresh = Vec::new(alloc);
    for place in places {
        if !has_place(place, seen) {
            fresh.push(copy_place(alloc, place)?)?;
        }
    }
    Ok(fresh)
}

/// Widens the box to hold another.
fn widen(cells: &mut [Interval], more: &[Interval]) {
    for k in 0..more.len() {
        if k < cells.len() {
            cells[k] = hull(cells[k], more[k]);
        }
    }
}

fn variables_at(grid: &Grid, m: usize) -> &[bool] {
    if m < grid.variables.len() {
        &grid.variables[m]
    } else {
        &[]
    }
}

fn owes_same(p: &Place, q: &Place) -> bool {
    box_within(&p.owed, &q.owed) && box_within(&q.owed, &p.owed)
}

/// Whether both are one number, the same, or neither is.
fn known_same(i: Interval, j: Interval) -> bool {
    if i.low == i.high {
        i.low == j.low && i.high == j.high
    } else {
        j.low != j.high
    }
}

/// Whether the variables that are known are the same in both.
fn is_like(variables: &[bool], p: &[Interval], q: &[Interval]) -> bool {
    for k in 0..variables.len() {
        if variables[k] && k < p.len() && k < q.len() && !known_same(p[k], q[k]) {
            return false;
        }
    }
    true
}

/// Joins a place with the first that owes the same and is like it, if there is one.
fn join_one(place: Place, variables: &[bool], joined: &mut Vec<Place>) -> Result<(), AllocError> {
    for q in joined.iter_mut() {
        if owes_same(&place, q) && is_like(variables, &place.cells, &q.cells) {
            widen(&mut q.cells, &place.cells);
            return Ok(());
        }
    }
    joined.push(place)?;
    Ok(())
}

fn join(alloc: Global, places: &[Place], variables: &[bool]) -> Result<Vec<Place>, AllocError> {
    let mut joined = Vec::new(alloc);
    for place in places {
        join_one(copy_place(alloc, place)?, variables, &mut joined)?;
    }
    Ok(joined)
}

/// Fewer places around all of these: those are joined that owe the same and whose known variables
/// are the same, or all that owe the same, if there are too many of the former.
fn joined(alloc: Global, places: &[Place], variables: &[bool]) -> Result<Vec<Place>, AllocError> {
    let alike = join(alloc, places, variables)?;
    if alike.len() > MOST_APART / 2 {
        return join(alloc, places, &[]);
    }
    Ok(alike)
}

/// Adds a place, and whether there was none around it.
fn put_place(
    alloc: Global,
    place: &Place,
    variables: &[bool],
    places: &mut Vec<Place>,
) -> Result<bool, AllocError> {
    if has_place(place, places) {
        return Ok(false);
    }
    places.retain(|q| !place_within(q, place));
    places.push(copy_place(alloc, place)?)?;
    if places.len() > MOST_APART {
        *places = joined(alloc, places, variables)?;
    }
    Ok(true)
}

/// Adds an interval, in order, and whether it wasn't there.
fn put_values(alloc: Global, i: Interval, values: &mut Vec<Interval>) -> Result<bool, AllocError> {
    if fills(values, i) {
        return Ok(false);
    }
    values.push(i)?;
    values.sort_by_key(|j: &Interval| j.low)?;
    Ok(true)
}

fn put_all_places(
    alloc: Global,
    places: &[Place],
    variables: &[bool],
    into: &mut Vec<Place>,
) -> Result<bool, AllocError> {
    let mut changed = false;
    for place in places {
        changed |= put_place(alloc, place, variables, into)?;
    }
    Ok(changed)
}

fn put_all_values(
    alloc: Global,
    values: &[Interval],
    into: &mut Vec<Interval>,
) -> Result<bool, AllocError> {
    let mut changed = false;
    for i in values {
        changed |= put_values(alloc, *i, into)?;
    }
    Ok(changed)
}

/// Adds what stays of the modules of a row: which may be absent, and where they may be.
fn keep_modules(
    alloc: Global,
    app: &App,
    grid: &Grid,
    freed: Freed,
    row: &Row,
    into: &mut Row,
) -> Result<bool, AllocError> {
    let mut changed = false;
    for m in 0..app.parts.len() {
        if !frees_module(app, freed, m) {
            if m < into.places.len() {
                let places = places_at(&row.places, m);
                let variables = variables_at(grid, m);
                changed |= put_all_places(alloc, places, variables, &mut into.places[m])?;
            }
            changed |= is_set(&row.absent, m) && set_absent(m, &mut into.absent);
        }
    }
    Ok(changed)
}

/// Sets the bit of a module that may be absent, and whether it wasn't set.
fn set_absent(m: usize, absent: &mut [bool]) -> bool {
    if m < absent.len() && !absent[m] {
        absent[m] = true;
        return true;
    }
    false
}

fn keep_lists(
    alloc: Global,
    app: &App,
    freed: Freed,
    lists: &[Vec<Interval>],
    into: &mut Vec<Vec<Interval>>,
) -> Result<bool, AllocError> {
    let mut changed = false;
    for n in 0..lists.len() {
        if n < into.len() && !frees_device(app, freed, n) {
            changed |= put_all_values(alloc, &lists[n], &mut into[n])?;
        }
    }
    Ok(changed)
}

/// Adds what stays of a row where an item frees these modules and devices, and whether that changed
/// anything.
pub fn keep(
    alloc: Global,
    app: &App,
    grid: &Grid,
    demand: &Demand,
    row: &Row,
    into: &mut Row,
) -> Result<bool, AllocError> {
    let mut changed = keep_modules(alloc, app, grid, demand.modules, row, into)?;
    changed |= keep_lists(
        alloc,
        app,
        demand.devices,
        &row.readings,
        &mut into.readings,
    )?;
    changed |= keep_lists(alloc, app, Freed::Nobody, &row.words, &mut into.words)?;
    Ok(changed)
}

fn add_absent(app: &App, freed: Freed, into: &mut [bool]) -> bool {
    let Freed::AtNode(_) = freed else {
        return false;
    };
    let mut changed = false;
    for m in 0..app.parts.len() {
        if frees_module(app, freed, m) {
            changed |= set_absent(m, into);
        }
    }
    changed
}

fn add_places(
    alloc: Global,
    grid: &Grid,
    needed: &[NeededPlace],
    into: &mut Vec<Vec<Place>>,
) -> Result<bool, AllocError> {
    let mut changed = false;
    for k in needed {
        if k.module_of < into.len() {
            let blocks = grid.blocks_for(has(&grid.relevant.modules, k.module_of));
            let place = Place {
                cells: box_around(alloc, blocks, &k.place.cells)?,
                owed: box_around(alloc, blocks, &k.place.owed)?,
            };
            let variables = variables_at(grid, k.module_of);
            changed |= put_place(alloc, &place, variables, &mut into[k.module_of])?;
        }
    }
    Ok(changed)
}

fn add_values(
    alloc: Global,
    grid: &Grid,
    relevant: &[bool],
    needed: &[NeededValues],
    into: &mut Vec<Vec<Interval>>,
) -> Result<bool, AllocError> {
    let mut changed = false;
    for k in needed {
        if k.index < into.len() && !fills(values_at(into, k.index), k.values) {
            let blocks = grid.blocks_for(has(relevant, k.index));
            let pieces = cut(alloc, blocks, k.values)?;
            changed |= put_all_values(alloc, &pieces, &mut into[k.index])?;
        }
    }
    Ok(changed)
}

/// Adds what an item asks for, and whether that changed anything.
pub fn add(
    alloc: Global,
    app: &App,
    grid: &Grid,
    demand: &Demand,
    into: &mut Row,
) -> Result<bool, AllocError> {
    let mut changed = add_absent(app, demand.modules, &mut into.absent);
    changed |= add_places(alloc, grid, &demand.places, &mut into.places)?;
    let relevant = &grid.relevant;
    changed |= add_values(
        alloc,
        grid,
        &relevant.devices,
        &demand.readings,
        &mut into.readings,
    )?;
    changed |= add_values(alloc, grid, &relevant.links, &demand.words, &mut into.words)?;
    Ok(changed)
}
