//! The search for a table that passes the check: rows are closed under all items.

use crate::blocks::{Grid, cut, grid_of};
use crate::gaps::{Gap, Halt, Reason};
use crate::merging::{add, box_around, copies_of, keep, places_beyond};
use crate::moves::{Move, Visit, moves_of};
use crate::relevance::has;
use std::alloc::{AllocError, Global};
use std::mem;
use sx_mean::apps::{App, AppDevice, is_sensor};
use sx_mean::stores::Store;
use sx_span::intervals::Interval;
use sx_span::pieces::{EventRange, Trail};
use sx_span::reactions::react_within;
use sx_table::boxes::{box_within, fills};
use sx_table::leads::{are_quiet, byte, input_of};
use sx_table::places::Place;
use sx_table::rows::{Row, Table, places_at};
use sx_table::shut::push_alone;
use sx_table::stays::values_at;
use sx_watch::property::Property;
use sx_watch::topics::{Topic, TopicKind};

/// A table has at most so many rows.
pub const MOST_ROWS: usize = 1_024;

/// All rows of a table together have at most so many places.
pub const MOST_PLACES: usize = 65_536;

/// Each row is closed in at most so many rounds.
pub const MOST_ROUNDS: usize = 256;

/// What the search found.
#[derive(Drop)]
pub enum Found {
    /// A table from which no item is known to lead.
    Closed(Table),
    /// Where it gave up.
    Open(Gap),
}

/// A table that is being closed.
#[derive(Drop)]
struct Search {
    table: Table,
    /// What each row had when it was visited last.
    seen: Vec<Row>,
    /// Whether each row was visited.
    visited: Vec<bool>,
    /// Whether each row has changed since it was visited.
    changed: Vec<bool>,
    /// The row that is visited.
    row: usize,
    /// What the item is about that is followed.
    topic: Topic,
    /// To which rows items of which topics led at this visit.
    led: Vec<Led>,
}

/// Items of a topic led to a row.
#[derive(Clone, Copy)]
struct Led {
    topic: Topic,
    to: usize,
    /// Whether all of the visited row stays there, and not only what is fresh.
    all: bool,
}

fn no_values(alloc: Global, count: usize) -> Result<Vec<Vec<Interval>>, AllocError> {
    let mut lists = Vec::new(alloc);
    for _ in 0..count {
        lists.push(Vec::new(alloc))?;
    }
    Ok(lists)
}

fn no_places(alloc: Global, count: usize) -> Result<Vec<Vec<Place>>, AllocError> {
    let mut lists = Vec::new(alloc);
    for _ in 0..count {
        lists.push(Vec::new(alloc))?;
    }
    Ok(lists)
}

/// A row without places and values.
fn empty_row(
    alloc: Global,
    app: &App,
    watch: Vec<Interval>,
    absent: bool,
) -> Result<Row, AllocError> {
    Ok(Row {
        watch,
        absent: vec![in alloc; absent; app.parts.len()]?,
        places: no_places(alloc, app.parts.len())?,
        readings: no_values(alloc, app.devices.len())?,
        words: no_values(alloc, app.links.len())?,
    })
}

fn copy_values(alloc: Global, lists: &[Vec<Interval>]) -> Result<Vec<Vec<Interval>>, AllocError> {
    let mut copies = Vec::new(alloc);
    for list in lists {
        copies.push(Vec::from_slice(alloc, list)?)?;
    }
    Ok(copies)
}

fn copy_places(alloc: Global, lists: &[Vec<Place>]) -> Result<Vec<Vec<Place>>, AllocError> {
    let mut copies = Vec::new(alloc);
    for list in lists {
        copies.push(copies_of(alloc, list)?)?;
    }
    Ok(copies)
}

fn copy_row(alloc: Global, row: &Row) -> Result<Row, AllocError> {
    Ok(Row {
        watch: Vec::from_slice(alloc, &row.watch)?,
        absent: Vec::from_slice(alloc, &row.absent)?,
        places: copy_places(alloc, &row.places)?,
        readings: copy_values(alloc, &row.readings)?,
        words: copy_values(alloc, &row.words)?,
    })
}

fn fresh_values(
    alloc: Global,
    lists: &[Vec<Interval>],
    seen: &[Vec<Interval>],
) -> Result<Vec<Vec<Interval>>, AllocError> {
    let mut fresh = Vec::new(alloc);
    for n in 0..lists.len() {
        fresh.push(values_beyond(alloc, &lists[n], values_at(seen, n))?)?;
    }
    Ok(fresh)
}

fn values_beyond(
    alloc: Global,
    values: &[Interval],
    seen: &[Interval],
) -> Result<Vec<Interval>, AllocError> {
    let mut fresh = Vec::new(alloc);
    for i in values {
        if !fills(seen, *i) {
            fresh.push(*i)?;
        }
    }
    Ok(fresh)
}

fn fresh_places(
    alloc: Global,
    lists: &[Vec<Place>],
    seen: &[Vec<Place>],
) -> Result<Vec<Vec<Place>>, AllocError> {
    let mut fresh = Vec::new(alloc);
    for m in 0..lists.len() {
        fresh.push(places_beyond(alloc, &lists[m], places_at(seen, m))?)?;
    }
    Ok(fresh)
}

/// What a row has more than it had.
fn fresh_row(alloc: Global, row: &Row, seen: &Row) -> Result<Row, AllocError> {
    Ok(Row {
        watch: Vec::new(alloc),
        absent: Vec::from_slice(alloc, &row.absent)?,
        places: fresh_places(alloc, &row.places, &seen.places)?,
        readings: fresh_values(alloc, &row.readings, &seen.readings)?,
        words: fresh_values(alloc, &row.words, &seen.words)?,
    })
}

/// The values that a device may be given: a sensor each reading, an actuator each word where that
/// is heard.
fn given_to(
    alloc: Global,
    grid: &Grid,
    topics: &[Topic],
    d: usize,
    device: AppDevice,
) -> Result<Vec<Interval>, Halt> {
    let low = 0;
    if is_sensor(device.kind) {
        let blocks = grid.blocks_for(has(&grid.relevant.devices, d));
        return Ok(cut(alloc, blocks, Interval { low, high: 32_767 })?);
    }
    match input_of(topics, Topic::new(TopicKind::Raw, byte(d)?)) {
        None => Ok(Vec::new(alloc)),
        Some(_) => Ok(cut(alloc, &grid.blocks, Interval { low, high: 65_535 })?),
    }
}

fn given_of(
    alloc: Global,
    app: &App,
    grid: &Grid,
    topics: &[Topic],
) -> Result<Vec<Vec<Interval>>, Halt> {
    let mut given = Vec::new(alloc);
    for d in 0..app.devices.len() {
        given.push(given_to(alloc, grid, topics, d, app.devices[d])?)?;
    }
    Ok(given)
}

/// A table with the property's first cells alone, where all modules are absent.
fn begin(alloc: Global, app: &App, property: &Property, grid: &Grid) -> Result<Search, Halt> {
    let first = Store::initial(alloc, &property.code)?;
    let mut watch = Vec::new(alloc);
    push_alone(&first.cells, &mut watch)?;
    let mut rows = Vec::new(alloc);
    rows.push(empty_row(alloc, app, watch, true)?)?;
    let mut seen = Vec::new(alloc);
    seen.push(empty_row(alloc, app, Vec::new(alloc), false)?)?;
    Ok(Search {
        table: Table {
            rows,
            given: given_of(alloc, app, grid, &property.topics)?,
        },
        seen,
        visited: vec![in alloc; false; 1]?,
        changed: vec![in alloc; true; 1]?,
        row: 0,
        topic: Topic::new(TopicKind::Reset, 0),
        led: Vec::new(alloc),
    })
}

fn same_box(left: &[Interval], right: &[Interval]) -> bool {
    box_within(left, right) && box_within(right, left)
}

/// The number of the row where the property's cells lie in this box; a new one if there is none.
fn row_of(
    alloc: Global,
    app: &App,
    watch: Vec<Interval>,
    search: &mut Search,
) -> Result<usize, Halt> {
    let count = search.table.rows.len();
    for k in 0..count {
        if k < search.table.rows.len() && same_box(&watch, &search.table.rows[k].watch) {
            return Ok(k);
        }
    }
    if count >= MOST_ROWS {
        return Err(Halt::GivesUp(Reason::TooManyRows));
    }
    search
        .table
        .rows
        .push(empty_row(alloc, app, watch, false)?)?;
    search
        .seen
        .push(empty_row(alloc, app, Vec::new(alloc), false)?)?;
    search.visited.push(false)?;
    search.changed.push(true)?;
    Ok(count)
}

/// Whether items of the topic led to the row at this visit, so that as much stays there already.
fn has_led(led: &[Led], topic: Topic, to: usize, all: bool) -> bool {
    led.iter()
        .any(|l| l.topic == topic && l.to == to && (l.all || !all))
}

/// Adds to another row what stays of the visited one.
fn stay(
    alloc: Global,
    app: &App,
    grid: &Grid,
    visit: &Visit,
    item: &Move,
    to: usize,
    search: &mut Search,
) -> Result<bool, AllocError> {
    if to == search.row || has_led(&search.led, item.topic, to, item.new) {
        return Ok(false);
    }
    if to >= search.table.rows.len() {
        return Ok(false);
    }
    search.led.push(Led {
        topic: item.topic,
        to,
        all: item.new,
    })?;
    let from = visit.source(item.new);
    keep(
        alloc,
        app,
        grid,
        &item.demand,
        from,
        &mut search.table.rows[to],
    )
}

/// Adds to a row what an item leads to.
fn arrive(
    alloc: Global,
    app: &App,
    grid: &Grid,
    visit: &Visit,
    item: &Move,
    to: usize,
    search: &mut Search,
) -> Result<(), Halt> {
    let mut changed = stay(alloc, app, grid, visit, item, to, search)?;
    if to < search.table.rows.len() {
        changed |= add(alloc, app, grid, &item.demand, &mut search.table.rows[to])?;
    }
    if to < search.changed.len() {
        search.changed[to] |= changed;
    }
    Ok(())
}

/// What the property may do at an item that it hears of.
fn heard(
    alloc: Global,
    property: &Property,
    item: &Move,
    watch: &[Interval],
) -> Result<Option<Vec<Trail>>, Halt> {
    match input_of(&property.topics, item.topic) {
        None => Ok(None),
        Some(j) => {
            let event = EventRange::InputIn(byte(j)?, item.values);
            Ok(Some(react_within(alloc, &property.code, event, watch)?))
        }
    }
}

fn follow_all(
    alloc: Global,
    app: &App,
    grid: &Grid,
    visit: &Visit,
    item: &Move,
    trails: &[Trail],
    search: &mut Search,
) -> Result<(), Halt> {
    for trail in trails {
        if !are_quiet(&trail.acts) {
            return Err(Halt::GivesUp(Reason::MayBreak));
        }
        let watch = box_around(alloc, &grid.blocks, &trail.cells)?;
        let to = row_of(alloc, app, watch, search)?;
        arrive(alloc, app, grid, visit, item, to, search)?;
    }
    Ok(())
}

fn follow(
    alloc: Global,
    app: &App,
    property: &Property,
    grid: &Grid,
    visit: &Visit,
    item: &Move,
    search: &mut Search,
) -> Result<(), Halt> {
    search.topic = item.topic;
    let here = search.row;
    match heard(alloc, property, item, &visit.row.watch)? {
        None => arrive(alloc, app, grid, visit, item, here, search),
        Some(trails) => follow_all(alloc, app, grid, visit, item, &trails, search),
    }
}

/// Begins a visit to a row.
fn visit_to(alloc: Global, k: usize, search: &mut Search) -> Result<Option<Visit>, AllocError> {
    if k >= search.table.rows.len() || k >= search.seen.len() || k >= search.visited.len() {
        return Ok(None);
    }
    let row = copy_row(alloc, &search.table.rows[k])?;
    let seen = mem::replace(&mut search.seen[k], copy_row(alloc, &row)?);
    let first = !search.visited[k];
    search.visited[k] = true;
    search.row = k;
    search.led.clear();
    let fresh = fresh_row(alloc, &row, &seen)?;
    Ok(Some(Visit {
        row,
        seen,
        fresh,
        first,
    }))
}

/// Follows the items from a row, as far as they weren't followed before.
fn close_row(
    alloc: Global,
    app: &App,
    property: &Property,
    grid: &Grid,
    k: usize,
    search: &mut Search,
) -> Result<(), Halt> {
    let Some(visit) = visit_to(alloc, k, search)? else {
        return Ok(());
    };
    let moves = moves_of(alloc, app, &property.topics, &search.table.given, &visit)?;
    for item in &moves {
        follow(alloc, app, property, grid, &visit, item, search)?;
    }
    Ok(())
}

/// Whether the row has changed; it counts as followed then.
fn take_changed(k: usize, changed: &mut [bool]) -> bool {
    if k < changed.len() && changed[k] {
        changed[k] = false;
        return true;
    }
    false
}

fn places_in(rows: &[Row]) -> usize {
    let mut count: usize = 0;
    for row in rows {
        for places in &row.places {
            count = count.saturating_add(places.len());
        }
    }
    count
}

/// Follows the items of each row that has changed, and whether there was one.
fn close_rows(
    alloc: Global,
    app: &App,
    property: &Property,
    grid: &Grid,
    search: &mut Search,
) -> Result<bool, Halt> {
    let mut any = false;
    for k in 0..search.table.rows.len() {
        if take_changed(k, &mut search.changed) {
            any = true;
            close_row(alloc, app, property, grid, k, search)?;
        }
    }
    if places_in(&search.table.rows) > MOST_PLACES {
        return Err(Halt::GivesUp(Reason::TooManyPlaces));
    }
    Ok(any)
}

fn close(
    alloc: Global,
    app: &App,
    property: &Property,
    grid: &Grid,
    search: &mut Search,
) -> Result<(), Halt> {
    for _ in 0..MOST_ROUNDS {
        if !close_rows(alloc, app, property, grid, search)? {
            return Ok(());
        }
    }
    Err(Halt::GivesUp(Reason::TooManyRounds))
}

/// Where the search is.
fn gap_at(alloc: Global, reason: Reason, search: &Search) -> Result<Gap, AllocError> {
    let cells = if search.row < search.table.rows.len() {
        Vec::from_slice(alloc, &search.table.rows[search.row].watch)?
    } else {
        Vec::new(alloc)
    };
    Ok(Gap {
        reason,
        cells,
        topic: search.topic,
    })
}

/// Searches for a table from which no item leads, where the numbers below `fine` are told apart.
/// Nothing is promised of what is found, and the check has to decide; the limits end the search.
pub fn find_table(alloc: Global, app: &App, property: &Property, fine: u16) -> Result<Found, Halt> {
    let grid = grid_of(alloc, app, property, fine)?;
    let mut search = begin(alloc, app, property, &grid)?;
    match close(alloc, app, property, &grid, &mut search) {
        Ok(()) => Ok(Found::Closed(search.table)),
        Err(Halt::GivesUp(reason)) => Ok(Found::Open(gap_at(alloc, reason, &search)?)),
        Err(Halt::OutOfMemory) => Err(Halt::OutOfMemory),
    }
}
