//! The items that can come in a row, and what each asks of the next row.

use std::alloc::Global;
use sx_mean::apps::{App, Link, Part, is_sensor};
use sx_span::intervals::Interval;
use sx_span::stop::Stop;
use sx_table::boxes::fills;
use sx_table::demands::Demand;
use sx_table::leads::byte;
use sx_table::made::answers;
use sx_table::places::{Place, has_place};
use sx_table::rows::{Row, places_at};
use sx_table::shut::{frees, nought, place_demand, protect_demand, sense_demand};
use sx_table::stays::{Freed, is_set, values_at};
use sx_watch::topics::{Topic, TopicKind};

/// A visit to a row: its items are followed, as far as they weren't at the visit before.
#[derive(Drop)]
pub struct Visit {
    /// The row.
    pub row: Row,
    /// The row at the visit before.
    pub seen: Row,
    /// What the row has more than then; all modules that may be absent are in it.
    pub fresh: Row,
    /// Whether this is the first visit.
    pub first: bool,
}

/// Items of one topic with values in an interval.
#[derive(Drop)]
pub struct Move {
    /// What the items are about.
    pub topic: Topic,
    /// Where their values lie.
    pub values: Interval,
    /// What they ask of the next row.
    pub demand: Demand,
    /// Whether they weren't followed before; else only what is fresh has to stay.
    pub new: bool,
}

impl Visit {
    /// What an item has to be followed from, if its value is new, or was there before.
    pub fn source(&self, new: bool) -> &Row {
        if new { &self.row } else { &self.fresh }
    }
}

fn push_resets(alloc: Global, app: &App, visit: &Visit, moves: &mut Vec<Move>) -> Result<(), Stop> {
    for n in 0..app.nodes {
        let node = Freed::AtNode(usize::from(n));
        moves.push(Move {
            topic: Topic::new(TopicKind::Reset, n),
            values: nought(),
            demand: frees(alloc, node, node),
            new: visit.first,
        })?;
    }
    Ok(())
}

fn push_protects(
    alloc: Global,
    parts: &[Part],
    visit: &Visit,
    moves: &mut Vec<Move>,
) -> Result<(), Stop> {
    for m in 0..parts.len() {
        if is_set(&visit.row.absent, m) {
            let demand = protect_demand(alloc, m, &parts[m].code)?;
            moves.push(Move {
                topic: Topic::new(TopicKind::Protect, byte(m)?),
                values: nought(),
                demand,
                new: !is_set(&visit.seen.absent, m),
            })?;
        }
    }
    Ok(())
}

/// The device that an item frees of which nothing else changes, if it is such an item.
fn freed_alone(topic: Topic) -> Option<Freed> {
    match topic.kind {
        TopicKind::Drain => Some(Freed::Only(usize::from(topic.index))),
        TopicKind::Attested => Some(Freed::Nobody),
        _ => None,
    }
}

/// What is heard of drained sensors and attested modules.
fn push_heard(
    alloc: Global,
    topics: &[Topic],
    visit: &Visit,
    moves: &mut Vec<Move>,
) -> Result<(), Stop> {
    for topic in topics {
        if let Some(device) = freed_alone(*topic) {
            moves.push(Move {
                topic: *topic,
                values: nought(),
                demand: frees(alloc, Freed::Nobody, device),
                new: visit.first,
            })?;
        }
    }
    Ok(())
}

/// A device gets a value: a sensor has it then.
fn given(alloc: Global, d: usize, sensor: bool, values: Interval, new: bool) -> Result<Move, Stop> {
    let number = byte(d)?;
    if sensor {
        let topic = Topic::new(TopicKind::Sense, number);
        let demand = sense_demand(alloc, d, values)?;
        return Ok(Move {
            topic,
            values,
            demand,
            new,
        });
    }
    let topic = Topic::new(TopicKind::Raw, number);
    let demand = frees(alloc, Freed::Nobody, Freed::Nobody);
    Ok(Move {
        topic,
        values,
        demand,
        new,
    })
}

fn push_given(
    alloc: Global,
    d: usize,
    sensor: bool,
    values: &[Interval],
    visit: &Visit,
    moves: &mut Vec<Move>,
) -> Result<(), Stop> {
    for i in values {
        moves.push(given(alloc, d, sensor, *i, visit.first)?)?;
    }
    Ok(())
}

fn push_all_given(
    alloc: Global,
    app: &App,
    lists: &[Vec<Interval>],
    visit: &Visit,
    moves: &mut Vec<Move>,
) -> Result<(), Stop> {
    for d in 0..app.devices.len() {
        let sensor = is_sensor(app.devices[d].kind);
        push_given(alloc, d, sensor, values_at(lists, d), visit, moves)?;
    }
    Ok(())
}

fn push_readings(
    alloc: Global,
    app: &App,
    m: usize,
    part: &Part,
    visit: &Visit,
    moves: &mut Vec<Move>,
) -> Result<(), Stop> {
    let Some(d) = part.device else {
        return Ok(());
    };
    let device = usize::from(d);
    let freed = Freed::Only(device);
    for i in values_at(&visit.row.readings, device) {
        let new = !fills(values_at(&visit.seen.readings, device), *i);
        moves.push(Move {
            topic: Topic::new(TopicKind::Read, byte(m)?),
            values: *i,
            demand: answers(
                alloc,
                app,
                visit.source(new),
                m,
                &part.code,
                None,
                *i,
                freed,
            )?,
            new,
        })?;
    }
    Ok(())
}

fn push_reads(alloc: Global, app: &App, visit: &Visit, moves: &mut Vec<Move>) -> Result<(), Stop> {
    for m in 0..app.parts.len() {
        push_readings(alloc, app, m, &app.parts[m], visit, moves)?;
    }
    Ok(())
}

fn push_words(
    alloc: Global,
    app: &App,
    c: usize,
    link: Link,
    visit: &Visit,
    moves: &mut Vec<Move>,
) -> Result<(), Stop> {
    let to = usize::from(link.to);
    if to >= app.parts.len() {
        return Ok(());
    }
    let code = &app.parts[to].code;
    let input = Some(link.input);
    for i in values_at(&visit.row.words, c) {
        let new = !fills(values_at(&visit.seen.words, c), *i);
        let from = visit.source(new);
        moves.push(Move {
            topic: Topic::new(TopicKind::Take, byte(c)?),
            values: *i,
            demand: answers(alloc, app, from, to, code, input, *i, Freed::Nobody)?,
            new,
        })?;
    }
    Ok(())
}

fn push_takes(alloc: Global, app: &App, visit: &Visit, moves: &mut Vec<Move>) -> Result<(), Stop> {
    for c in 0..app.links.len() {
        push_words(alloc, app, c, app.links[c], visit, moves)?;
    }
    Ok(())
}

fn push_write(
    alloc: Global,
    m: usize,
    place: &Place,
    new: bool,
    moves: &mut Vec<Move>,
) -> Result<(), Stop> {
    match place.owed.split_first() {
        None => Ok(()),
        Some((first, rest)) => {
            let cells = Vec::from_slice(alloc, &place.cells)?;
            let owed = Vec::from_slice(alloc, rest)?;
            moves.push(Move {
                topic: Topic::new(TopicKind::Out, byte(m)?),
                values: *first,
                demand: place_demand(alloc, m, cells, owed)?,
                new,
            })?;
            Ok(())
        }
    }
}

fn push_writes_of(
    alloc: Global,
    m: usize,
    visit: &Visit,
    moves: &mut Vec<Move>,
) -> Result<(), Stop> {
    for place in places_at(&visit.row.places, m) {
        let new = !has_place(place, places_at(&visit.seen.places, m));
        push_write(alloc, m, place, new, moves)?;
    }
    Ok(())
}

fn push_writes(alloc: Global, app: &App, visit: &Visit, moves: &mut Vec<Move>) -> Result<(), Stop> {
    for m in 0..app.parts.len() {
        push_writes_of(alloc, m, visit, moves)?;
    }
    Ok(())
}

/// All items that can come in the row, where each device may be given these values.
pub fn moves_of(
    alloc: Global,
    app: &App,
    topics: &[Topic],
    given: &[Vec<Interval>],
    visit: &Visit,
) -> Result<Vec<Move>, Stop> {
    let mut moves = Vec::new(alloc);
    push_resets(alloc, app, visit, &mut moves)?;
    push_protects(alloc, &app.parts, visit, &mut moves)?;
    push_heard(alloc, topics, visit, &mut moves)?;
    push_all_given(alloc, app, given, visit, &mut moves)?;
    push_reads(alloc, app, visit, &mut moves)?;
    push_takes(alloc, app, visit, &mut moves)?;
    push_writes(alloc, app, visit, &mut moves)?;
    Ok(moves)
}
