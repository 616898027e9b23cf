//! What a module's reaction asks of the next row.

ghost use Rattle.std.specs.Prelude.{◌≡◌, ◌++◌, IfOk, OnOk, map};
ghost use Rattle.sx_check.specs.Source.{source_tree};
ghost use Rattle.sx_span.specs.View.{path_of, paths_in};
ghost use Rattle.sx_mean.specs.View.{app_as};
ghost use Rattle.sx_table.specs.Demands.{demand_as, needed_as};
ghost use Rattle.sx_table.specs.Made.{answered, answers, carried, carried_one, emit_of, event_in};
ghost use Rattle.sx_table.specs.Made.{may_emit};
ghost use Rattle.sx_table.specs.Made.{needed_at, owes_none, places_of, sent_by, sent_over};
ghost use Rattle.sx_table.specs.Made.{ways_at};
ghost use Rattle.sx_table.specs.Made.{ways_from, words_of};
ghost use Rattle.sx_table.specs.Places.{place_as};
ghost use Rattle.sx_table.specs.Rows.{row_as};

use crate::demands::{Demand, NeededPlace, NeededValues};
use crate::places::Place;
use crate::rows::{Row, places_at};
use crate::stays::Freed;
use std::alloc::Global;
use sx_check::checked::Checked;
use sx_mean::apps::{App, Link};
use sx_span::intervals::Interval;
use sx_span::pieces::{ActRange, EventRange, Trail};
use sx_span::reactions::react_within;
use sx_span::stop::Stop;

fn carry(c: usize, output: u8, a: ActRange, found: &mut Vec<NeededValues>) -> Result<(), Stop>
    ensures { OnOk result (found.new.items ≡ found.old.items ++ carried_one c output a) }
{
    match a {
        ActRange::SendIn(port, i) => {
            if port == output {
                found.push(NeededValues {
                    index: c,
                    values: i,
                })?;
            }
            Ok(())
        }
        ActRange::EmitIn(_) => Ok(()),
    }
}

fn carried(
    c: usize,
    output: u8,
    acts: &[ActRange],
    found: &mut Vec<NeededValues>,
) -> Result<(), Stop>
    ensures { OnOk result (found.new.items ≡ found.old.items ++ carried c output acts.now) }
{
    for a in acts {
        carry(c, output, *a, found)?;
    }
    Ok(())
}

fn sent_by(
    m: usize,
    n: usize,
    l: Link,
    acts: &[ActRange],
    found: &mut Vec<NeededValues>,
) -> Result<(), Stop>
    ensures { OnOk result (found.new.items ≡ found.old.items ++ sent_by m n l acts.now) }
{
    if usize::from(l.from) == m {
        carried(n, l.output, acts, found)?;
    }
    Ok(())
}

fn sent_over(
    m: usize,
    links: &[Link],
    acts: &[ActRange],
    found: &mut Vec<NeededValues>,
) -> Result<(), Stop>
    ensures { OnOk result (found.new.items ≡ found.old.items ++ sent_over m 0 links.now acts.now) }
{
    for n in 0..links.len() {
        sent_by(m, n, links[n], acts, found)?;
    }
    Ok(())
}

fn words_of(
    app: &App,
    m: usize,
    trails: &[Trail],
    found: &mut Vec<NeededValues>,
) -> Result<(), Stop>
    ensures { OnOk result (found.new.items ≡ found.old.items ++ words_of (app_as app.now) m
        (paths_in trails.now)) }
{
    for p in trails {
        sent_over(m, &app.links, &p.acts, found)?;
    }
    Ok(())
}

fn push_emit(a: ActRange, found: &mut Vec<Interval>) -> Result<(), Stop>
    ensures { OnOk result (found.new.items ≡ found.old.items ++ emit_of a) }
{
    match a {
        ActRange::SendIn(_, _) => Ok(()),
        ActRange::EmitIn(i) => {
            found.push(i)?;
            Ok(())
        }
    }
}

fn push_emits(acts: &[ActRange], found: &mut Vec<Interval>) -> Result<(), Stop>
    ensures { OnOk result (found.new.items ≡ found.old.items ++ may_emit acts.now) }
{
    for a in acts {
        push_emit(*a, found)?;
    }
    Ok(())
}

fn may_emit(alloc: Global, acts: &[ActRange]) -> Result<Vec<Interval>, Stop>
    ensures { IfOk result (λ v. v.items ≡ may_emit acts.now) }
{
    let mut found = Vec::new(alloc);
    push_emits(acts, &mut found)?;
    Ok(found)
}

fn needed_at(alloc: Global, m: usize, p: &Trail) -> Result<NeededPlace, Stop>
    ensures { IfOk result (λ k. needed_as k ≡ needed_at m (path_of p.now)) }
{
    let cells = Vec::from_slice(alloc, &p.cells)?;
    let owed = may_emit(alloc, &p.acts)?;
    Ok(NeededPlace {
        module_of: m,
        place: Place { cells, owed },
    })
}

fn places_of(
    alloc: Global,
    m: usize,
    trails: &[Trail],
    found: &mut Vec<NeededPlace>,
) -> Result<(), Stop>
    ensures { OnOk result
        (map needed_as found.new.items ≡ map needed_as found.old.items ++ places_of m
        (paths_in trails.now)) }
{
    for p in trails {
        found.push(needed_at(alloc, m, p)?)?;
    }
    Ok(())
}

fn owes_none(owed: &[Interval]) -> bool
    ensures { result ≡ owes_none owed.now }
{
    owed.is_empty()
}

fn event_in(input: Option<u8>, i: Interval) -> EventRange
    ensures { result ≡ event_in input i }
{
    match input {
        None => EventRange::SampleIn(i),
        Some(j) => EventRange::InputIn(j, i),
    }
}

fn push_each(trails: Vec<Trail>, found: &mut Vec<Trail>) -> Result<(), Stop>
    ensures { OnOk result
        (paths_in found.new.items ≡ paths_in found.old.items ++ paths_in trails.items) }
{
    for trail in trails {
        found.push(trail)?;
    }
    Ok(())
}

fn ways_at(
    alloc: Global,
    code: &Checked,
    input: Option<u8>,
    i: Interval,
    p: &Place,
    found: &mut Vec<Trail>,
) -> Result<(), Stop>
    ensures { OnOk result (paths_in found.new.items ≡ paths_in found.old.items
        ++ ways_at (source_tree code.now) input i (place_as p.now)) }
{
    if owes_none(&p.owed) {
        let trails = react_within(alloc, code, event_in(input, i), &p.cells)?;
        push_each(trails, found)?;
    }
    Ok(())
}

fn ways_from(
    alloc: Global,
    code: &Checked,
    input: Option<u8>,
    i: Interval,
    ps: &[Place],
    found: &mut Vec<Trail>,
) -> Result<(), Stop>
    ensures { OnOk result (paths_in found.new.items ≡ paths_in found.old.items
        ++ ways_from (source_tree code.now) input i (map place_as ps.now)) }
{
    for p in ps {
        ways_at(alloc, code, input, i, p, found)?;
    }
    Ok(())
}

fn answered(
    alloc: Global,
    app: &App,
    m: usize,
    trails: &[Trail],
    devices: Freed,
) -> Result<Demand, Stop>
    ensures { IfOk result (λ d. demand_as d ≡ answered (app_as app.now) m
        (paths_in trails.now) devices) }
{
    let mut places = Vec::new(alloc);
    places_of(alloc, m, trails, &mut places)?;
    let mut words = Vec::new(alloc);
    words_of(app, m, trails, &mut words)?;
    Ok(Demand {
        modules: Freed::Only(m),
        devices,
        places,
        readings: Vec::new(alloc),
        words,
    })
}

/// What a reaction asks.
pub fn answers(
    alloc: Global,
    app: &App,
    row: &Row,
    m: usize,
    code: &Checked,
    input: Option<u8>,
    i: Interval,
    devices: Freed,
) -> Result<Demand, Stop>
    ensures { IfOk result (λ d. demand_as d
        ≡ answers (app_as app.now) (row_as row.now) m (source_tree code.now) input i devices) }
{
    let mut trails = Vec::new(alloc);
    ways_from(
        alloc,
        code,
        input,
        i,
        places_at(&row.places, m),
        &mut trails,
    )?;
    answered(alloc, app, m, &trails, devices)
}
