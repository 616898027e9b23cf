//! Where the property goes.

ghost use Rattle.std.specs.Prelude.{◌≡◌, IfOk, None, Some, map};
ghost use Rattle.std.specs.List.{position_from};
ghost use Rattle.sx_mean.specs.View.{app_as};
ghost use Rattle.sx_span.specs.View.{paths_in};
ghost use Rattle.sx_table.specs.Demands.{demand_as};
ghost use Rattle.sx_table.specs.Leads.{are_quiet, each_led, finds, finds_in, is_led, is_quiet};
ghost use Rattle.sx_table.specs.Leads.{leads_at, leads_on};
ghost use Rattle.sx_table.specs.Rows.{row_as, table_as};
ghost use Rattle.sx_watch.specs.Topics.{same_topic};
ghost use Rattle.sx_watch.specs.Watching.{property_as};

use crate::boxes::box_within;
use crate::demands::{Demand, meets};
use crate::rows::{Row, Table};
use std::alloc::Global;
use sx_mean::apps::App;
use sx_span::intervals::Interval;
use sx_span::pieces::{ActRange, EventRange, Trail};
use sx_span::reactions::react_within;
use sx_span::stop::Stop;
use sx_watch::property::Property;
use sx_watch::topics::Topic;

fn same_topic(left: Topic, right: Topic) -> bool
    ensures { result ≡ same_topic left right }
{
    left.kind == right.kind && left.index == right.index
}

/// The number of the first of the property's inputs that is of this topic.
pub fn input_of(topics: &[Topic], topic: Topic) -> Option<usize>
    ensures { result ≡ position_from (same_topic topic) 0 topics.now }
{
    for n in 0..topics.len() {
        if same_topic(topic, topics[n]) {
            return Some(n);
        }
    }
    None
}

fn is_quiet(a: ActRange) -> bool
    ensures { result ≡ is_quiet a }
{
    match a {
        ActRange::SendIn(_, _) => true,
        ActRange::EmitIn(_) => false,
    }
}

/// Whether nothing is emitted.
pub fn are_quiet(acts: &[ActRange]) -> bool
    ensures { result ≡ are_quiet acts.now }
{
    for a in acts {
        if !is_quiet(*a) {
            return false;
        }
    }
    true
}

fn finds_in(app: &App, row: &Row, d: &Demand, cells: &[Interval], new: &Row) -> bool
    ensures { result ≡ finds_in (app_as app.now) (row_as row.now) (demand_as d.now) cells.now
        (row_as new.now) }
{
    box_within(cells, &new.watch) && meets(app, row, d, new)
}

fn finds(app: &App, rows: &[Row], row: &Row, d: &Demand, cells: &[Interval]) -> bool
    ensures { result ≡ finds (app_as app.now) (map row_as rows.now) (row_as row.now)
        (demand_as d.now) cells.now }
{
    for new in rows {
        if finds_in(app, row, d, cells, new) {
            return true;
        }
    }
    false
}

fn is_led(
    app: &App,
    rows: &[Row],
    row: &Row,
    d: &Demand,
    cells: &[Interval],
    acts: &[ActRange],
) -> bool
    ensures { result ≡ is_led (app_as app.now) (map row_as rows.now) (row_as row.now)
        (demand_as d.now) cells.now acts.now }
{
    are_quiet(acts) && finds(app, rows, row, d, cells)
}

fn each_led(app: &App, rows: &[Row], row: &Row, d: &Demand, trails: &[Trail]) -> bool
    ensures { result ≡ each_led (app_as app.now) (map row_as rows.now) (row_as row.now)
        (demand_as d.now) (paths_in trails.now) }
{
    for p in trails {
        if !is_led(app, rows, row, d, &p.cells, &p.acts) {
            return false;
        }
    }
    true
}

/// The number as a byte, if it is one.
pub fn byte(n: usize) -> Result<u8, Stop>
    ensures { IfOk result (λ b. b ≡ n) }
{
    if n > 255 {
        return Err(Stop::IndexTooLarge);
    }
    Ok(n as u8)
}

fn hears(
    alloc: Global,
    app: &App,
    property: &Property,
    table: &Table,
    row: &Row,
    j: usize,
    i: Interval,
    d: &Demand,
) -> Result<bool, Stop>
    ensures { IfOk result (λ b. b ≡ leads_at (app_as app.now) (property_as property.now)
        (table_as table.now) (row_as row.now) (Some j) i (demand_as d.now)) }
{
    let trails = react_within(
        alloc,
        &property.code,
        EventRange::InputIn(byte(j)?, i),
        &row.watch,
    )?;
    Ok(each_led(app, &table.rows, row, d, &trails))
}

/// Whether wherever the property goes at the item some row meets the demand.
pub fn leads_on(
    alloc: Global,
    app: &App,
    property: &Property,
    table: &Table,
    row: &Row,
    topic: Topic,
    i: Interval,
    d: &Demand,
) -> Result<bool, Stop>
    ensures { IfOk result (λ b. b ≡ leads_on (app_as app.now) (property_as property.now)
        (table_as table.now) (row_as row.now) topic i (demand_as d.now)) }
{
    match input_of(&property.topics, topic) {
        None => Ok(is_led(app, &table.rows, row, d, &row.watch, &[])),
        Some(j) => hears(alloc, app, property, table, row, j, i, d),
    }
}
