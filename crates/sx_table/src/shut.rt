//! From no row an item leads out of the table.

ghost use Rattle.std.specs.Prelude.{◌≡◌, ◌++◌, IfOk, OnOk, None, Some, map, option_map};
ghost use Rattle.sx_check.specs.Source.{source_tree};
ghost use Rattle.sx_mean.specs.View.{app_as, part_as};
ghost use Rattle.sx_table.specs.Demands.{demand_as};
ghost use Rattle.sx_table.specs.Places.{place_as};
ghost use Rattle.sx_table.specs.Shut.{absent_at, absent_from, alone, begins, begins_at, each_shut};
ghost use Rattle.sx_table.specs.Shut.{frees, given_demand, gives_at, gives_of, gives_on, has_raw};
ghost use Rattle.sx_table.specs.Shut.{have_raw, heard_demand, heard_on, is_open, is_shut};
ghost use Rattle.sx_table.specs.Shut.{is_shut_at, nought, opens_at, opens_from, place_demand};
ghost use Rattle.sx_table.specs.Shut.{protect_demand, protects_at, protects_on, reads_at, reads_if};
ghost use Rattle.sx_table.specs.Shut.{reads_of, reads_on, resets_at, resets_on, sense_demand};
ghost use Rattle.sx_table.specs.Shut.{shut_last, shut_within, takes_at, takes_of, takes_on};
ghost use Rattle.sx_table.specs.Shut.{takes_part, topics_on, writes_of, writes_on, writes_owed};
ghost use Rattle.sx_table.specs.Stays.{item_lists};
ghost use Rattle.sx_table.specs.Rows.{place_lists, row_as, table_as};
ghost use Rattle.sx_watch.specs.Watching.{property_as};

use crate::boxes::{box_has, fills};
use crate::demands::{Demand, NeededPlace, NeededValues};
use crate::leads::{byte, input_of, leads_on};
use crate::made::answers;
use crate::places::Place;
use crate::rows::{Row, Table};
use crate::stays::{Freed, is_set, values_at};
use std::alloc::Global;
use sx_check::checked::Checked;
use sx_mean::apps::{App, AppDevice, Link, Part, is_sensor};
use sx_mean::stores::Store;
use sx_span::intervals::Interval;
use sx_span::stop::Stop;
use sx_watch::property::Property;
use sx_watch::topics::{Topic, TopicKind};

/// 0 alone.
pub fn nought() -> Interval
    ensures { result ≡ nought }
{
    Interval { low: 0, high: 0 }
}

/// Nothing but what stays.
pub fn frees(alloc: Global, modules: Freed, devices: Freed) -> Demand
    ensures { demand_as result ≡ frees modules devices }
{
    Demand {
        modules,
        devices,
        places: Vec::new(alloc),
        readings: Vec::new(alloc),
        words: Vec::new(alloc),
    }
}

/// A place of a module.
pub fn place_demand(
    alloc: Global,
    m: usize,
    cells: Vec<Interval>,
    owed: Vec<Interval>,
) -> Result<Demand, Stop>
    ensures { IfOk result (λ d. demand_as d ≡ place_demand m cells.items owed.items) }
{
    let mut places = Vec::new(alloc);
    places.push(NeededPlace {
        module_of: m,
        place: Place { cells, owed },
    })?;
    Ok(Demand {
        modules: Freed::Only(m),
        devices: Freed::Nobody,
        places,
        readings: Vec::new(alloc),
        words: Vec::new(alloc),
    })
}

/// The value of a sensor.
pub fn sense_demand(alloc: Global, d: usize, i: Interval) -> Result<Demand, Stop>
    ensures { IfOk result (λ k. demand_as k ≡ sense_demand d i) }
{
    let mut readings = Vec::new(alloc);
    readings.push(NeededValues {
        index: d,
        values: i,
    })?;
    Ok(Demand {
        modules: Freed::Nobody,
        devices: Freed::Only(d),
        places: Vec::new(alloc),
        readings,
        words: Vec::new(alloc),
    })
}

/// Adds an interval of one for each of the numbers.
pub fn push_alone(values: &[u16], found: &mut Vec<Interval>) -> Result<(), Stop>
    ensures { OnOk result (found.new.items ≡ found.old.items ++ alone values.now) }
{
    for v in values {
        found.push(Interval { low: *v, high: *v })?;
    }
    Ok(())
}

/// The first place of a module.
pub fn protect_demand(alloc: Global, m: usize, code: &Checked) -> Result<Demand, Stop>
    ensures { IfOk result (λ d. demand_as d ≡ protect_demand m (source_tree code.now)) }
{
    let first = Store::initial(alloc, code)?;
    let mut cells = Vec::new(alloc);
    push_alone(&first.cells, &mut cells)?;
    place_demand(alloc, m, cells, Vec::new(alloc))
}

fn heard_demand(alloc: Global, topic: Topic) -> Option<Demand>
    ensures { option_map demand_as result ≡ heard_demand topic.kind topic.index }
{
    let index = usize::from(topic.index);
    match topic.kind {
        TopicKind::Reset => Some(frees(alloc, Freed::AtNode(index), Freed::AtNode(index))),
        TopicKind::Drain => Some(frees(alloc, Freed::Nobody, Freed::Only(index))),
        TopicKind::Attested => Some(frees(alloc, Freed::Nobody, Freed::Nobody)),
        _ => None,
    }
}

fn heard_on(
    alloc: Global,
    app: &App,
    property: &Property,
    table: &Table,
    row: &Row,
    topic: Topic,
) -> Result<bool, Stop>
    ensures { IfOk result (λ b. b ≡ heard_on (app_as app.now) (property_as property.now)
        (table_as table.now) (row_as row.now) topic) }
{
    match heard_demand(alloc, topic) {
        Some(d) => leads_on(alloc, app, property, table, row, topic, nought(), &d),
        None => Ok(true),
    }
}

fn topics_on(
    alloc: Global,
    app: &App,
    property: &Property,
    table: &Table,
    row: &Row,
    topics: &[Topic],
) -> Result<bool, Stop>
    ensures { IfOk result (λ b. b ≡ topics_on (app_as app.now) (property_as property.now)
        (table_as table.now) (row_as row.now) topics.now) }
{
    for u in topics {
        if !heard_on(alloc, app, property, table, row, *u)? {
            return Ok(false);
        }
    }
    Ok(true)
}

fn resets_at(property: &Property, row: &Row, m: usize, q: &Part) -> bool
    ensures { result ≡ resets_at (property_as property.now) (row_as row.now) m (part_as q.now) }
{
    input_of(&property.topics, Topic::new(TopicKind::Reset, q.node)).is_some()
        || is_set(&row.absent, m)
}

fn resets_on(property: &Property, row: &Row, parts: &[Part]) -> bool
    ensures { result ≡ resets_on (property_as property.now) (row_as row.now) 0
        (map part_as parts.now) }
{
    for m in 0..parts.len() {
        if !resets_at(property, row, m, &parts[m]) {
            return false;
        }
    }
    true
}

fn protects_at(
    alloc: Global,
    app: &App,
    property: &Property,
    table: &Table,
    row: &Row,
    m: usize,
    q: &Part,
) -> Result<bool, Stop>
    ensures { IfOk result (λ b. b ≡ protects_at (app_as app.now) (property_as property.now)
        (table_as table.now) (row_as row.now) m (part_as q.now)) }
{
    if !is_set(&row.absent, m) {
        return Ok(true);
    }
    let d = protect_demand(alloc, m, &q.code)?;
    leads_on(
        alloc,
        app,
        property,
        table,
        row,
        Topic::new(TopicKind::Protect, byte(m)?),
        nought(),
        &d,
    )
}

fn protects_on(
    alloc: Global,
    app: &App,
    property: &Property,
    table: &Table,
    row: &Row,
    parts: &[Part],
) -> Result<bool, Stop>
    ensures { IfOk result (λ b. b ≡ protects_on (app_as app.now) (property_as property.now)
        (table_as table.now) (row_as row.now) 0 (map part_as parts.now)) }
{
    for m in 0..parts.len() {
        if !protects_at(alloc, app, property, table, row, m, &parts[m])? {
            return Ok(false);
        }
    }
    Ok(true)
}

fn given_demand(alloc: Global, kind: TopicKind, d: usize, i: Interval) -> Result<Demand, Stop>
    ensures { IfOk result (λ k. demand_as k ≡ given_demand kind d i) }
{
    match kind {
        TopicKind::Sense => sense_demand(alloc, d, i),
        _ => Ok(frees(alloc, Freed::Nobody, Freed::Nobody)),
    }
}

fn gives_at(
    alloc: Global,
    app: &App,
    property: &Property,
    table: &Table,
    row: &Row,
    kind: TopicKind,
    d: usize,
    i: Interval,
) -> Result<bool, Stop>
    ensures { IfOk result (λ b. b ≡ gives_at (app_as app.now) (property_as property.now)
        (table_as table.now) (row_as row.now) kind d i) }
{
    let k = given_demand(alloc, kind, d, i)?;
    let topic = Topic::new(kind, byte(d)?);
    leads_on(alloc, app, property, table, row, topic, i, &k)
}

fn gives_of(
    alloc: Global,
    app: &App,
    property: &Property,
    table: &Table,
    row: &Row,
    kind: TopicKind,
    d: usize,
    list: &[Interval],
) -> Result<bool, Stop>
    ensures { IfOk result (λ b. b ≡ gives_of (app_as app.now) (property_as property.now)
        (table_as table.now) (row_as row.now) kind d list.now) }
{
    for i in list {
        if !gives_at(alloc, app, property, table, row, kind, d, *i)? {
            return Ok(false);
        }
    }
    Ok(true)
}

fn gives_on(
    alloc: Global,
    app: &App,
    property: &Property,
    table: &Table,
    row: &Row,
    kind: TopicKind,
    lists: &[Vec<Interval>],
) -> Result<bool, Stop>
    ensures { IfOk result (λ b. b ≡ gives_on (app_as app.now) (property_as property.now)
        (table_as table.now) (row_as row.now) kind 0 (item_lists lists.now)) }
{
    for d in 0..lists.len() {
        if !gives_of(alloc, app, property, table, row, kind, d, &lists[d])? {
            return Ok(false);
        }
    }
    Ok(true)
}

fn reads_at(
    alloc: Global,
    app: &App,
    property: &Property,
    table: &Table,
    row: &Row,
    m: usize,
    code: &Checked,
    d: usize,
    i: Interval,
) -> Result<bool, Stop>
    ensures { IfOk result (λ b. b ≡ reads_at (app_as app.now) (property_as property.now)
        (table_as table.now) (row_as row.now) m (source_tree code.now) d i) }
{
    let k = answers(alloc, app, row, m, code, None, i, Freed::Only(d))?;
    leads_on(
        alloc,
        app,
        property,
        table,
        row,
        Topic::new(TopicKind::Read, byte(m)?),
        i,
        &k,
    )
}

fn reads_of(
    alloc: Global,
    app: &App,
    property: &Property,
    table: &Table,
    row: &Row,
    m: usize,
    code: &Checked,
    d: usize,
    list: &[Interval],
) -> Result<bool, Stop>
    ensures { IfOk result (λ b. b ≡ reads_of (app_as app.now) (property_as property.now)
        (table_as table.now) (row_as row.now) m (source_tree code.now) d list.now) }
{
    for i in list {
        if !reads_at(alloc, app, property, table, row, m, code, d, *i)? {
            return Ok(false);
        }
    }
    Ok(true)
}

fn reads_if(
    alloc: Global,
    app: &App,
    property: &Property,
    table: &Table,
    row: &Row,
    m: usize,
    q: &Part,
) -> Result<bool, Stop>
    ensures { IfOk result (λ b. b ≡ reads_if (app_as app.now) (property_as property.now)
        (table_as table.now) (row_as row.now) m (source_tree q.now.code) q.now.device) }
{
    match q.device {
        None => Ok(true),
        Some(d) => reads_of(
            alloc,
            app,
            property,
            table,
            row,
            m,
            &q.code,
            usize::from(d),
            values_at(&row.readings, usize::from(d)),
        ),
    }
}

fn reads_on(
    alloc: Global,
    app: &App,
    property: &Property,
    table: &Table,
    row: &Row,
    parts: &[Part],
) -> Result<bool, Stop>
    ensures { IfOk result (λ b. b ≡ reads_on (app_as app.now) (property_as property.now)
        (table_as table.now) (row_as row.now) 0 (map part_as parts.now)) }
{
    for m in 0..parts.len() {
        if !reads_if(alloc, app, property, table, row, m, &parts[m])? {
            return Ok(false);
        }
    }
    Ok(true)
}

fn takes_at(
    alloc: Global,
    app: &App,
    property: &Property,
    table: &Table,
    row: &Row,
    c: usize,
    l: Link,
    code: &Checked,
    i: Interval,
) -> Result<bool, Stop>
    ensures { IfOk result (λ b. b ≡ takes_at (app_as app.now) (property_as property.now)
        (table_as table.now) (row_as row.now) c l (source_tree code.now) i) }
{
    let k = answers(
        alloc,
        app,
        row,
        usize::from(l.to),
        code,
        Some(l.input),
        i,
        Freed::Nobody,
    )?;
    leads_on(
        alloc,
        app,
        property,
        table,
        row,
        Topic::new(TopicKind::Take, byte(c)?),
        i,
        &k,
    )
}

fn takes_of(
    alloc: Global,
    app: &App,
    property: &Property,
    table: &Table,
    row: &Row,
    c: usize,
    l: Link,
    code: &Checked,
    list: &[Interval],
) -> Result<bool, Stop>
    ensures { IfOk result (λ b. b ≡ takes_of (app_as app.now) (property_as property.now)
        (table_as table.now) (row_as row.now) c l (source_tree code.now) list.now) }
{
    for i in list {
        if !takes_at(alloc, app, property, table, row, c, l, code, *i)? {
            return Ok(false);
        }
    }
    Ok(true)
}

fn takes_part(
    alloc: Global,
    app: &App,
    property: &Property,
    table: &Table,
    row: &Row,
    c: usize,
    l: Link,
    parts: &[Part],
) -> Result<bool, Stop>
    ensures { IfOk result (λ b. b ≡ takes_part (app_as app.now) (property_as property.now)
        (table_as table.now) (row_as row.now) c l (map part_as parts.now)) }
{
    let m = usize::from(l.to);
    if m < parts.len() {
        takes_of(
            alloc,
            app,
            property,
            table,
            row,
            c,
            l,
            &parts[m].code,
            values_at(&row.words, c),
        )
    } else {
        Ok(true)
    }
}

fn takes_on(
    alloc: Global,
    app: &App,
    property: &Property,
    table: &Table,
    row: &Row,
    links: &[Link],
) -> Result<bool, Stop>
    ensures { IfOk result (λ b. b ≡ takes_on (app_as app.now) (property_as property.now)
        (table_as table.now) (row_as row.now) 0 links.now) }
{
    for c in 0..links.len() {
        if !takes_part(alloc, app, property, table, row, c, links[c], &app.parts)? {
            return Ok(false);
        }
    }
    Ok(true)
}

fn writes_owed(
    alloc: Global,
    app: &App,
    property: &Property,
    table: &Table,
    row: &Row,
    m: usize,
    cells: &[Interval],
    owed: &[Interval],
) -> Result<bool, Stop>
    ensures { IfOk result (λ b. b ≡ writes_owed (app_as app.now) (property_as property.now)
        (table_as table.now) (row_as row.now) m cells.now owed.now) }
{
    match owed {
        [] => Ok(true),
        [i, rest @ ..] => {
            let cells = Vec::from_slice(alloc, cells)?;
            let rest = Vec::from_slice(alloc, rest)?;
            let k = place_demand(alloc, m, cells, rest)?;
            leads_on(
                alloc,
                app,
                property,
                table,
                row,
                Topic::new(TopicKind::Out, byte(m)?),
                *i,
                &k,
            )
        }
    }
}

fn writes_of(
    alloc: Global,
    app: &App,
    property: &Property,
    table: &Table,
    row: &Row,
    m: usize,
    places: &[Place],
) -> Result<bool, Stop>
    ensures { IfOk result (λ b. b ≡ writes_of (app_as app.now) (property_as property.now)
        (table_as table.now) (row_as row.now) m (map place_as places.now)) }
{
    for p in places {
        if !writes_owed(alloc, app, property, table, row, m, &p.cells, &p.owed)? {
            return Ok(false);
        }
    }
    Ok(true)
}

fn writes_on(
    alloc: Global,
    app: &App,
    property: &Property,
    table: &Table,
    row: &Row,
    lists: &[Vec<Place>],
) -> Result<bool, Stop>
    ensures { IfOk result (λ b. b ≡ writes_on (app_as app.now) (property_as property.now)
        (table_as table.now) (row_as row.now) 0 (place_lists lists.now)) }
{
    for m in 0..lists.len() {
        if !writes_of(alloc, app, property, table, row, m, &lists[m])? {
            return Ok(false);
        }
    }
    Ok(true)
}

fn shut_last(
    alloc: Global,
    app: &App,
    property: &Property,
    table: &Table,
    row: &Row,
) -> Result<bool, Stop>
    ensures { IfOk result (λ b. b ≡ shut_last (app_as app.now) (property_as property.now)
        (table_as table.now) (row_as row.now)) }
{
    if !takes_on(alloc, app, property, table, row, &app.links)? {
        return Ok(false);
    }
    if !writes_on(alloc, app, property, table, row, &row.places)? {
        return Ok(false);
    }
    gives_on(
        alloc,
        app,
        property,
        table,
        row,
        TopicKind::Raw,
        &table.given,
    )
}

fn shut_within(
    alloc: Global,
    app: &App,
    property: &Property,
    table: &Table,
    row: &Row,
) -> Result<bool, Stop>
    ensures { IfOk result (λ b. b ≡ shut_within (app_as app.now) (property_as property.now)
        (table_as table.now) (row_as row.now)) }
{
    if !gives_on(
        alloc,
        app,
        property,
        table,
        row,
        TopicKind::Sense,
        &table.given,
    )? {
        return Ok(false);
    }
    if !reads_on(alloc, app, property, table, row, &app.parts)? {
        return Ok(false);
    }
    shut_last(alloc, app, property, table, row)
}

/// From the row no item leads out of the table.
pub fn is_shut_at(
    alloc: Global,
    app: &App,
    property: &Property,
    table: &Table,
    row: &Row,
) -> Result<bool, Stop>
    ensures { IfOk result (λ b. b ≡ is_shut_at (app_as app.now) (property_as property.now)
        (table_as table.now) (row_as row.now)) }
{
    if !topics_on(alloc, app, property, table, row, &property.topics)? {
        return Ok(false);
    }
    if !resets_on(property, row, &app.parts) {
        return Ok(false);
    }
    if !protects_on(alloc, app, property, table, row, &app.parts)? {
        return Ok(false);
    }
    shut_within(alloc, app, property, table, row)
}

fn each_shut(
    alloc: Global,
    app: &App,
    property: &Property,
    table: &Table,
    rows: &[Row],
) -> Result<bool, Stop>
    ensures { IfOk result (λ b. b ≡ each_shut (app_as app.now) (property_as property.now)
        (table_as table.now) (map row_as rows.now)) }
{
    for row in rows {
        if !is_shut_at(alloc, app, property, table, row)? {
            return Ok(false);
        }
    }
    Ok(true)
}

fn absent_at(bits: &[bool], m: usize, part: &Part) -> bool
    ensures { result ≡ absent_at bits.now m (part_as part.now) }
{
    is_set(bits, m)
}

fn absent_from(bits: &[bool], parts: &[Part]) -> bool
    ensures { result ≡ absent_from bits.now 0 (map part_as parts.now) }
{
    for m in 0..parts.len() {
        if !absent_at(bits, m, &parts[m]) {
            return false;
        }
    }
    true
}

fn begins_at(app: &App, cells: &[u16], row: &Row) -> bool
    ensures { result ≡ begins_at (app_as app.now) cells.now (row_as row.now) }
{
    box_has(&row.watch, cells) && absent_from(&row.absent, &app.parts)
}

fn begins(app: &App, cells: &[u16], rows: &[Row]) -> bool
    ensures { result ≡ begins (app_as app.now) cells.now (map row_as rows.now) }
{
    for row in rows {
        if begins_at(app, cells, row) {
            return true;
        }
    }
    false
}

/// The table has the property's first cells, and no item leads out of it.
pub fn is_shut(alloc: Global, app: &App, property: &Property, table: &Table) -> Result<bool, Stop>
    ensures { IfOk result (λ b. b ≡ is_shut (app_as app.now) (property_as property.now)
        (table_as table.now)) }
{
    let first = Store::initial(alloc, &property.code)?;
    if !begins(app, &first.cells, &table.rows) {
        return Ok(false);
    }
    each_shut(alloc, app, property, table, &table.rows)
}

fn opens_at(lists: &[Vec<Interval>], d: usize, x: AppDevice) -> bool
    ensures { result ≡ opens_at (item_lists lists.now) d x }
{
    !is_sensor(x.kind)
        || fills(
            values_at(lists, d),
            Interval {
                low: 0,
                high: 32767,
            },
        )
}

fn opens_from(lists: &[Vec<Interval>], devices: &[AppDevice]) -> bool
    ensures { result ≡ opens_from (item_lists lists.now) 0 devices.now }
{
    for d in 0..devices.len() {
        if !opens_at(lists, d, devices[d]) {
            return false;
        }
    }
    true
}

fn has_raw(lists: &[Vec<Interval>], topic: Topic) -> bool
    ensures { result ≡ has_raw (item_lists lists.now) topic }
{
    match topic.kind {
        TopicKind::Raw => fills(
            values_at(lists, usize::from(topic.index)),
            Interval {
                low: 0,
                high: 65535,
            },
        ),
        _ => true,
    }
}

fn have_raw(lists: &[Vec<Interval>], topics: &[Topic]) -> bool
    ensures { result ≡ have_raw (item_lists lists.now) topics.now }
{
    for u in topics {
        if !has_raw(lists, *u) {
            return false;
        }
    }
    true
}

/// The table has each value that can be given from outside.
pub fn is_open(app: &App, property: &Property, table: &Table) -> bool
    ensures { result ≡ is_open (app_as app.now) (property_as property.now) (table_as table.now) }
{
    opens_from(&table.given, &app.devices) && have_raw(&table.given, &property.topics)
}
