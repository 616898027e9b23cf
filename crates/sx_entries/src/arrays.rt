//! Rule 4: the arrays of a document, each entry in form.
ghost use Rattle.std.specs.Prelude.{◌≡◌, None, Option, option_map, [], option_and_then};
ghost use Rattle.toml.specs.Data.{Members, get_member, as_table};
ghost use Rattle.toml.specs.View.{table_view, array_view, view};
ghost use Rattle.sx_entries.specs.Fields.{key_at};
ghost use Rattle.sx_entries.specs.Rows.{node_row, device_row, module_row, link_row};
ghost use Rattle.sx_entries.specs.Gives.{Gives, TakesNoMemory};
ghost use Rattle.sx_entries.specs.Arrays.{array_of, arrays_of, listed, made_in, rows_in, rows_of};
ghost use Rattle.sx_entries.specs.Arrays.{secret_of};
ghost use Rattle.sx_entries.specs.Seen.{items_seen, arrays_seen};

use crate::fault::{DeployError, DeployFault, Place, Sort};
use crate::fields::{has_key, has_only, key_at, name_of, value_at};
use crate::rows::{
    DeviceRow, LinkRow, ModuleRow, NodeRow, device_row, link_row, module_row, node_row,
};
use crate::stages::in_entry;
use std::alloc::Global;
use std::marker::Model;
use toml::{Table, Value};

/// The rows of a document's arrays.
#[derive(Drop)]
pub struct Rows<'a> {
    /// The deployer's secret, from which the keys of connections are derived.
    pub secret: [u8; 16],
    /// The array `node`.
    pub nodes: Vec<NodeRow>,
    /// The array `device`.
    pub devices: Vec<DeviceRow>,
    /// The array `module`.
    pub modules: Vec<ModuleRow<'a>>,
    /// The array `connection`.
    pub links: Vec<LinkRow>,
}

impl<'a> Model for Rows<'a> {
    ghost use Rattle.sx_entries.specs.Arrays.{RowLists};

    ghost Value = { RowLists };

    ghost view = { λ d. record {
      secret = d.secret;
      nodes = d.nodes.items;
      devices = d.devices.items;
      modules = d.modules.items;
      links = d.links.items;
    } };
}

#[derive(Drop)]
struct Arrays<'a> {
    secret: [u8; 16],
    nodes: Option<&'a Vec<Value>>,
    devices: Option<&'a Vec<Value>>,
    modules: Option<&'a Vec<Value>>,
    links: Option<&'a Vec<Value>>,
}

/// A type of row.
trait Row<'a>: Sized + Drop {
    ghost reads: { Members → Option Self };

    fn read(table: &'a Table) -> Option<Self>
        ensures { result ≡ reads (table_view table.now) };
}

impl<'a> Row<'a> for NodeRow {
    ghost reads = { node_row };

    fn read(table: &'a Table) -> Option<Self> {
        node_row(table)
    }
}

impl<'a> Row<'a> for DeviceRow {
    ghost reads = { device_row };

    fn read(table: &'a Table) -> Option<Self> {
        device_row(table)
    }
}

impl<'a> Row<'a> for ModuleRow<'a> {
    ghost reads = { module_row };

    fn read(table: &'a Table) -> Option<Self> {
        module_row(table)
    }
}

impl<'a> Row<'a> for LinkRow {
    ghost reads = { link_row };

    fn read(table: &'a Table) -> Option<Self> {
        link_row(table)
    }
}

/// The array at a key: `Some(None)` where the key is absent.
fn array_at<'a>(table: &'a Table, key: &str) -> Option<Option<&'a Vec<Value>>>
    ensures { option_map items_seen result ≡ array_of (get_member key.now (table_view table.now)) }
{
    match value_at(table, key) {
        None => Some(None),
        Some(value) => match value.as_array() {
            Some(array) => Some(Some(array)),
            None => None,
        },
    }
}

fn secret_of(table: &Table) -> Option<[u8; 16]>
    ensures { result ≡ secret_of (table_view table.now) }
{
    if has_key(table, "secret") {
        key_at(table, "secret")
    } else {
        Some([0; 16])
    }
}

fn arrays_of<'a>(table: &'a Table) -> Option<Arrays<'a>>
    ensures { option_map arrays_seen result ≡ arrays_of (table_view table.now) }
{
    if !has_only(table, &["secret", "node", "device", "module", "connection"]) {
        return None;
    }
    let secret = secret_of(table)?;
    let nodes = array_at(table, "node")?;
    let devices = array_at(table, "device")?;
    let modules = array_at(table, "module")?;
    let links = array_at(table, "connection")?;
    Some(Arrays {
        secret,
        nodes,
        devices,
        modules,
        links,
    })
}

fn row_of<'a, R: Row<'a>>(value: &'a Value) -> Option<R>
    ensures { result ≡ option_and_then R.reads (as_table (view value.now)) }
{
    match value.as_table() {
        Some(table) => R::read(table),
        None => None,
    }
}

fn rows_in_array<'a, R: Row<'a>>(
    alloc: Global,
    sort: Sort,
    array: &'a Vec<Value>,
) -> Result<Vec<R>, DeployError>
    ensures { Gives (λ v. v.items) result (made_in R.reads sort [] (array_view array.now)) }
{
    let mut rows = Vec::new(alloc);
    for value in array {
        let row = in_entry(4, sort, rows.len(), row_of::<R>(value))?;
        if rows.push(row).is_err() {
            return Err(DeployError::OutOfMemory);
        }
    }
    Ok(rows)
}

fn rows_at<'a, R: Row<'a>>(
    alloc: Global,
    sort: Sort,
    array: Option<&'a Vec<Value>>,
) -> Result<Vec<R>, DeployError>
    ensures { Gives (λ v. v.items) result (made_in R.reads sort [] (items_seen array.entry)) }
{
    match array {
        Some(array) => rows_in_array(alloc, sort, array),
        None => Ok(Vec::new(alloc)),
    }
}

/// The nodes; where none is listed, one node `n` with a key of zeros.
fn listed(alloc: Global, nodes: Vec<NodeRow>) -> Result<Vec<NodeRow>, DeployError>
    ensures { Gives (λ v. v.items) result (Ok (listed nodes.items)) }
{
    if !nodes.is_empty() {
        return Ok(nodes);
    }
    let node = NodeRow {
        name: name_of(b"n"),
        key: [0; 16],
    };
    match vec![in alloc; node] {
        Ok(nodes) => Ok(nodes),
        Err(_) => Err(DeployError::OutOfMemory),
    }
}

fn rows_in<'a>(alloc: Global, arrays: &Arrays<'a>) -> Result<Rows<'a>, DeployError>
    ensures { Gives (λ d. d) result (rows_in (arrays_seen arrays.now)) }
{
    let nodes = listed(alloc, rows_at(alloc, Sort::Node, arrays.nodes)?)?;
    let devices = rows_at(alloc, Sort::Device, arrays.devices)?;
    let modules = rows_at(alloc, Sort::Module, arrays.modules)?;
    let links = rows_at(alloc, Sort::Connection, arrays.links)?;
    Ok(Rows {
        secret: arrays.secret,
        nodes,
        devices,
        modules,
        links,
    })
}

/// The rows of a document's arrays. `Fault` is the first fault of rule 4. `OutOfMemory` says that
/// memory ran out.
pub fn rows_of<'a>(alloc: Global, table: &'a Table) -> Result<Rows<'a>, DeployError>
    ensures gives { Gives (λ d. d) result (rows_of (table_view table.now)) }
    // whether all arrays are there is judged without memory
    ensures memory { arrays_of (table_view table.now) ≡ None → TakesNoMemory result }
{
    match arrays_of(table) {
        Some(arrays) => rows_in(alloc, &arrays),
        None => Err(DeployError::Fault(DeployFault {
            rule: 4,
            place: Place::Kind(Sort::Top),
        })),
    }
}
