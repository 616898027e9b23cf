//! Rule 4 on one entry: its keys and what they hold. A name that isn't in form is kept as none.
ghost use Rattle.std.specs.Prelude.{◌≡◌, ◌==◌, ◌<◌, length, position, IfSome};
ghost use Rattle.toml.specs.View.{table_view};
ghost use Rattle.sx_entries.specs.Rows.{node_row, device_row, start_row, module_row, link_row};
ghost use Rattle.sx_entries.specs.Rows.{kind_at, end_at, end_of};

use crate::fields::{
    Source, has_key, has_only, key_at, name_at, name_of, source_at, text_at, word_at,
};
use sx_lang::names::Name;
use sx_lang::tree::DeviceKind;
use toml::Table;

/// A node as it is in the document.
#[derive(Drop)]
pub struct NodeRow {
    /// The key `name`.
    pub name: Option<Name>,
    /// The key `key`.
    pub key: [u8; 16],
}

/// A device as it is in the document.
#[derive(Drop)]
pub struct DeviceRow {
    /// The key `name`.
    pub name: Option<Name>,
    /// The key `node`.
    pub node: Option<Name>,
    /// The key `kind`.
    pub kind: DeviceKind,
    /// The key `at`, the address of the device's word.
    pub at: u16,
}

/// Where a module's private section begins: at a number, or at the place of the named device.
#[derive(Drop)]
pub enum StartRow {
    /// The key `data`: this address.
    At(u16),
    /// The key `device`: the device of this name.
    Device(Option<Name>),
}

/// A module as it is in the document.
#[derive(Drop)]
pub struct ModuleRow<'a> {
    /// The key `name`.
    pub name: Option<Name>,
    /// The key `node`.
    pub node: Option<Name>,
    /// The key `provider`.
    pub provider: u16,
    /// The key `text`, the address at which the public section begins.
    pub text: u16,
    /// The key `data` or `device`.
    pub start: StartRow,
    /// The key `source`.
    pub source: Source<'a>,
}

/// `module.port`, the end of a connection.
#[derive(Drop)]
pub struct EndRow {
    /// The module's name.
    pub owner: Option<Name>,
    /// The name of its output or input.
    pub port: Option<Name>,
}

/// A connection as it is in the document.
#[derive(Drop)]
pub struct LinkRow {
    /// The key `name`.
    pub name: Option<Name>,
    /// The key `from`.
    pub from: EndRow,
    /// The key `to`.
    pub to: EndRow,
}

fn kind_at(table: &Table, key: &str) -> Option<DeviceKind>
    ensures { result ≡ kind_at key.now (table_view table.now) }
{
    let text = text_at(table, key)?;
    if text == "sensor" {
        Some(DeviceKind::Sensor)
    } else if text == "actuator" {
        Some(DeviceKind::Actuator)
    } else {
        None
    }
}

/// A node, from its table's keys.
pub fn node_row(table: &Table) -> Option<NodeRow>
    ensures { result ≡ node_row (table_view table.now) }
{
    if !has_only(table, &["name", "key"]) {
        return None;
    }
    let name = name_at(table, "name")?;
    let key = key_at(table, "key")?;
    Some(NodeRow { name, key })
}

/// A device, from its table's keys.
pub fn device_row(table: &Table) -> Option<DeviceRow>
    ensures { result ≡ device_row (table_view table.now) }
{
    if !has_only(table, &["name", "node", "kind", "at"]) {
        return None;
    }
    let name = name_at(table, "name")?;
    let node = name_at(table, "node")?;
    let kind = kind_at(table, "kind")?;
    let at = word_at(table, "at")?;
    Some(DeviceRow {
        name,
        node,
        kind,
        at,
    })
}

/// Exactly one of `data` and `device`.
fn start_row(table: &Table) -> Option<StartRow>
    ensures { result ≡ start_row (table_view table.now) }
{
    if has_key(table, "data") {
        let data = word_at(table, "data")?;
        if has_key(table, "device") {
            None
        } else {
            Some(StartRow::At(data))
        }
    } else {
        let device = name_at(table, "device")?;
        Some(StartRow::Device(device))
    }
}

/// A module, from its table's keys.
pub fn module_row<'a>(table: &'a Table) -> Option<ModuleRow<'a>>
    ensures { result ≡ module_row (table_view table.now) }
{
    if !has_only(
        table,
        &[
            "name", "node", "provider", "text", "data", "device", "source",
        ],
    ) {
        return None;
    }
    let name = name_at(table, "name")?;
    let node = name_at(table, "node")?;
    let provider = word_at(table, "provider")?;
    let text = word_at(table, "text")?;
    let start = start_row(table)?;
    let source = source_at(table, "source")?;
    Some(ModuleRow {
        name,
        node,
        provider,
        text,
        start,
        source,
    })
}

fn first_dot(text: &[u8]) -> Option<usize>
    ensures first { result ≡ position (λ b. b == 46) text.now }
    ensures within { IfSome result (λ dot. dot < length text.now) }
{
    text.iter().position(|b| *b == 46)
}

/// The parts before and after the only dot.
fn end_of(text: &[u8]) -> Option<EndRow>
    ensures { result ≡ end_of text.now }
{
    let dot = first_dot(text)?;
    let owner = &text[..dot];
    let port = &text[dot + 1..];
    if first_dot(port).is_some() {
        return None;
    }
    Some(EndRow {
        owner: name_of(owner),
        port: name_of(port),
    })
}

fn end_at(table: &Table, key: &str) -> Option<EndRow>
    ensures { result ≡ end_at key.now (table_view table.now) }
{
    match text_at(table, key) {
        Some(text) => end_of(text.as_bytes()),
        None => None,
    }
}

/// A connection, from its table's keys.
pub fn link_row(table: &Table) -> Option<LinkRow>
    ensures { result ≡ link_row (table_view table.now) }
{
    if !has_only(table, &["name", "from", "to"]) {
        return None;
    }
    let name = name_at(table, "name")?;
    let from = end_at(table, "from")?;
    let to = end_at(table, "to")?;
    Some(LinkRow { name, from, to })
}
