//! Rule 5: names are in form, new in their array, and name an entry where they should.
ghost use Rattle.std.specs.Prelude.{◌≡◌, length};
ghost use Rattle.sx_entries.specs.Gives.{Gives, TakesNoMemory};
ghost use Rattle.sx_entries.specs.Entries.{device_made, device_named, entries_of, fresh, link_made};
ghost use Rattle.sx_entries.specs.Entries.{module_made, module_named, node_made, node_named};
ghost use Rattle.sx_entries.specs.Entries.{not_reserved, start_named};

use crate::arrays::Rows;
use crate::fault::{DeployError, DeployFault, Sort, nth};
use crate::fields::Source;
use crate::listed::{HasName, Listed, Make, made};
use crate::rows::{DeviceRow, EndRow, LinkRow, ModuleRow, NodeRow, StartRow};
use crate::stages::in_entry;
use std::alloc::Global;
use std::marker::Model;
use sx_lang::names::Name;
use sx_lang::tree::DeviceKind;
use sx_trace::names::DEPLOYER;

/// A node, under a name of its own.
#[derive(Drop)]
pub struct NodeEntry {
    /// The node's name.
    pub name: Name,
    /// The node's key.
    pub key: [u8; 16],
}

/// A device, under a name of its own and at a node that is there.
#[derive(Drop)]
pub struct DeviceEntry {
    /// The device's name.
    pub name: Name,
    /// The index of its node among the nodes.
    pub node: usize,
    /// Whether it is a sensor or an actuator.
    pub kind: DeviceKind,
    /// The address of its word.
    pub at: u16,
}

/// Where a module's private section begins: at a number, or at the place of a device.
#[derive(Clone, Copy, Drop)]
pub enum Start {
    /// At this address.
    At(u16),
    /// At the word of the device of this index.
    Device(usize),
}

/// A module, under a name of its own and at a node that is there.
#[derive(Drop)]
pub struct ModuleEntry<'a> {
    /// The module's name.
    pub name: Name,
    /// The index of its node among the nodes.
    pub node: usize,
    /// The number of its provider.
    pub provider: u16,
    /// The address at which its public section begins.
    pub text: u16,
    /// Where its private section begins.
    pub start: Start,
    /// Its source text, not yet parsed.
    pub source: Source<'a>,
}

/// A connection, under a name of its own. Its ends are still names.
#[derive(Drop)]
pub struct LinkEntry {
    /// The connection's name.
    pub name: Name,
    /// The output that it comes from.
    pub from: EndRow,
    /// The input that it goes to.
    pub to: EndRow,
}

/// The entries of a deployment, each array in the order of the document.
#[derive(Drop)]
pub struct Entries<'a> {
    /// The deployer's secret, from which the keys of connections are derived.
    pub secret: [u8; 16],
    /// The nodes.
    pub nodes: Vec<NodeEntry>,
    /// The devices.
    pub devices: Vec<DeviceEntry>,
    /// The modules.
    pub modules: Vec<ModuleEntry<'a>>,
    /// The connections.
    pub links: Vec<LinkEntry>,
}

impl<'a> Model for Entries<'a> {
    ghost use Rattle.sx_entries.specs.Entries.{EntryLists};

    ghost Value = { EntryLists };

    ghost view = { λ d. record {
      secret = d.secret;
      nodes = d.nodes.items;
      devices = d.devices.items;
      modules = d.modules.items;
      links = d.links.items;
    } };
}

/// The name, where it is in form and new.
fn fresh<T: HasName>(done: &Listed<T>, name: Option<Name>) -> Option<Name>
    ensures { result ≡ fresh T.name_of done.now name }
{
    match name {
        Some(name) => { if done.has(&name) { None } else { Some(name) } }
        None => None,
    }
}

impl HasName for NodeEntry {
    ghost name_of = { λ e. e.name };

    fn name(&self) -> &Name {
        &self.name
    }
}

impl HasName for DeviceEntry {
    ghost name_of = { λ e. e.name };

    fn name(&self) -> &Name {
        &self.name
    }
}

impl HasName for ModuleEntry<'_> {
    ghost name_of = { λ e. e.name };

    fn name(&self) -> &Name {
        &self.name
    }
}

impl HasName for LinkEntry {
    ghost name_of = { λ e. e.name };

    fn name(&self) -> &Name {
        &self.name
    }
}

fn node_named(done: &Listed<NodeEntry>, row: NodeRow) -> Option<NodeEntry>
    ensures { result ≡ node_named done.now row }
{
    let NodeRow { name, key } = row;
    let name = fresh(done, name)?;
    Some(NodeEntry { name, key })
}

fn device_named(
    nodes: &Listed<NodeEntry>,
    done: &Listed<DeviceEntry>,
    row: DeviceRow,
) -> Option<DeviceEntry>
    ensures { result ≡ device_named nodes.now done.now row }
{
    let DeviceRow {
        name,
        node,
        kind,
        at,
    } = row;
    let name = fresh(done, name)?;
    let node = nodes.place_of(&node)?;
    Some(DeviceEntry {
        name,
        node,
        kind,
        at,
    })
}

fn start_named(devices: &Listed<DeviceEntry>, start: StartRow) -> Option<Start>
    ensures { result ≡ start_named devices.now start }
{
    match start {
        StartRow::At(at) => Some(Start::At(at)),
        StartRow::Device(name) => match devices.place_of(&name) {
            Some(index) => Some(Start::Device(index)),
            None => None,
        },
    }
}

fn not_reserved(name: Name) -> Option<Name>
    ensures { result ≡ not_reserved name }
{
    if name.bytes() == DEPLOYER.as_slice() {
        None
    } else {
        Some(name)
    }
}

fn module_named<'a>(
    nodes: &Listed<NodeEntry>,
    devices: &Listed<DeviceEntry>,
    done: &Listed<ModuleEntry>,
    row: ModuleRow<'a>,
) -> Option<ModuleEntry<'a>>
    ensures { result ≡ module_named nodes.now devices.now done.now row.entry }
{
    let ModuleRow {
        name,
        node,
        provider,
        text,
        start,
        source,
    } = row;
    let name = fresh(done, name)?;
    let name = not_reserved(name)?;
    let node = nodes.place_of(&node)?;
    let start = start_named(devices, start)?;
    Some(ModuleEntry {
        name,
        node,
        provider,
        text,
        start,
        source,
    })
}

fn link_made(done: &Listed<LinkEntry>, place: usize, row: LinkRow) -> Result<LinkEntry, DeployError>
    requires { place ≡ length done.now }
    ensures gives { Gives (λ l. l) result (link_made done.now row) }
    ensures memory { TakesNoMemory result }
{
    let LinkRow { name, from, to } = row;
    match fresh(done, name) {
        Some(name) => Ok(LinkEntry { name, from, to }),
        None => Err(DeployError::Fault(DeployFault {
            rule: 5,
            place: nth(Sort::Connection, place),
        })),
    }
}

#[derive(Drop)]
struct Nodes;

impl Make<NodeRow, NodeEntry> for Nodes {
    ghost makes = { λ _. node_made };

    fn make(
        &self,
        done: &Listed<NodeEntry>,
        place: usize,
        row: NodeRow,
    ) -> Result<NodeEntry, DeployError> {
        in_entry(5, Sort::Node, place, node_named(done, row))
    }
}

#[derive(Drop)]
struct Devices<'a> {
    nodes: &'a Listed<NodeEntry>,
}

impl Make<DeviceRow, DeviceEntry> for Devices<'_> {
    ghost makes = { λ s. device_made s.nodes.now };

    fn make(
        &self,
        done: &Listed<DeviceEntry>,
        place: usize,
        row: DeviceRow,
    ) -> Result<DeviceEntry, DeployError> {
        in_entry(5, Sort::Device, place, device_named(self.nodes, done, row))
    }
}

#[derive(Drop)]
struct Modules<'a> {
    nodes: &'a Listed<NodeEntry>,
    devices: &'a Listed<DeviceEntry>,
}

impl<'a> Make<ModuleRow<'a>, ModuleEntry<'a>> for Modules<'_> {
    ghost makes = { λ s. module_made s.nodes.now s.devices.now };

    fn make(
        &self,
        done: &Listed<ModuleEntry<'a>>,
        place: usize,
        row: ModuleRow<'a>,
    ) -> Result<ModuleEntry<'a>, DeployError> {
        in_entry(
            5,
            Sort::Module,
            place,
            module_named(self.nodes, self.devices, done, row),
        )
    }
}

#[derive(Drop)]
struct Links;

impl Make<LinkRow, LinkEntry> for Links {
    ghost makes = { λ _. link_made };

    fn make(
        &self,
        done: &Listed<LinkEntry>,
        place: usize,
        row: LinkRow,
    ) -> Result<LinkEntry, DeployError> {
        link_made(done, place, row)
    }
}

/// The entries of a document. `Fault` is the first fault of rule 5. `OutOfMemory` says that memory
/// ran out.
pub fn entries_of<'a>(alloc: Global, rows: Rows<'a>) -> Result<Entries<'a>, DeployError>
    ensures { Gives (λ d. d) result (entries_of rows.entry) }
{
    let Rows {
        secret,
        nodes,
        devices,
        modules,
        links,
    } = rows;
    let nodes = made(alloc, &Nodes, nodes)?;
    let devices = made(alloc, &Devices { nodes: &nodes }, devices)?;
    let named = Modules {
        nodes: &nodes,
        devices: &devices,
    };
    let modules = made(alloc, &named, modules)?.into_entries();
    // the indexes have served
    let nodes = nodes.into_entries();
    let devices = devices.into_entries();
    let links = made(alloc, &Links, links)?.into_entries();
    Ok(Entries {
        secret,
        nodes,
        devices,
        modules,
        links,
    })
}
