//! The names of a deployment.

ghost use Rattle.std.specs.Prelude.{◌≡◌, ◌<◌, ◌≤◌, length, true, [], IsTrue, IfOk, IfSome};
ghost use Rattle.std.specs.Prelude.{OnOk};
ghost use Rattle.std.specs.List.{list_all};
ghost use Rattle.std.specs.Str.{bytes_eq};
ghost use Rattle.sx_lang.specs.Form.{is_name};
ghost use Rattle.sx_index.specs.Index.{IsNameIndex};
ghost use Rattle.sx_trace.specs.Names.{deployer, if_sensor};
ghost use Rattle.sx_trace.specs.ValidNames.{are_names, are_valid, has_name, no_repeat};
ghost use Rattle.sx_index.specs.Places.{place_of};
ghost use Rattle.sx_trace.specs.Names.{sensor_place};
ghost use Rattle.sx_trace.specs.Seen.{name_lists};

use crate::guesses::{Guesses, guessed, guesses_of};
use std::alloc::{AllocError, Global};
use std::marker::Model;
use sx_index::index::NameIndex;
use sx_lang::names::{Name, has_form};

/// The name of the deployer, which no module has.
pub const DEPLOYER: [u8; 8] = *b"deployer";

/// The names of nodes, devices, modules and connections, each list in the deployment's order, with
/// an index of each list.
#[derive(Drop)]
pub struct Names {
    /// The names of the nodes.
    pub nodes: Vec<Name>,
    /// The names of the devices.
    pub devices: Vec<Name>,
    /// Whether each device is a sensor.
    pub sensors: Vec<bool>,
    /// The names of the modules.
    pub modules: Vec<Name>,
    /// The names of the connections.
    pub links: Vec<Name>,
    node_index: NameIndex,
    device_index: NameIndex,
    module_index: NameIndex,
    link_index: NameIndex,
    node_guesses: Guesses,
    device_guesses: Guesses,
    module_guesses: Guesses,
    link_guesses: Guesses,
}

impl Model for Names {
    ghost use Rattle.sx_index.specs.Index.{IsNameIndex};
    ghost use Rattle.sx_trace.specs.Names.{NameLists};

    ghost Value = { NameLists };

    ghost view = { λ n. record {
      nodes = n.nodes.items;
      devices = n.devices.items;
      sensors = n.sensors.items;
      modules = n.modules.items;
      links = n.links.items;
    } };

    ghost invariant = { λ n.
        IsNameIndex n.node_index n.nodes.items
        × IsNameIndex n.device_index n.devices.items
        × IsNameIndex n.module_index n.modules.items
        × IsNameIndex n.link_index n.links.items };
}

fn have_form(names: &[Name]) -> bool
    ensures { result ≡ list_all is_name names.now }
{
    names.iter().all(|name| has_form(name.bytes()))
}

/// Whether a name is in the list.
pub fn has_name(names: &[Name], text: &[u8]) -> bool
    ensures { result ≡ has_name names.now text.now }
{
    names.iter().any(|name| is_called(name, text))
}

fn no_repeat(names: &[Name]) -> bool
    ensures { result ≡ no_repeat names.now }
{
    let mut rest = names;
    while let Some((first, after)) = rest.split_first() {
        if has_name(after, first.bytes()) {
            return false;
        }
        rest = after;
    }
    true
}

fn are_names(names: &[Name], most: usize) -> bool
    ensures { result ≡ are_names most names.now }
{
    names.len() <= most && have_form(names) && no_repeat(names)
}

fn is_called(name: &Name, text: &[u8]) -> bool
    ensures { result ≡ bytes_eq name.now text.now }
{
    name.bytes() == text
}

/// An index of a list of at most 64 names, as a byte.
fn byte(place: Option<usize>) -> Option<u8>
    requires { IfSome place (λ place. place < 64) }
    ensures { result ≡ place }
{
    match place {
        Some(place) => Some(place as u8),
        None => None,
    }
}

/// The index of a name in a list of at most 64 names that repeats none: the guess if it is right,
/// and otherwise what the index gives.
fn place_in(names: &[Name], guesses: &Guesses, index: &NameIndex, text: &[u8]) -> Option<u8>
    requires indexed { IsNameIndex index.now names.now }
    requires unique { no_repeat names.now ≡ true }
    requires few { length names.now ≤ 64 }
    ensures place { result ≡ place_of names.now text.now }
    ensures within { IfSome result (λ place. place < length names.now) }
{
    match guessed(names, guesses, text) {
        Some(place) => Some(place),
        None => byte(index.place_of(text)),
    }
}

fn if_sensor(sensors: &[bool], device: u8) -> Option<u8>
    ensures { result ≡ if_sensor sensors.now device }
{
    match sensors.get(usize::from(device)) {
        Some(true) => Some(device),
        _ => None,
    }
}

/// An index of each list.
#[derive(Drop)]
struct NameIndexes {
    node_index: NameIndex,
    device_index: NameIndex,
    module_index: NameIndex,
    link_index: NameIndex,
}

impl NameIndexes {
    /// Takes in the names of each list, where no index has any yet. The error says that memory ran
    /// out.
    fn fill(
        &mut self,
        nodes: &[Name],
        devices: &[Name],
        modules: &[Name],
        links: &[Name],
    ) -> Result<(), AllocError>
        requires nodes { IsNameIndex self.old.node_index [] }
        requires devices { IsNameIndex self.old.device_index [] }
        requires modules { IsNameIndex self.old.module_index [] }
        requires links { IsNameIndex self.old.link_index [] }
        ensures nodes { OnOk result (IsNameIndex self.new.node_index nodes.now) }
        ensures devices { OnOk result (IsNameIndex self.new.device_index devices.now) }
        ensures modules { OnOk result (IsNameIndex self.new.module_index modules.now) }
        ensures links { OnOk result (IsNameIndex self.new.link_index links.now) }
    {
        self.node_index.fill(nodes)?;
        self.device_index.fill(devices)?;
        self.module_index.fill(modules)?;
        self.link_index.fill(links)
    }
}

/// An index of each of these lists. The error says that memory ran out.
fn indexes_of(
    alloc: Global,
    nodes: &[Name],
    devices: &[Name],
    modules: &[Name],
    links: &[Name],
) -> Result<NameIndexes, AllocError>
    ensures { IfOk result (λ i. IsNameIndex i.node_index nodes.now
        × IsNameIndex i.device_index devices.now
        × IsNameIndex i.module_index modules.now
        × IsNameIndex i.link_index links.now) }
{
    let mut indexes = NameIndexes {
        node_index: NameIndex::new(alloc),
        device_index: NameIndex::new(alloc),
        module_index: NameIndex::new(alloc),
        link_index: NameIndex::new(alloc),
    };
    indexes.fill(nodes, devices, modules, links)?;
    Ok(indexes)
}

impl Names {
    /// These lists of names, with their indexes. The error says that memory ran out.
    pub fn new(
        alloc: Global,
        nodes: Vec<Name>,
        devices: Vec<Name>,
        sensors: Vec<bool>,
        modules: Vec<Name>,
        links: Vec<Name>,
    ) -> Result<Names, AllocError>
        ensures { IfOk result (λ n.
            n ≡ name_lists nodes.items devices.items sensors.items modules.items links.items) }
    {
        let NameIndexes {
            node_index,
            device_index,
            module_index,
            link_index,
        } = indexes_of(alloc, &nodes, &devices, &modules, &links)?;
        let node_guesses = guesses_of(&nodes);
        let device_guesses = guesses_of(&devices);
        let module_guesses = guesses_of(&modules);
        let link_guesses = guesses_of(&links);
        Ok(Names {
            nodes,
            devices,
            sensors,
            modules,
            links,
            node_index,
            device_index,
            module_index,
            link_index,
            node_guesses,
            device_guesses,
            module_guesses,
            link_guesses,
        })
    }

    /// Whether these are names that a deployment may have: each has the form of a name, no list
    /// repeats one, no module is named `deployer`, each device has an entry in `sensors`, and there
    /// are at most 16 nodes, 32 devices, 32 modules and 64 connections.
    #[tactic(auto, unfolding(crate::specs::ValidNames::are_valid))]
    pub fn valid(&self) -> bool
        ensures { result ≡ are_valid self.now }
    {
        are_names(&self.nodes, 16)
            && are_names(&self.devices, 32)
            && are_names(&self.modules, 32)
            && are_names(&self.links, 64)
            && !has_name(&self.modules, &DEPLOYER)
            && self.sensors.len() == self.devices.len()
    }

    /// The index of the node of this name.
    pub fn node(&self, text: &[u8]) -> Option<u8>
        requires { IsTrue (are_valid self.now) }
        ensures place { result ≡ place_of self.now.nodes text.now }
        ensures within { IfSome result (λ place. place < length self.now.nodes) }
    {
        place_in(&self.nodes, &self.node_guesses, &self.node_index, text)
    }

    /// The index of the device of this name.
    pub fn device(&self, text: &[u8]) -> Option<u8>
        requires { IsTrue (are_valid self.now) }
        ensures place { result ≡ place_of self.now.devices text.now }
        ensures within { IfSome result (λ place. place < length self.now.devices) }
    {
        place_in(
            &self.devices,
            &self.device_guesses,
            &self.device_index,
            text,
        )
    }

    /// The index among the devices of the sensor of this name.
    pub fn sensor(&self, text: &[u8]) -> Option<u8>
        requires { IsTrue (are_valid self.now) }
        ensures place { result ≡ sensor_place self.now text.now }
        ensures within { IfSome result (λ place. place < length self.now.devices) }
    {
        let device = self.device(text)?;
        if_sensor(&self.sensors, device)
    }

    /// The index of the module of this name.
    pub fn module(&self, text: &[u8]) -> Option<u8>
        requires { IsTrue (are_valid self.now) }
        ensures place { result ≡ place_of self.now.modules text.now }
        ensures within { IfSome result (λ place. place < length self.now.modules) }
    {
        place_in(
            &self.modules,
            &self.module_guesses,
            &self.module_index,
            text,
        )
    }

    /// The index of the connection of this name.
    pub fn link(&self, text: &[u8]) -> Option<u8>
        requires { IsTrue (are_valid self.now) }
        ensures place { result ≡ place_of self.now.links text.now }
        ensures within { IfSome result (λ place. place < length self.now.links) }
    {
        place_in(&self.links, &self.link_guesses, &self.link_index, text)
    }
}
