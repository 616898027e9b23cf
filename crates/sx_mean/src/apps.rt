//! Applications: modules on nodes, their devices and connections, and whether these fit together.

ghost use Rattle.std.specs.Prelude.{◌≡◌, ◌+◌, ◌*◌, ◌≤◌, ◌<◌, ◌==◌, ◌&&◌, count_by};
ghost use Rattle.std.specs.Prelude.{map, min, nat_lt};
ghost use Rattle.std.specs.List.{list_any};
ghost use Rattle.sx_check.specs.Source.{source_tree};
ghost use Rattle.sx_lang.specs.View.{block_of, module_of, statement_of};
ghost use Rattle.sx_mean.specs.Application.{block_packets, declared_kind, ends_from};
ghost use Rattle.sx_mean.specs.Validity.{any_part, has_port, is_crowded, is_loose, is_misplaced};
ghost use Rattle.sx_mean.specs.Validity.{is_overloaded, is_port, is_stray, is_too_large, is_valid};
ghost use Rattle.sx_mean.specs.Validity.{is_wrong, parts_at, parts_with, same_device};
ghost use Rattle.sx_mean.specs.Application.{ends_to, is_at, is_driven};
ghost use Rattle.sx_mean.specs.Application.{is_sensor};
ghost use Rattle.sx_mean.specs.Application.{leaves, links_from};
ghost use Rattle.sx_mean.specs.Application.{same_kind, sends_too_much};
ghost use Rattle.sx_mean.specs.Packets.{statement_packets};
ghost use Rattle.sx_mean.specs.Sized.{AreSizedDecls};
ghost use Rattle.sx_mean.specs.View.{app_as, part_as};

use crate::places::output_number;
use sx_check::checked::Checked;
use sx_lang::tree::{Decl, DeviceKind, Module, Stmt};

/// A sensor or an actuator of a node.
#[derive(Clone, Copy)]
pub struct AppDevice {
    /// The index of its node.
    pub node: u8,
    /// Whether it is a sensor or an actuator.
    pub kind: DeviceKind,
}

/// Whether the kind is a sensor's.
pub fn is_sensor(kind: DeviceKind) -> bool
    ensures { result ≡ is_sensor kind }
{
    match kind {
        DeviceKind::Sensor => true,
        DeviceKind::Actuator => false,
    }
}

/// A module of an application, at its node.
#[derive(Drop)]
pub struct Part {
    /// The index of its node.
    pub node: u8,
    /// The device that the module drives, by its index among the application's devices.
    pub device: Option<u8>,
    /// The module itself.
    pub code: Checked,
}

/// A connection from an output of one part to an input of another, each by its number.
#[derive(Clone, Copy)]
pub struct Link {
    /// The index of the part that sends.
    pub from: u8,
    /// The number of its output.
    pub output: u8,
    /// The index of the part that receives.
    pub to: u8,
    /// The number of its input.
    pub input: u8,
}

/// Modules that are connected, without addresses or keys. Connection order is the order in `links`.
#[derive(Drop)]
pub struct App {
    /// How many nodes there are.
    pub nodes: u8,
    /// The devices.
    pub devices: Vec<AppDevice>,
    /// The modules.
    pub parts: Vec<Part>,
    /// The connections.
    pub links: Vec<Link>,
}

/// Where packets are counted no further.
const CUT: u64 = 65_536;

/// The kind of the first device that the module declares; `None` where it declares none.
pub fn declared_kind(decls: &[Decl]) -> Option<DeviceKind>
    ensures { result ≡ declared_kind decls.now }
{
    for d in decls {
        if let Decl::Device(kind) = d {
            return Some(*kind);
        }
    }
    None
}

fn is_same_kind(left: DeviceKind, right: DeviceKind) -> bool
    ensures { result ≡ same_kind left right }
{
    match (left, right) {
        (DeviceKind::Sensor, DeviceKind::Sensor) => true,
        (DeviceKind::Actuator, DeviceKind::Actuator) => true,
        _ => false,
    }
}

#[tactic(auto, using(crate::proofs::Turns::at_next))]
fn is_at(devices: &[AppDevice], device: u8, node: u8, kind: DeviceKind) -> bool
    ensures { result ≡ is_at devices.now device node kind }
{
    let mut left = device;
    for d in devices {
        if left == 0 {
            return d.node == node && is_same_kind(d.kind, kind);
        }
        left -= 1;
    }
    false
}

/// Whether a part has a device exactly where its module declares one, at its node and of that kind.
pub fn is_driven(
    devices: &[AppDevice],
    node: u8,
    device: Option<u8>,
    kind: Option<DeviceKind>,
) -> bool
    ensures { result ≡ is_driven devices.now node device kind }
{
    match (device, kind) {
        (None, None) => true,
        (Some(device), Some(kind)) => is_at(devices, device, node, kind),
        _ => false,
    }
}

fn is_same_device(left: Option<u8>, right: Option<u8>) -> bool
    ensures { result ≡ same_device left right }
{
    match (left, right) {
        (Some(left), Some(right)) => left == right,
        _ => false,
    }
}

fn parts_at(parts: &[Part], node: u8) -> usize
    ensures { result ≡ parts_at (map part_as parts.now) node }
{
    let mut times = 0;
    for q in parts {
        if q.node == node {
            times += 1;
        }
    }
    times
}

fn parts_with(parts: &[Part], device: Option<u8>) -> usize
    ensures { result ≡ parts_with (map part_as parts.now) device }
{
    let mut times = 0;
    for q in parts {
        if is_same_device(device, q.device) {
            times += 1;
        }
    }
    times
}

fn leaves(l: &Link, part: usize, output: u8) -> bool
    ensures { result ≡ leaves part output l.now }
{
    usize::from(l.from) == part && l.output == output
}

fn links_from(links: &[Link], part: usize, output: u8) -> usize
    ensures { result ≡ links_from links.now part output }
{
    let mut times = 0;
    for l in links {
        if leaves(l, part, output) {
            times += 1;
        }
    }
    times
}

/// The connections from a part, by its place.
pub fn ends_from(links: &[Link], part: usize) -> usize
    ensures { result ≡ ends_from links.now part }
{
    let mut times = 0;
    for l in links {
        if usize::from(l.from) == part {
            times += 1;
        }
    }
    times
}

/// The connections to a part, by its place.
pub fn ends_to(links: &[Link], part: usize) -> usize
    ensures { result ≡ ends_to links.now part }
{
    let mut times = 0;
    for l in links {
        if usize::from(l.to) == part {
            times += 1;
        }
    }
    times
}

fn has_many_ends(links: &[Link], part: usize) -> bool
    ensures { result ≡ nat_lt 16 (ends_from links.now part + ends_to links.now part) }
{
    ends_from(links, part) > 16 || ends_to(links, part) > 16 - ends_from(links, part)
}

fn is_port(d: &Decl, output: bool) -> bool
    ensures { result ≡ is_port output d.now }
{
    match d {
        Decl::Input(_) => !output,
        Decl::Output(_) => output,
        Decl::Device(_) | Decl::Var(_, _) | Decl::Array(_, _) => false,
    }
}

fn packets_of_turns(turns: u16, packets: u64) -> u64
    requires { packets ≤ CUT }
    ensures { result ≡ min (turns * packets) CUT }
{
    (u64::from(turns) * packets).min(CUT)
}

#[cycle(packets)]
fn packets_of_statement(links: &[Link], part: usize, decls: &[Decl], s: &Stmt) -> u64
    requires { AreSizedDecls decls.now }
    ensures { result ≡ min (statement_packets (links_from links.now part) decls.now
        (statement_of s.now)) CUT }
{
    match s {
        Stmt::If(_, then, otherwise) => {
            let first = packets_of_block(links, part, decls, then);
            first.max(packets_of_block(links, part, decls, otherwise))
        }
        Stmt::Repeat(n, body) => packets_of_turns(*n, packets_of_block(links, part, decls, body)),
        Stmt::Send(x, _) => (links_from(links, part, output_number(decls, x)) as u64).min(CUT),
        Stmt::Let(_, _) | Stmt::Assign(_, _) | Stmt::Element(_, _, _) | Stmt::Emit(_) => 0,
    }
}

#[cycle(packets)]
fn packets_of_block(links: &[Link], part: usize, decls: &[Decl], block: &Vec<Stmt>) -> u64
    requires { AreSizedDecls decls.now }
    ensures { result ≡ min (block_packets (links_from links.now part) decls.now
        (block_of block.now.items)) CUT }
{
    let mut total = 0;
    for s in block {
        total = (total + packets_of_statement(links, part, decls, s)).min(CUT);
    }
    total
}

/// Whether a handler of the part can make more than 16 packets: each send counts once for each
/// connection from its output.
pub fn sends_too_much(links: &[Link], part: usize, m: &Module) -> bool
    requires { AreSizedDecls m.now.decls.items }
    ensures { result ≡ sends_too_much links.now part (module_of m.now) }
{
    for h in &m.handlers {
        if packets_of_block(links, part, &m.decls, &h.body) > 16 {
            return true;
        }
    }
    false
}

fn has_port_of_kind(decls: &[Decl], output: bool, port: u8) -> bool
    ensures { result ≡ nat_lt port (count_by (is_port output) decls.now) }
{
    let mut times = 0;
    for d in decls {
        if is_port(d, output) {
            times += 1;
        }
    }
    usize::from(port) < times
}

fn is_port_of(part: &Part, output: bool, port: u8) -> bool
    ensures { result ≡ nat_lt port (count_by (is_port output) (source_tree part.now.code).decls) }
{
    has_port_of_kind(&part.code.module().decls, output, port)
}

#[tactic(auto, using(crate::proofs::Turns::port_next))]
fn has_port(parts: &[Part], output: bool, part: u8, port: u8) -> bool
    ensures { result ≡ has_port (is_port output) (map part_as parts.now) part port }
{
    let mut left = part;
    for q in parts {
        if left == 0 {
            return is_port_of(q, output, port);
        }
        left -= 1;
    }
    false
}

impl App {
    #[tactic(auto, unfolding(crate::specs::Validity::is_misplaced))]
    fn is_misplaced(&self, part: &Part) -> bool
        ensures { result ≡ is_misplaced (app_as self.now) (part_as part.now) }
    {
        let kind = declared_kind(&part.code.module().decls);
        part.node >= self.nodes || !is_driven(&self.devices, part.node, part.device, kind)
    }

    #[tactic(auto, unfolding(crate::specs::Validity::is_crowded))]
    fn is_crowded(&self, part: &Part) -> bool
        ensures { result ≡ is_crowded (app_as self.now) (part_as part.now) }
    {
        parts_at(&self.parts, part.node) > 8 || parts_with(&self.parts, part.device) > 1
    }

    #[tactic(auto, unfolding(crate::specs::Validity::is_overloaded))]
    fn is_overloaded(&self, place: usize, part: &Part) -> bool
        ensures { result ≡ is_overloaded (app_as self.now) place (part_as part.now) }
    {
        has_many_ends(&self.links, place) || sends_too_much(&self.links, place, part.code.module())
    }

    #[tactic(auto, unfolding(crate::specs::Validity::is_wrong))]
    fn is_wrong(&self, place: usize, part: &Part) -> bool
        ensures { result ≡ is_wrong (app_as self.now) place (part_as part.now) }
    {
        self.is_misplaced(part) || self.is_crowded(part) || self.is_overloaded(place, part)
    }

    fn has_wrong_part(&self) -> bool
        ensures { result ≡ any_part (is_wrong (app_as self.now)) 0 (app_as self.now).parts }
    {
        for (place, part) in self.parts.iter().enumerate() {
            if self.is_wrong(place, part) {
                return true;
            }
        }
        false
    }

    #[tactic(auto, unfolding(crate::specs::Validity::is_loose))]
    fn is_loose(&self, l: &Link) -> bool
        ensures { result ≡ is_loose (app_as self.now) l.now }
    {
        !has_port(&self.parts, true, l.from, l.output)
            || !has_port(&self.parts, false, l.to, l.input)
    }

    fn has_loose_link(&self) -> bool
        ensures { result ≡ list_any (is_loose (app_as self.now)) self.now.links.items }
    {
        for l in &self.links {
            if self.is_loose(l) {
                return true;
            }
        }
        false
    }

    fn is_stray(&self, d: &AppDevice) -> bool
        ensures { result ≡ is_stray (app_as self.now) d.now }
    {
        d.node >= self.nodes
    }

    fn has_stray_device(&self) -> bool
        ensures { result ≡ list_any (is_stray (app_as self.now)) self.now.devices.items }
    {
        for d in &self.devices {
            if self.is_stray(d) {
                return true;
            }
        }
        false
    }

    #[tactic(auto, unfolding(crate::specs::Validity::is_too_large))]
    fn is_too_large(&self) -> bool
        ensures { result ≡ is_too_large (app_as self.now) }
    {
        self.nodes > 16 || self.devices.len() > 32 || self.parts.len() > 32 || self.links.len() > 64
    }

    /// Whether this is a valid application. The counts keep the limits: 16 nodes, 32 devices, 32
    /// parts of which 8 at a node, 64 connections, 16 ends at a part and 16 packets at an event.
    /// All that is named is there; a part has a device exactly where its module declares one, at
    /// its node, of that kind and of no other part.
    #[tactic(auto, unfolding(crate::specs::Validity::is_valid))]
    pub fn valid(&self) -> bool
        ensures { result ≡ is_valid (app_as self.now) }
    {
        !(self.is_too_large()
            || self.has_stray_device()
            || self.has_wrong_part()
            || self.has_loose_link())
    }
}
