//! The lists of a deployment, from its entries.
ghost use Rattle.std.specs.Prelude.{◌≡◌, IfOk, map};
ghost use Rattle.sx_mean.specs.Application.{is_sensor};
ghost use Rattle.sx_deploy.specs.Deployment.{app_of, arranged, names_of, part_of};
ghost use Rattle.sx_deploy.specs.Seen.{checked_as};
ghost use Rattle.sx_deploy.specs.SeenDeployment.{deployed_as};
ghost use Rattle.sx_mean.specs.View.{app_as, part_as};
ghost use Rattle.sx_deploy.specs.Ties.{app_device};

use crate::checks::CheckedModule;
use crate::deployment::Deployment;
use crate::placing::Placement;
use crate::ties::{byte, start_device};
use std::alloc::{AllocError, Global};
use sx_entries::entries::{DeviceEntry, Entries, LinkEntry, ModuleEntry, NodeEntry};
use sx_lang::names::Name;
use sx_mean::apps::{App, AppDevice, Link, Part, is_sensor};
use sx_rules::Layout;
use sx_trace::names::Names;

fn node_names(alloc: Global, nodes: &[NodeEntry]) -> Result<Vec<Name>, AllocError>
    ensures { IfOk result (λ v. v.items ≡ map (λ n. n.name) nodes.now) }
{
    nodes.iter().map(|n| n.name).collect(alloc)
}

fn node_keys(alloc: Global, nodes: &[NodeEntry]) -> Result<Vec<[u8; 16]>, AllocError>
    ensures { IfOk result (λ v. v.items ≡ map (λ n. n.key) nodes.now) }
{
    let mut keys = Vec::new(alloc);
    for node in nodes {
        keys.push(node.key)?;
    }
    Ok(keys)
}

fn device_names(alloc: Global, devices: &[DeviceEntry]) -> Result<Vec<Name>, AllocError>
    ensures { IfOk result (λ v. v.items ≡ map (λ d. d.name) devices.now) }
{
    devices.iter().map(|d| d.name).collect(alloc)
}

fn sensors(alloc: Global, devices: &[DeviceEntry]) -> Result<Vec<bool>, AllocError>
    ensures { IfOk result (λ v. v.items ≡ map (λ d. is_sensor d.kind) devices.now) }
{
    devices.iter().map(|d| is_sensor(d.kind)).collect(alloc)
}

fn places(alloc: Global, devices: &[DeviceEntry]) -> Result<Vec<u16>, AllocError>
    ensures { IfOk result (λ v. v.items ≡ map (λ d. d.at) devices.now) }
{
    devices.iter().map(|d| d.at).collect(alloc)
}

fn module_names(alloc: Global, modules: &[ModuleEntry]) -> Result<Vec<Name>, AllocError>
    ensures { IfOk result (λ v. v.items ≡ map (λ m. m.name) modules.now) }
{
    modules.iter().map(|m| m.name).collect(alloc)
}

fn providers(alloc: Global, modules: &[ModuleEntry]) -> Result<Vec<u16>, AllocError>
    ensures { IfOk result (λ v. v.items ≡ map (λ m. m.provider) modules.now) }
{
    modules.iter().map(|m| m.provider).collect(alloc)
}

fn link_names(alloc: Global, links: &[LinkEntry]) -> Result<Vec<Name>, AllocError>
    ensures { IfOk result (λ v. v.items ≡ map (λ l. l.name) links.now) }
{
    links.iter().map(|l| l.name).collect(alloc)
}

fn layouts(alloc: Global, placements: &[Placement]) -> Result<Vec<Layout>, AllocError>
    ensures { IfOk result (λ v. v.items ≡ map (λ p. p.layout) placements.now) }
{
    placements.iter().map(|p| p.layout).collect(alloc)
}

fn app_device(device: &DeviceEntry) -> AppDevice
    ensures { result ≡ app_device device.now }
{
    AppDevice {
        node: byte(device.node),
        kind: device.kind,
    }
}

/// The application's devices. The error says that memory ran out.
pub fn app_devices(alloc: Global, devices: &[DeviceEntry]) -> Result<Vec<AppDevice>, AllocError>
    ensures { IfOk result (λ v. v.items ≡ map app_device devices.now) }
{
    devices.iter().map(app_device).collect(alloc)
}

fn parts(alloc: Global, modules: Vec<CheckedModule>) -> Result<Vec<Part>, AllocError>
    ensures { IfOk result (λ v. map part_as v.items ≡ map part_of (map checked_as modules.items)) }
{
    let mut parts = Vec::new(alloc);
    for module in modules {
        let part = Part {
            node: byte(module.node),
            device: start_device(module.start),
            code: module.code,
        };
        parts.push(part)?;
    }
    Ok(parts)
}

fn names(alloc: Global, e: &Entries) -> Result<Names, AllocError>
    ensures { IfOk result (λ n. n ≡ names_of e.now) }
{
    let nodes = node_names(alloc, &e.nodes)?;
    let devices = device_names(alloc, &e.devices)?;
    let sensors = sensors(alloc, &e.devices)?;
    let modules = module_names(alloc, &e.modules)?;
    let links = link_names(alloc, &e.links)?;
    Names::new(alloc, nodes, devices, sensors, modules, links)
}

/// The application of these entries. The error says that memory ran out.
fn app_of(
    alloc: Global,
    e: &Entries,
    devices: Vec<AppDevice>,
    modules: Vec<CheckedModule>,
    links: Vec<Link>,
) -> Result<App, AllocError>
    requires { devices.items ≡ map app_device e.now.devices }
    ensures { IfOk result (λ a. app_as a ≡ app_of e.now (map checked_as modules.items)
        links.items) }
{
    let parts = parts(alloc, modules)?;
    Ok(App {
        nodes: byte(e.nodes.len()),
        devices,
        parts,
        links,
    })
}

/// What a deployment has by node, device and module.
#[derive(Drop)]
struct Tables {
    keys: Vec<[u8; 16]>,
    places: Vec<u16>,
    layouts: Vec<Layout>,
    providers: Vec<u16>,
}

/// The tables of these entries. The error says that memory ran out.
fn tables_of(alloc: Global, e: &Entries, placements: &[Placement]) -> Result<Tables, AllocError>
    ensures { IfOk result (λ t. (t.keys.items ≡ map (λ n. n.key) e.now.nodes)
        × (t.places.items ≡ map (λ d. d.at) e.now.devices)
        × (t.layouts.items ≡ map (λ p. p.layout) placements.now)
        × (t.providers.items ≡ map (λ m. m.provider) e.now.modules)) }
{
    let keys = node_keys(alloc, &e.nodes)?;
    let places = places(alloc, &e.devices)?;
    let layouts = layouts(alloc, placements)?;
    let providers = providers(alloc, &e.modules)?;
    Ok(Tables {
        keys,
        places,
        layouts,
        providers,
    })
}

/// The deployment of these entries. The error says that memory ran out.
pub fn arranged(
    alloc: Global,
    e: &Entries,
    devices: Vec<AppDevice>,
    modules: Vec<CheckedModule>,
    links: Vec<Link>,
    placements: &[Placement],
) -> Result<Deployment, AllocError>
    requires { devices.items ≡ map app_device e.now.devices }
    ensures { IfOk result (λ d. deployed_as d ≡ arranged e.now (map checked_as modules.items)
        links.items placements.now) }
{
    let app = app_of(alloc, e, devices, modules, links)?;
    let tables = tables_of(alloc, e, placements)?;
    let names = names(alloc, e)?;
    let Tables {
        keys,
        places,
        layouts,
        providers,
    } = tables;
    Ok(Deployment {
        app,
        names,
        secret: e.secret,
        keys,
        places,
        layouts,
        providers,
    })
}
