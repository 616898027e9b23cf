//! The nodes of a deployment, as they are switched on.

ghost use Rattle.std.specs.Prelude.{◌≡◌, ℕ, ◌<◌, List, [], ◌∷◌, ◌++◌, IfOk, OnOk};
ghost use Rattle.sx_deploy.specs.Law.{IsSoundDeployment};
ghost use Rattle.sx_deploy.specs.SeenDeployment.{deployed_as};
ghost use Rattle.sx_bus.specs.Devices.{powered_on};
ghost use Rattle.spec_machine.specs.State.{power_on};
ghost use Rattle.spec_run.specs.Accepted.{setting_of};
ghost use Rattle.spec_run.specs.Setting.{kind_of, windows_at};
ghost use Rattle.spec_run.specs.State.{nodes_from};

use std::alloc::{AllocError, Global};
use sx_bus::{Kind, Windows};
use sx_deploy::deployment::Deployment;
use sx_lang::tree::DeviceKind;
use sx_mean::apps::AppDevice;
use sx_node::Node;
use sx_paged::PagedBus;
use sx_tag::Tag;

fn kind_of(kind: DeviceKind) -> Kind
    ensures { result ≡ kind_of kind }
{
    match kind {
        DeviceKind::Sensor => Kind::Sensor,
        DeviceKind::Actuator => Kind::Actuator,
    }
}

/// The places and kinds of a node's devices, in the deployment's order.
fn places_at(
    alloc: Global,
    devices: &[AppDevice],
    places: &[u16],
    number: u8,
) -> Result<Vec<(u16, Kind)>, AllocError>
    ensures { IfOk result (λ found. found.items ≡ windows_at number devices.now places.now) }
{
    let mut found = Vec::new(alloc);
    let mut i = 0;
    'devices: while i < devices.len() && i < places.len() {
        if devices[i].node == number {
            found.push((places[i], kind_of(devices[i].kind)))?;
        }
        i += 1;
    }
    Ok(found)
}

/// Appends the node of this number and with this key, just switched on. A node is large, so it is
/// made where it is appended.
fn push_node<T: Tag>(
    alloc: Global,
    nodes: &mut Vec<Node<PagedBus, T>>,
    tag: T,
    deployment: &Deployment,
    number: u8,
    key: [u8; 16],
) -> Result<(), AllocError>
    requires sound { IsSoundDeployment (deployed_as deployment.now) }
    ensures { let d = deployed_as deployment.now in OnOk result (nodes.new.items ≡ nodes.old.items
        ++ power_on key (powered_on (windows_at number d.app.devices d.places)) ∷ []) }
{
    let bus = PagedBus::new(alloc)?;
    let places = places_at(alloc, &deployment.app.devices, &deployment.places, number)?;
    let windows = Windows::new(alloc, &places)?;
    nodes.push(Node::new(bus, tag, key, windows))?;
    Ok(())
}

/// All nodes of a deployment, just switched on: each has its key, and its devices in the
/// deployment's order.
pub fn nodes_of<T: Tag>(
    alloc: Global,
    tag: &T,
    deployment: &Deployment,
) -> Result<Vec<Node<PagedBus, T>>, AllocError>
    requires sound { IsSoundDeployment (deployed_as deployment.now) }
    ensures { let d = deployed_as deployment.now in IfOk result (λ nodes.
        (texts : List (List ℕ)) → nodes.items ≡ nodes_from (setting_of T.mac d texts) 0 d.keys) }
{
    let mut nodes = Vec::with_capacity(alloc, deployment.keys.len())?;
    let mut number: u8 = 0;
    'nodes: while usize::from(number) < deployment.keys.len() {
        let key = deployment.keys[usize::from(number)];
        push_node(alloc, &mut nodes, tag.another(), deployment, number, key)?;
        number += 1;
    }
    Ok(nodes)
}
