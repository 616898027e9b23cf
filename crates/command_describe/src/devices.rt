//! The lines of nodes and devices.

ghost use Rattle.std.specs.Prelude.{◌≡◌, ◌≤◌, ◌++◌, OnOk, Some, length, map};
ghost use Rattle.std.specs.List.{position_from};
ghost use Rattle.sx_mean.specs.Application.{PartTree};
ghost use Rattle.sx_mean.specs.Validity.{same_device};
ghost use Rattle.sx_mean.specs.View.{part_as};
ghost use Rattle.sx_deploy.specs.SeenDeployment.{deployed_as};
ghost use Rattle.command_describe.specs.Output.{device_line, driver_word, each_from};
ghost use Rattle.command_describe.specs.Output.{kind_word, node_line};

use crate::words::{number_at, put, put_address};
use std::alloc::AllocError;
use sx_deploy::deployment::Deployment;
use sx_lang::names::Name;
use sx_lang::tree::DeviceKind;
use sx_mean::apps::{AppDevice, Part};
use sx_trace::writing::name_at;

/// Appends the line of a node.
#[tactic(auto, unfolding(crate::specs::Output::node_line))]
fn push_node(text: &mut Vec<u8>, name: &Name) -> Result<(), AllocError>
    ensures { OnOk result (text.new.items ≡ text.old.items ++ node_line name.now) }
{
    put(text, b"node ", name.bytes())?;
    text.extend_from_slice(b"\n")
}

/// Appends the lines of all nodes.
pub(crate) fn push_nodes(text: &mut Vec<u8>, names: &[Name]) -> Result<(), AllocError>
    ensures { OnOk result
        (text.new.items ≡ text.old.items ++ each_from (λ n. node_line) 0 names.now) }
{
    for name in names {
        push_node(text, name)?;
    }
    Ok(())
}

/// The word of a device's kind.
fn kind_word(kind: DeviceKind) -> &'static [u8]
    ensures { result.now ≡ kind_word kind }
{
    match kind {
        DeviceKind::Sensor => b"sensor",
        DeviceKind::Actuator => b"actuator",
    }
}

/// Whether a module drives the device of this index.
fn drives(part: &Part, device: u8) -> bool
    ensures { result ≡ same_device (Some device) (part_as part.now).device }
{
    match part.device {
        Some(own) => own == device,
        None => false,
    }
}

/// The index of the module that drives a device, if any.
fn driver_at(parts: &[Part], device: u8) -> Option<u8>
    requires { length parts.now ≤ 256 }
    ensures { result ≡ position_from (λ (q : PartTree). same_device (Some device) q.device) 0
        (map part_as parts.now) }
{
    for (m, part) in parts.iter().enumerate() {
        if drives(part, device) {
            return Some(m as u8);
        }
    }
    None
}

/// The name of the module that drives a device, `-` if none does.
fn driver_word(deployment: &Deployment, device: u8) -> &[u8]
    requires { length deployment.now.app.parts.items ≤ 256 }
    ensures { result.now ≡ driver_word (deployed_as deployment.now) device }
{
    match driver_at(&deployment.app.parts, device) {
        Some(module) => name_at(&deployment.names.modules, module),
        None => b"-",
    }
}

/// Appends the line of a device.
#[tactic(auto, unfolding(crate::specs::Output::device_line))]
fn push_device(
    text: &mut Vec<u8>,
    deployment: &Deployment,
    number: u8,
    device: &AppDevice,
) -> Result<(), AllocError>
    requires { length deployment.now.app.parts.items ≤ 256 }
    ensures { OnOk result (text.new.items
        ≡ text.old.items ++ device_line (deployed_as deployment.now) number device.now) }
{
    let names = &deployment.names;
    put(text, b"device ", name_at(&names.devices, number))?;
    put(text, b" node ", name_at(&names.nodes, device.node))?;
    put(text, b" kind ", kind_word(device.kind))?;
    put_address(text, b" at ", number_at(&deployment.places, number))?;
    put(text, b" driver ", driver_word(deployment, number))?;
    text.extend_from_slice(b"\n")
}

/// Appends the lines of all devices.
pub(crate) fn push_devices(text: &mut Vec<u8>, deployment: &Deployment) -> Result<(), AllocError>
    requires devices { length deployment.now.app.devices.items ≤ 256 }
    requires parts { length deployment.now.app.parts.items ≤ 256 }
    ensures { let d = deployed_as deployment.now in OnOk result
        (text.new.items ≡ text.old.items ++ each_from (device_line d) 0 d.app.devices) }
{
    for (number, device) in deployment.app.devices.iter().enumerate() {
        push_device(text, deployment, number as u8, device)?;
    }
    Ok(())
}
