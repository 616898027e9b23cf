//! The modules that an honest run calls.

ghost use Rattle.std.specs.Prelude.{◌≡◌, ◌≤◌, length, map, option_map, IfSome, Some};
ghost use Rattle.sx_deploy.specs.Law.{IsSoundDeployment};
ghost use Rattle.sx_deploy.specs.SeenDeployment.{deployed_as};
ghost use Rattle.sx_mean.specs.Validity.{same_device};
ghost use Rattle.sx_mean.specs.View.{part_as};
ghost use Rattle.sx_drive.specs.Honest.{callee_at, driver_of, receiver_of, target_of};
ghost use Rattle.sx_drive.specs.Driving.{IsCallee, callee_of, driver_at};

use sx_deploy::deployment::Deployment;
use sx_mean::apps::Part;

/// A module, and the node that it is at.
#[derive(Clone, Copy)]
pub(crate) struct Callee {
    /// The index of the module.
    pub(crate) part: u8,
    /// The index of its node.
    pub(crate) node: u8,
}

/// The m-th module, if there is one.
pub(crate) fn callee_at(deployment: &Deployment, m: u8) -> Option<Callee>
    requires sound { IsSoundDeployment (deployed_as deployment.now) }
    ensures found { option_map callee_of result ≡ callee_at (deployed_as deployment.now).app m }
    ensures there { IfSome result (λ x. IsCallee (deployed_as deployment.now) (callee_of x)) }
{
    match deployment.app.parts.get(usize::from(m)) {
        Some(part) => Some(Callee {
            part: m,
            node: part.node,
        }),
        None => None,
    }
}

/// The module that a connection leads to.
fn target_of(deployment: &Deployment, link: u8) -> Option<Callee>
    requires sound { IsSoundDeployment (deployed_as deployment.now) }
    ensures found { option_map callee_of result ≡ target_of (deployed_as deployment.now).app link }
    ensures there { IfSome result (λ x. IsCallee (deployed_as deployment.now) (callee_of x)) }
{
    match deployment.app.links.get(usize::from(link)) {
        Some(link) => callee_at(deployment, link.to),
        None => None,
    }
}

/// The module that a packet is for.
pub(crate) fn receiver_of(deployment: &Deployment, packet: &[u8]) -> Option<Callee>
    requires sound { IsSoundDeployment (deployed_as deployment.now) }
    ensures found { option_map callee_of result
        ≡ receiver_of (deployed_as deployment.now).app packet.now }
    ensures there { IfSome result (λ x. IsCallee (deployed_as deployment.now) (callee_of x)) }
{
    match packet.get(2) {
        Some(link) => target_of(deployment, *link),
        None => None,
    }
}

/// Whether a module drives a device.
fn drives(part: &Part, device: u8) -> bool
    ensures { result ≡ same_device (Some device) (part_as part.now).device }
{
    match part.device {
        Some(own) => device == own,
        None => false,
    }
}

/// The index of the module that drives a device, if any.
fn driver_at(parts: &[Part], device: u8) -> Option<u8>
    requires { length parts.now ≤ 256 }
    ensures { result ≡ driver_at (map part_as parts.now) device }
{
    for (m, part) in parts.iter().enumerate() {
        if drives(part, device) {
            return Some(m as u8);
        }
    }
    None
}

/// The module that drives a device, if any.
pub(crate) fn driver_of(deployment: &Deployment, device: u8) -> Option<Callee>
    requires sound { IsSoundDeployment (deployed_as deployment.now) }
    ensures found { option_map callee_of result
        ≡ driver_of (deployed_as deployment.now).app device }
    ensures there { IfSome result (λ x. IsCallee (deployed_as deployment.now) (callee_of x)) }
{
    match driver_at(&deployment.app.parts, device) {
        Some(m) => callee_at(deployment, m),
        None => None,
    }
}
