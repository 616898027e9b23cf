//! What a run is given.

ghost use Rattle.std.specs.Prelude.{◌≤◌, length};

use crate::sites::Site;
use sx_deploy::deployment::Deployment;

/// What a run is given: a deployment, and the sites of its modules. The number of a site and that
/// of a device are bytes.
#[derive(Clone, Copy)]
pub struct Setting<'a> {
    /// The deployment.
    pub deployment: &'a Deployment,
    /// The sites of its modules.
    pub sites: &'a [Site],
    ghost few_sites: { length sites.now ≤ 256 },
    ghost few_devices: { length deployment.now.app.devices.items ≤ 256 },
}
