//! The line `sense`: a sensor takes a sample.

ghost use Rattle.std.specs.Prelude.{◌≡◌, ℕ, ◌==◌, ◌<◌, List, length, slice_get, Some, true};
ghost use Rattle.std.specs.List.{position_from};
ghost use Rattle.sx_deploy.specs.Law.{IsSoundDeployment};
ghost use Rattle.sx_deploy.specs.SeenDeployment.{deployed_as};
ghost use Rattle.spec_machine.specs.NodeLaws.{shapes};
ghost use Rattle.spec_machine.specs.State.{State};
ghost use Rattle.sx_mean.specs.declared.apps.AppDevice.{AppDevice as Device};
ghost use Rattle.std.specs.Prelude.{unwrap_or};
ghost use Rattle.sx_world.specs.Held.{DoesAct};
ghost use Rattle.sx_observe.specs.InMemory.{setting_at};
ghost use Rattle.spec_run.specs.Run.{sense_at};
ghost use Rattle.spec_run.specs.Setting.{Site, devices_at, windows_at};

use crate::running::Running;
use std::alloc::AllocError;
use sx_bus::Copied;
use sx_deploy::deployment::Deployment;
use sx_mean::apps::AppDevice;
use sx_tag::Tag;
use sx_trace::items::Item;

/// The index of the d-th device among those of its node.
fn place_at(devices: &[AppDevice], n: u8, d: u8) -> u8
    requires device { (x : Device) → slice_get devices.now d ≡ Some x → x.node ≡ n }
    requires within { d < length devices.now }
    ensures { result ≡ unwrap_or (position_from (λ k. k == d) 0 (devices_at n 0 devices.now)) 0 }
{
    let mut place = 0;
    for i in 0..d {
        if devices[usize::from(i)].node == n {
            place += 1;
        }
    }
    place
}

impl<B: Copied, T: Tag> Running<B, T> {
    /// A sensor of the deployment takes a sample; nothing happens where its node is none of the
    /// run's.
    pub(crate) fn sense(
        &mut self,
        deployment: &Deployment,
        d: u8,
        value: u16,
        items: &mut Vec<Item>,
    ) -> Result<(), AllocError>
        requires sound { IsSoundDeployment (deployed_as deployment.now) }
        requires windows { (n : ℕ) (s : State) → slice_get self.old.nodes n ≡ Some s
            → shapes s.devices ≡ windows_at n deployment.now.app.devices.items
            deployment.now.places.items }
        requires device { d < length deployment.now.app.devices.items }
        requires sensor { slice_get (deployed_as deployment.now).names.sensors d ≡ Some true }
        requires value { value < 32768 }
        ensures { (sites : List Site) → DoesAct (setting_at T.mac deployment.now sites) result
            self.old self.new items.old.items items.new.items
            (λ w. sense_at (setting_at T.mac deployment.now sites) w d value
            (slice_get deployment.now.app.devices.items d)) }
    {
        let n = deployment.app.devices[usize::from(d)].node;
        if usize::from(n) >= self.nodes.len() {
            return Ok(());
        }
        let k = place_at(&deployment.app.devices, n, d);
        self.sense_at(n, k, d, value, items)
    }
}
