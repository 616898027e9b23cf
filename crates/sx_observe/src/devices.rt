//! The devices of a deployment, and which module drives one.

ghost use Rattle.std.specs.Prelude.{◌≡◌, ◌≤◌, length, slice_index};
ghost use Rattle.sx_mean.specs.View.{app_as};
ghost use Rattle.sx_model.specs.Step.{device_of};
ghost use Rattle.sx_model.specs.State.{contains};
ghost use Rattle.sx_observe.specs.Computed.{driver_of};
ghost use Rattle.spec_run.specs.Setting.{devices_at};

use sx_mean::apps::{App, AppDevice};

/// The number of a node's k-th device among those of the deployment, or 0 where it has no such
/// device.
pub(crate) fn device_number(devices: &[AppDevice], n: u8, k: u8) -> u8
    requires { length devices.now ≤ 256 }
    ensures { result ≡ slice_index (devices_at n 0 devices.now) k }
{
    let mut left = k;
    for d in 0..devices.len() {
        if devices[d].node == n {
            if left == 0 {
                return d as u8;
            }
            left -= 1;
        }
    }
    0
}

/// The device that a module drives.
fn device_of(app: &App, m: u8) -> Option<u8>
    ensures { result ≡ device_of (app_as app.now) m }
{
    match app.parts.get(usize::from(m)) {
        Some(part) => part.device,
        None => None,
    }
}

fn drives(device: Option<u8>, d: u8) -> bool
    ensures { result ≡ contains device d }
{
    match device {
        Some(own) => own == d,
        None => false,
    }
}

/// The deployed module whose code ran, if there is one and it drives the device.
pub(crate) fn driver_of(app: &App, runner: Option<u8>, d: u8) -> Option<u8>
    ensures { result ≡ driver_of (app_as app.now) runner d }
{
    match runner {
        Some(m) if drives(device_of(app, m), d) => Some(m),
        _ => None,
    }
}
