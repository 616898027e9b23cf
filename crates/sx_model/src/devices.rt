//! Sensors and actuators: readings, and code of others at a device.

ghost use Rattle.std.specs.Prelude.{◌≡◌, ◌<◌, ◌&&◌, false, is_some, map, not, slice_get};
ghost use Rattle.std.specs.Prelude.{slice_set, unwrap_or};
ghost use Rattle.sx_mean.specs.View.{app_as, part_as};
ghost use Rattle.sx_mean.specs.Application.{is_sensor};
ghost use Rattle.sx_model.specs.Step.{is_stale, kind_is};
ghost use Rattle.sx_model.specs.Step.{is_undriven, waits};
ghost use Rattle.sx_model.specs.Changes.{after_sample, drains, takes_fresh, wrote_raw};
ghost use Rattle.sx_model.specs.State.{contains};

use crate::state::{Reading, Standing, State};
use sx_mean::apps::{App, AppDevice, Part, is_sensor};

/// Whether the device of this number is a sensor.
pub(crate) fn has_sensor(devices: &[AppDevice], device: u8) -> bool
    ensures { result ≡ kind_is is_sensor (slice_get devices.now device) }
{
    match devices.get(usize::from(device)) {
        Some(d) => is_sensor(d.kind),
        None => false,
    }
}

fn set_reading(readings: &mut [Reading], at: usize, value: u16, fresh: bool)
    ensures { readings.new ≡ slice_set readings.old at (record { value = value; fresh = fresh }) }
{
    if at < readings.len() {
        readings[at] = Reading { value, fresh };
    }
}

/// A sensor gets a value.
pub(crate) fn sense(state: &mut State, app: &App, device: u8, value: u16) -> bool
    ensures answer { result ≡ is_some (after_sample (app_as app.now) state.old device value) }
    ensures state { state.new ≡ unwrap_or (after_sample (app_as app.now) state.old device value)
        state.old }
{
    if !has_sensor(&app.devices, device) {
        return false;
    }
    set_reading(&mut state.devices, usize::from(device), value, true);
    true
}

/// Whether the device of this number is an actuator.
fn has_actuator(devices: &[AppDevice], device: u8) -> bool
    ensures { result ≡ kind_is (λ k. not (is_sensor k)) (slice_get devices.now device) }
{
    match devices.get(usize::from(device)) {
        Some(d) => !is_sensor(d.kind),
        None => false,
    }
}

fn drives(driven: Option<u8>, device: u8) -> bool
    ensures { result ≡ contains driven device }
{
    match driven {
        Some(driven) => driven == device,
        None => false,
    }
}

fn is_present(standing: &Standing) -> bool
    ensures { result ≡ is_some standing.now.present }
{
    standing.present.is_some()
}

/// Whether the part drives the device, and is present.
fn is_driving(part: &Part, standing: &Standing, device: u8) -> bool
    ensures { result ≡ (contains part.now.device device && is_some standing.now.present) }
{
    drives(part.device, device) && is_present(standing)
}

/// Whether no driver of the device is present.
#[tactic(auto, using(crate::proofs::Paired::undriven_end))]
fn is_undriven(parts: &[Part], modules: &[Standing], device: u8) -> bool
    ensures { result ≡ is_undriven (map part_as parts.now) modules.now device }
{
    for m in 0..parts.len().min(modules.len()) {
        if is_driving(&parts[m], &modules[m], device) {
            return false;
        }
    }
    true
}

fn drain_reading(reading: &mut Reading, is_free: bool) -> bool
    ensures answer { result ≡ is_some (takes_fresh is_free reading.old) }
    ensures reading { reading.new ≡ unwrap_or (takes_fresh is_free reading.old) reading.old }
{
    let is_taken = is_free && reading.fresh;
    if is_taken {
        reading.fresh = false;
    }
    is_taken
}

/// Whether the device is a sensor whose driver is absent.
fn is_free(app: &App, modules: &[Standing], device: u8) -> bool
    ensures { result ≡ (kind_is is_sensor (slice_get app.now.devices.items device)
        && is_undriven (app_as app.now).parts modules.now device) }
{
    has_sensor(&app.devices, device) && is_undriven(&app.parts, modules, device)
}

/// Other code takes a sensor's fresh value.
#[tactic(auto, using(crate::proofs::Changed::device_changed, crate::proofs::Changed::device_answered, crate::proofs::Changed::no_device))]
pub(crate) fn drain(state: &mut State, app: &App, device: u8) -> bool
    ensures answer { result ≡ is_some (drains (app_as app.now) state.old device) }
    ensures state { state.new ≡ unwrap_or (drains (app_as app.now) state.old device) state.old }
{
    let is_free = is_free(app, &state.modules, device);
    match state.devices.get_mut(usize::from(device)) {
        Some(reading) => drain_reading(reading, is_free),
        None => false,
    }
}

/// Whether other code may write an actuator.
pub(crate) fn may_write(state: &State, app: &App, device: u8) -> bool
    ensures answer { result ≡ is_some (wrote_raw (app_as app.now) state.now device) }
    ensures state { unwrap_or (wrote_raw (app_as app.now) state.now device) state.now ≡ state.now }
{
    has_actuator(&app.devices, device) && is_undriven(&app.parts, &state.modules, device)
}

fn is_stale(readings: &[Reading], device: u8) -> bool
    ensures { result ≡ is_stale (slice_get readings.now device) }
{
    match readings.get(usize::from(device)) {
        Some(reading) => !reading.fresh,
        None => false,
    }
}

/// Whether a driver of this device, if any, waits for its sensor.
pub(crate) fn waits(app: &App, readings: &[Reading], device: Option<u8>) -> bool
    ensures { result ≡ waits (app_as app.now) readings.now device }
{
    match device {
        Some(device) => has_sensor(&app.devices, device) && is_stale(readings, device),
        None => false,
    }
}
