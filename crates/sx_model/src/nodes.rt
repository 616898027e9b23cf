//! Resets: a node's modules are absent, its sensors aren't fresh, and its boot rises.

ghost use Rattle.std.specs.Prelude.{◌≡◌, ◌+◌, ◌<◌, All, None, false, if◌then◌else◌, is_some};
ghost use Rattle.std.specs.Prelude.{map, unwrap_or};
ghost use Rattle.sx_mean.specs.View.{app_as, part_as};
ghost use Rattle.sx_model.specs.Step.{absent_at, stale_at};
ghost use Rattle.sx_model.specs.Changes.{raised_at, resets};

use crate::state::{Reading, Standing, State};
use sx_mean::apps::{App, AppDevice, Part};

fn make_stale(reading: &mut Reading, is_there: bool)
    ensures { reading.new ≡ (if is_there then record reading.old { fresh = false } else
        reading.old) }
{
    if is_there {
        reading.fresh = false;
    }
}

fn make_absent(standing: &mut Standing, is_there: bool)
    ensures { standing.new ≡ (if is_there then record standing.old { present = None } else
        standing.old) }
{
    if is_there {
        standing.present = None;
    }
}

#[tactic(auto, using(crate::proofs::Paired::stale_end))]
fn make_all_stale(readings: &mut [Reading], devices: &[AppDevice], node: u8)
    ensures { readings.new ≡ stale_at node devices.now readings.old }
{
    for at in 0..devices.len().min(readings.len()) {
        let reading = &mut readings[at];
        make_stale(reading, devices[at].node == node);
    }
}

#[tactic(auto, using(crate::proofs::Paired::absent_end))]
fn make_all_absent(modules: &mut [Standing], parts: &[Part], node: u8)
    ensures { modules.new ≡ absent_at node (map part_as parts.now) modules.old }
{
    for at in 0..parts.len().min(modules.len()) {
        let standing = &mut modules[at];
        make_absent(standing, parts[at].node == node);
    }
}

fn raise_boot(boots: &mut [u32], node: u8)
    requires { All (λ b. b < u32.MAX) boots.old }
    ensures { boots.new ≡ raised_at boots.old node }
{
    let at = usize::from(node);
    if at < boots.len() {
        boots[at] += 1;
    }
}

/// A node is reset.
pub(crate) fn reset(state: &mut State, app: &App, node: u8) -> bool
    requires { All (λ b. b < u32.MAX) state.old.boots }
    ensures answer { result ≡ is_some (resets (app_as app.now) state.old node) }
    ensures state { state.new ≡ unwrap_or (resets (app_as app.now) state.old node) state.old }
{
    if usize::from(node) >= state.boots.len() {
        return false;
    }
    raise_boot(&mut state.boots, node);
    make_all_stale(&mut state.devices, &app.devices, node);
    make_all_absent(&mut state.modules, &app.parts, node);
    true
}
