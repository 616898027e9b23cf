//! What a module owes of an event: the emits that it writes, and the end of its invocation.

ghost use Rattle.std.specs.Prelude.{◌≡◌, ◌<◌, is_some, slice_get, unwrap_or};
ghost use Rattle.sx_model.specs.Changes.{finishes, is_done_in, is_finished, is_refused, may_refuse};
ghost use Rattle.sx_model.specs.Changes.{on_module, on_present, refuses, writes, writes_present};
ghost use Rattle.sx_mean.specs.View.{app_as};

use crate::devices::waits;
use crate::parts::part_at;
use crate::state::{Pending, Present, Standing, State};
use sx_mean::apps::App;

fn write_owed(owed: &mut Pending, value: u16) -> bool
    ensures answer { result ≡ is_some (writes value owed.old) }
    ensures owed { owed.new ≡ unwrap_or (writes value owed.old) owed.old }
{
    match owed.emits.first() {
        Some(first) if *first == value => {
            let _written = owed.emits.remove(0);
            true
        }
        _ => false,
    }
}

fn write_pending(present: &mut Present, value: u16) -> bool
    ensures answer { result ≡ is_some (writes_present value present.old) }
    ensures present { present.new ≡ unwrap_or (writes_present value present.old) present.old }
{
    match &mut present.pending {
        Some(owed) => write_owed(owed, value),
        None => false,
    }
}

fn write_present(standing: &mut Standing, value: u16) -> bool
    ensures answer { result ≡ is_some (on_present (writes_present value) standing.old) }
    ensures standing { standing.new ≡ unwrap_or (on_present (writes_present value) standing.old)
        standing.old }
{
    match &mut standing.present {
        Some(present) => write_pending(present, value),
        None => false,
    }
}

/// A module writes the first emit that it owes.
#[tactic(auto, using(crate::proofs::Changed::module_changed, crate::proofs::Changed::module_answered, crate::proofs::Changed::no_module))]
pub(crate) fn write(state: &mut State, module: u8, value: u16) -> bool
    ensures answer { result ≡ is_some (on_module state.old «module»
        (on_present (writes_present value))) }
    ensures state { state.new ≡ unwrap_or (on_module state.old «module»
        (on_present (writes_present value))) state.old }
{
    match state.modules.get_mut(usize::from(module)) {
        Some(standing) => write_present(standing, value),
        None => false,
    }
}

fn is_finished(owed: &Pending, pieces: u16) -> bool
    ensures { result ≡ is_finished pieces owed.now }
{
    owed.emits.is_empty() && usize::from(pieces) == owed.pieces
}

fn finish_present(present: &mut Present, pieces: u16) -> bool
    ensures answer { result ≡ is_some (finishes pieces present.old) }
    ensures present { present.new ≡ unwrap_or (finishes pieces present.old) present.old }
{
    let finished = match &present.pending {
        Some(owed) => is_finished(owed, pieces),
        None => false,
    };
    if finished {
        present.pending = None;
    }
    finished
}

fn finish_standing(standing: &mut Standing, pieces: u16) -> bool
    ensures answer { result ≡ is_some (on_present (finishes pieces) standing.old) }
    ensures standing { standing.new ≡ unwrap_or (on_present (finishes pieces) standing.old)
        standing.old }
{
    match &mut standing.present {
        Some(present) => finish_present(present, pieces),
        None => false,
    }
}

/// An invocation did its event.
#[tactic(auto, using(crate::proofs::Changed::module_changed, crate::proofs::Changed::module_answered, crate::proofs::Changed::no_module))]
fn finish(state: &mut State, module: u8, pieces: u16) -> bool
    ensures answer { result ≡ is_some (on_module state.old «module»
        (on_present (finishes pieces))) }
    ensures state { state.new ≡ unwrap_or (on_module state.old «module»
        (on_present (finishes pieces))) state.old }
{
    match state.modules.get_mut(usize::from(module)) {
        Some(standing) => finish_standing(standing, pieces),
        None => false,
    }
}

fn may_refuse(present: &Present, status: u16, pieces: u16, waiting: bool) -> bool
    ensures { result ≡ may_refuse status pieces waiting present.now }
{
    (2..=8).contains(&status)
        && pieces == 0
        && present.pending.is_none()
        && (status != 8 || waiting)
}

fn refuses(present: &Option<Present>, status: u16, pieces: u16, waiting: bool) -> bool
    ensures { result ≡ refuses status pieces waiting present.now }
{
    match present {
        Some(present) => may_refuse(present, status, pieces, waiting),
        None => false,
    }
}

/// Whether a module may be refused so.
fn is_refused(modules: &[Standing], m: u8, status: u16, pieces: u16, waiting: bool) -> bool
    ensures { result ≡ is_refused status pieces waiting (slice_get modules.now m) }
{
    match modules.get(usize::from(m)) {
        Some(standing) => refuses(&standing.present, status, pieces, waiting),
        None => false,
    }
}

/// An invocation did its event, or was refused.
pub(crate) fn done(state: &mut State, app: &App, module: u8, status: u16, pieces: u16) -> bool
    ensures answer { result ≡ is_some (is_done_in (app_as app.now) state.old «module» status
        pieces) }
    ensures state { state.new ≡ unwrap_or (is_done_in (app_as app.now) state.old «module» status
        pieces) state.old }
{
    let Some(part) = part_at(app, module) else {
        return false;
    };
    if status == 1 {
        return finish(state, module, pieces);
    }
    let waiting = waits(app, &state.devices, part.device);
    is_refused(&state.modules, module, status, pieces, waiting)
}
