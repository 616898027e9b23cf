//! Events: a driver takes its sensor's value, and a module takes a word that was sent.

ghost use Rattle.std.specs.Prelude.{◌≡◌, ◌+◌, ◌*◌, ◌/◌, ◌%◌, ◌<◌, ◌≤◌, ◌&&◌, IfOk, OnErr, OnOk};
ghost use Rattle.std.specs.Prelude.{is_some, length, slice_get, unwrap_or};
ghost use Rattle.sx_mean.specs.View.{app_as, part_as};
ghost use Rattle.sx_model.specs.Changes.{is_fresh_with, is_readable, on_device, reads, reads_from};
ghost use Rattle.sx_model.specs.Changes.{staled, takes_at, takes_in, word_at};
ghost use Rattle.sx_model.specs.State.{contains};

use crate::devices::has_sensor;
use crate::parts::part_at;
use crate::reactions::react_module;
use crate::receiving::Taking;
use crate::state::{Reading, State, Words};
use std::alloc::{AllocError, Global};
use sx_mean::apps::{App, Part};
use sx_mean::connections::ends_of;
use sx_mean::events::SourceEvent;

fn is_fresh_with(value: u16, reading: &Reading) -> bool
    ensures { result ≡ is_fresh_with value reading.now }
{
    reading.fresh && reading.value == value
}

/// Whether the device is a sensor with this value, which no one took yet.
fn is_readable(app: &App, state: &State, device: u8, value: u16) -> bool
    ensures { result ≡ is_readable (app_as app.now) device value
        (slice_get state.now.devices device) }
{
    match state.devices.get(usize::from(device)) {
        Some(reading) => has_sensor(&app.devices, device) && is_fresh_with(value, reading),
        None => false,
    }
}

fn stale_reading(reading: &mut Reading) -> bool
    ensures answer { result ≡ is_some (staled reading.old) }
    ensures reading { reading.new ≡ unwrap_or (staled reading.old) reading.old }
{
    reading.fresh = false;
    true
}

/// The device's value is taken.
#[tactic(auto, using(crate::proofs::Changed::device_changed, crate::proofs::Changed::no_device))]
fn stale_device(state: &mut State, device: u8)
    ensures { state.new ≡ unwrap_or (on_device state.old device staled) state.old }
{
    if let Some(reading) = state.devices.get_mut(usize::from(device)) {
        stale_reading(reading);
    }
}

fn word_in(words: &Words, index: usize) -> Option<u16>
    ensures { result ≡ slice_get words.now index }
{
    words.words.get(index).copied()
}

/// The word of a number that was sent over a connection, if there is one.
fn word_at(state: &State, link: u8, number: u32) -> Option<u16>
    ensures { result ≡ word_at state.now.sent link number }
{
    let field = usize::from(link) + 256 * ((number / 65_536) as usize);
    match state.sent.get(field) {
        Some(words) => word_in(words, (number % 65_536) as usize),
        None => None,
    }
}

fn is_word(value: u16, word: Option<u16>) -> bool
    ensures { result ≡ contains word value }
{
    match word {
        Some(word) => word == value,
        None => false,
    }
}

/// A driver takes its sensor's fresh value.
fn read_from(
    alloc: Global,
    state: &mut State,
    app: &App,
    part: &Part,
    module: u8,
    device: u8,
    value: u16,
) -> Result<bool, AllocError>
    requires { length app.now.links.items ≤ 256 }
    ensures answer { IfOk result (λ b. b ≡ is_some
        (reads_from (app_as app.now) state.old «module» (part_as part.now) device value)) }
    ensures state { OnOk result (state.new ≡ unwrap_or
        (reads_from (app_as app.now) state.old «module» (part_as part.now) device value)
        state.old) }
    ensures err { OnErr result (state.new ≡ state.old) }
{
    if !is_readable(app, state, device, value) {
        return Ok(false);
    }
    let ends = ends_of(alloc, &app.links, module)?;
    let event = SourceEvent::Sample(value);
    if !react_module(alloc, state, module, &part.code, &ends, event, None)? {
        return Ok(false);
    }
    stale_device(state, device);
    Ok(true)
}

/// A driver takes its sensor's fresh value, and reacts to it.
pub(crate) fn read(
    alloc: Global,
    state: &mut State,
    app: &App,
    module: u8,
    value: u16,
) -> Result<bool, AllocError>
    requires { length app.now.links.items ≤ 256 }
    ensures answer { IfOk result (λ b. b ≡ is_some
        (reads (app_as app.now) state.old «module» value)) }
    ensures state { OnOk result (state.new ≡ unwrap_or
        (reads (app_as app.now) state.old «module» value) state.old) }
    ensures err { OnErr result (state.new ≡ state.old) }
{
    let Some(part) = part_at(app, module) else {
        return Ok(false);
    };
    match part.device {
        Some(device) => read_from(alloc, state, app, part, module, device, value),
        None => Ok(false),
    }
}

/// A module takes a word at an input, if it's idle.
fn take_at(
    alloc: Global,
    state: &mut State,
    app: &App,
    part: &Part,
    module: u8,
    taking: Taking,
    input: u8,
) -> Result<bool, AllocError>
    requires { length app.now.links.items ≤ 256 }
    ensures answer { IfOk result (λ b. b ≡ is_some
        (takes_at (app_as app.now) state.old «module» (part_as part.now) taking.link taking.number
        input taking.value)) }
    ensures state { OnOk result (state.new ≡ unwrap_or
        (takes_at (app_as app.now) state.old «module» (part_as part.now) taking.link taking.number
        input taking.value) state.old) }
    ensures err { OnErr result (state.new ≡ state.old) }
{
    let ends = ends_of(alloc, &app.links, module)?;
    let event = SourceEvent::Input(input, taking.value);
    react_module(alloc, state, module, &part.code, &ends, event, Some(taking))
}

/// A module takes a word that was sent over a connection, and reacts to it.
pub(crate) fn take(
    alloc: Global,
    state: &mut State,
    app: &App,
    module: u8,
    taking: Taking,
) -> Result<bool, AllocError>
    requires { length app.now.links.items ≤ 256 }
    ensures answer { IfOk result (λ b. b ≡ is_some
        (takes_in (app_as app.now) state.old «module» taking.link taking.number taking.value)) }
    ensures state { OnOk result (state.new ≡ unwrap_or
        (takes_in (app_as app.now) state.old «module» taking.link taking.number taking.value)
        state.old) }
    ensures err { OnErr result (state.new ≡ state.old) }
{
    let Some(part) = part_at(app, module) else {
        return Ok(false);
    };
    let Some(link) = app.links.get(usize::from(taking.link)) else {
        return Ok(false);
    };
    if !is_word(taking.value, word_at(state, taking.link, taking.number)) {
        return Ok(false);
    }
    let input = link.input;
    take_at(alloc, state, app, part, module, taking, input)
}
