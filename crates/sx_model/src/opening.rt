//! A module opens an end of a connection.

ghost use Rattle.std.specs.Prelude.{◌≡◌, ◌<◌, ◌≤◌, IfOk, OnErr, OnOk, is_some, length, slice_index};
ghost use Rattle.std.specs.Prelude.{unwrap_or};
ghost use Rattle.sx_mean.specs.View.{app_as};
ghost use Rattle.sx_mean.specs.Ends.{ends_of};
ghost use Rattle.sx_model.specs.Changes.{on_module, opens_end, opens_in, opens_standing};
ghost use Rattle.sx_model.specs.Renewal.{may_open};

use crate::ends::open_end;
use crate::parts::part_at;
use crate::state::{Attestation, Pending, Present, Standing, State};
use std::alloc::{AllocError, Global};
use sx_lang::sides::Side;
use sx_mean::apps::App;
use sx_mean::connections::ends_of;
use sx_mean::events::End;

/// An end of a connection, and the epoch in which it is to open.
#[derive(Clone, Copy)]
pub(crate) struct Opening {
    pub(crate) link: u8,
    pub(crate) side: Side,
    pub(crate) epoch: u8,
}

/// The epoch of a connection: 0 where there is no such connection.
fn epoch_at(epochs: &[u8], link: u8) -> u8
    ensures { result ≡ slice_index epochs.now link }
{
    epochs.get(usize::from(link)).copied().unwrap_or(0)
}

fn is_attested_for(attestation: &Attestation, opening: Opening, boot: u32, now: u8) -> bool
    ensures { result ≡ may_open (Some attestation.now) boot opening.link opening.epoch now }
{
    attestation.boot == boot
        && epoch_at(&attestation.floors, opening.link) <= opening.epoch
        && opening.epoch <= now
}

/// Whether a module so attested may open the end, at a boot, where its connection has an epoch now.
fn may_open(standing: &Standing, opening: Opening, boot: u32, now: u8) -> bool
    ensures { result ≡ may_open standing.now.attested boot opening.link opening.epoch now }
{
    match &standing.attested {
        Some(attestation) => is_attested_for(attestation, opening, boot, now),
        None => false,
    }
}

fn open_present(
    alloc: Global,
    present: &mut Present,
    may: bool,
    opening: Opening,
    ends: &[End],
) -> bool
    ensures answer { result ≡ is_some (opens_end may opening.epoch opening.link opening.side
        ends.now present.old) }
    ensures present { present.new ≡ unwrap_or (opens_end may opening.epoch opening.link opening.side
        ends.now present.old) present.old }
{
    if present.pending.is_some() {
        return false;
    }
    if !may {
        return false;
    }
    if !open_end(
        &mut present.ends,
        ends,
        opening.link,
        opening.side,
        opening.epoch,
    ) {
        return false;
    }
    present.pending = Some(Pending {
        emits: Vec::new(alloc),
        pieces: 0,
    });
    true
}

fn open_standing(
    alloc: Global,
    standing: &mut Standing,
    opening: Opening,
    boot: u32,
    now: u8,
    ends: &[End],
) -> bool
    ensures answer { result ≡ is_some (opens_standing boot now opening.link opening.side
        opening.epoch ends.now standing.old) }
    ensures standing { standing.new ≡ unwrap_or (opens_standing boot now opening.link opening.side
        opening.epoch ends.now standing.old) standing.old }
{
    let may = may_open(standing, opening, boot, now);
    match &mut standing.present {
        Some(present) => open_present(alloc, present, may, opening, ends),
        None => false,
    }
}

#[tactic(auto, using(crate::proofs::Changed::module_changed, crate::proofs::Changed::module_answered, crate::proofs::Changed::no_module))]
fn open_module(
    alloc: Global,
    state: &mut State,
    module: u8,
    opening: Opening,
    boot: u32,
    now: u8,
    ends: &[End],
) -> bool
    ensures answer { result ≡ is_some (on_module state.old «module»
        (opens_standing boot now opening.link opening.side opening.epoch ends.now)) }
    ensures state { state.new ≡ unwrap_or (on_module state.old «module»
        (opens_standing boot now opening.link opening.side opening.epoch ends.now)) state.old }
{
    match state.modules.get_mut(usize::from(module)) {
        Some(standing) => open_standing(alloc, standing, opening, boot, now, ends),
        None => false,
    }
}

/// A module opens an end at its node's boot.
fn open_at(
    alloc: Global,
    state: &mut State,
    app: &App,
    module: u8,
    opening: Opening,
    boot: u32,
) -> Result<bool, AllocError>
    requires { length app.now.links.items ≤ 256 }
    ensures answer { IfOk result (λ b. b ≡ is_some (on_module state.old «module»
        (opens_standing boot (slice_index state.old.epochs opening.link) opening.link opening.side
        opening.epoch (ends_of (app_as app.now) «module»)))) }
    ensures state { OnOk result (state.new ≡ unwrap_or (on_module state.old «module»
        (opens_standing boot (slice_index state.old.epochs opening.link) opening.link opening.side
        opening.epoch (ends_of (app_as app.now) «module»))) state.old) }
    ensures err { OnErr result (state.new ≡ state.old) }
{
    let ends = ends_of(alloc, &app.links, module)?;
    let now = epoch_at(&state.epochs, opening.link);
    Ok(open_module(alloc, state, module, opening, boot, now, &ends))
}

/// A module opens an end in an epoch from its floor to the connection's.
pub(crate) fn open(
    alloc: Global,
    state: &mut State,
    app: &App,
    module: u8,
    opening: Opening,
) -> Result<bool, AllocError>
    requires { length app.now.links.items ≤ 256 }
    ensures answer { IfOk result (λ b. b ≡ is_some
        (opens_in (app_as app.now) state.old «module» opening.link opening.side opening.epoch)) }
    ensures state { OnOk result (state.new ≡ unwrap_or
        (opens_in (app_as app.now) state.old «module» opening.link opening.side opening.epoch)
        state.old) }
    ensures err { OnErr result (state.new ≡ state.old) }
{
    let Some(part) = part_at(app, module) else {
        return Ok(false);
    };
    let Some(boot) = state.boots.get(usize::from(part.node)) else {
        return Ok(false);
    };
    let boot = *boot;
    open_at(alloc, state, app, module, opening, boot)
}
