//! Attestation: the deployer asks a module, a module vouches for itself, and the deployer accepts
//! its answer.

ghost use Rattle.std.specs.Prelude.{◌≡◌, ◌+◌, ◌<◌, ◌&&◌, ◌==◌, IfOk, MatchOption, OnErr, OnOk};
ghost use Rattle.std.specs.Prelude.{is_some, unwrap_or};
ghost use Rattle.sx_model.specs.Changes.{accepts, accepts_with, answers, asks, attests};
ghost use Rattle.sx_model.specs.Changes.{is_accepted, on_module, opens_ask, renewal, vouches};
ghost use Rattle.sx_model.specs.Changes.{vouches_in};
ghost use Rattle.sx_mean.specs.View.{app_as};
ghost use Rattle.sx_model.specs.Renewal.{boot_of};
ghost use Rattle.sx_model.specs.Step.{is_vouched};

use crate::parts::part_at;
use crate::renewal::{may_attest, renewed};
use crate::state::{Attestation, Pending, Standing, State, Vouched};
use std::alloc::{AllocError, Global};
use sx_mean::apps::{App, Link};

fn open_ask(standing: &mut Standing, challenge: u128) -> bool
    ensures answer { result ≡ is_some (opens_ask challenge standing.old) }
    ensures standing { standing.new ≡ unwrap_or (opens_ask challenge standing.old) standing.old }
{
    standing.asked = Some(challenge);
    true
}

#[tactic(auto, using(crate::proofs::Changed::module_changed, crate::proofs::Changed::module_answered, crate::proofs::Changed::no_module))]
fn ask_module(state: &mut State, module: u8, challenge: u128) -> bool
    ensures answer { result ≡ is_some (on_module state.old «module» (opens_ask challenge)) }
    ensures state { state.new ≡ unwrap_or (on_module state.old «module» (opens_ask challenge))
        state.old }
{
    match state.modules.get_mut(usize::from(module)) {
        Some(standing) => open_ask(standing, challenge),
        None => false,
    }
}

/// The deployer asks a module; the challenge is the number of asks before.
pub(crate) fn ask(state: &mut State, module: u8, challenge: u128) -> bool
    requires { state.old.asks < u32.MAX }
    ensures answer { result ≡ is_some (asks state.old «module» challenge) }
    ensures state { state.new ≡ unwrap_or (asks state.old «module» challenge) state.old }
{
    if challenge != u128::from(state.asks) {
        return false;
    }
    if !ask_module(state, module, challenge) {
        return false;
    }
    state.asks += 1;
    true
}

fn vouch_standing(
    alloc: Global,
    standing: &mut Standing,
    challenge: u128,
    boot: u32,
) -> Result<bool, AllocError>
    ensures answer { IfOk result (λ b. b ≡ is_some (vouches challenge boot standing.old)) }
    ensures standing { OnOk result (standing.new
        ≡ unwrap_or (vouches challenge boot standing.old) standing.old) }
    ensures err { OnErr result (standing.new ≡ standing.old) }
{
    let Some(present) = &mut standing.present else {
        return Ok(false);
    };
    if present.pending.is_some() {
        return Ok(false);
    }
    standing.vouched.push(Vouched { challenge, boot })?;
    present.pending = Some(Pending {
        emits: Vec::new(alloc),
        pieces: 1,
    });
    Ok(true)
}

#[tactic(auto, using(crate::proofs::Changed::module_changed, crate::proofs::Changed::module_answered, crate::proofs::Changed::no_module))]
fn vouch_at(
    alloc: Global,
    state: &mut State,
    module: u8,
    challenge: u128,
    boot: u32,
) -> Result<bool, AllocError>
    ensures answer { IfOk result (λ b. b ≡ is_some
        (on_module state.old «module» (vouches challenge boot))) }
    ensures state { OnOk result (state.new ≡ unwrap_or
        (on_module state.old «module» (vouches challenge boot)) state.old) }
    ensures err { OnErr result (state.new ≡ state.old) }
{
    match state.modules.get_mut(usize::from(module)) {
        Some(standing) => vouch_standing(alloc, standing, challenge, boot),
        None => Ok(false),
    }
}

/// A module vouches for a challenge at its node's boot.
pub(crate) fn vouch(
    alloc: Global,
    state: &mut State,
    app: &App,
    module: u8,
    challenge: u128,
) -> Result<bool, AllocError>
    ensures answer { IfOk result (λ b. b ≡ is_some
        (vouches_in (app_as app.now) state.old «module» challenge)) }
    ensures state { OnOk result (state.new ≡ unwrap_or
        (vouches_in (app_as app.now) state.old «module» challenge) state.old) }
    ensures err { OnErr result (state.new ≡ state.old) }
{
    let Some(part) = part_at(app, module) else {
        return Ok(false);
    };
    let Some(boot) = state.boots.get(usize::from(part.node)) else {
        return Ok(false);
    };
    let boot = *boot;
    vouch_at(alloc, state, module, challenge, boot)
}

/// The boot at which a module was last attested, if any.
fn last_boot(standing: &Standing) -> Option<u32>
    ensures { result ≡ boot_of standing.now.attested }
{
    match &standing.attested {
        Some(attestation) => Some(attestation.boot),
        None => None,
    }
}

fn is_for(vouched: &Vouched, challenge: u128, boot: u32) -> bool
    ensures { result ≡ ((vouched.now.challenge == challenge) && (vouched.now.boot == boot)) }
{
    vouched.challenge == challenge && vouched.boot == boot
}

/// Whether a challenge was vouched for at a boot.
fn is_vouched(challenge: u128, boot: u32, vouched: &[Vouched]) -> bool
    ensures { result ≡ is_vouched challenge boot vouched.now }
{
    for v in vouched {
        if is_for(v, challenge, boot) {
            return true;
        }
    }
    false
}

fn answers(asked: Option<u128>, boot: u32, vouched: &[Vouched]) -> bool
    ensures { result ≡ answers asked boot vouched.now }
{
    match asked {
        Some(challenge) => is_vouched(challenge, boot, vouched),
        None => false,
    }
}

/// Whether the deployer accepts a module's answer at a boot.
fn is_accepted(m: u8, links: &[Link], epochs: &[u8], boot: u32, standing: &Standing) -> bool
    ensures { result ≡ is_accepted m links.now epochs.now boot standing.now }
{
    answers(standing.asked, boot, &standing.vouched)
        && may_attest(m, links, epochs, last_boot(standing), boot)
}

fn accept_standing(standing: &mut Standing, boot: u32, floors: Vec<u8>) -> bool
    ensures answer { result ≡ is_some (accepts boot floors.items standing.old) }
    ensures standing { standing.new ≡ unwrap_or (accepts boot floors.items standing.old)
        standing.old }
{
    standing.asked = None;
    standing.attested = Some(Attestation { boot, floors });
    true
}

#[tactic(auto, using(crate::proofs::Changed::module_changed, crate::proofs::Changed::module_answered, crate::proofs::Changed::no_module))]
fn accept_module(state: &mut State, module: u8, boot: u32, floors: Vec<u8>) -> bool
    ensures answer { result ≡ is_some (on_module state.old «module» (accepts boot floors.items)) }
    ensures state { state.new ≡ unwrap_or (on_module state.old «module» (accepts boot floors.items))
        state.old }
{
    match state.modules.get_mut(usize::from(module)) {
        Some(standing) => accept_standing(standing, boot, floors),
        None => false,
    }
}

/// The answer is accepted, and these are the epochs after it.
fn accept(state: &mut State, module: u8, boot: u32, floors: Vec<u8>, epochs: Vec<u8>) -> bool
    requires { epochs.items ≡ floors.items }
    ensures answer { result ≡ is_some (accepts_with state.old «module» boot floors.items) }
    ensures state { state.new ≡ unwrap_or (accepts_with state.old «module» boot floors.items)
        state.old }
{
    if !accept_module(state, module, boot, floors) {
        return false;
    }
    state.epochs = epochs;
    true
}

/// The epochs after a module's answer at a boot; `None` exactly where it isn't accepted.
fn renewal(
    alloc: Global,
    state: &State,
    links: &[Link],
    module: u8,
    boot: u32,
) -> Result<Option<Vec<u8>>, AllocError>
    ensures { IfOk result (λ o. MatchOption o (renewal links.now state.now «module» boot ≡ None)
        (λ epochs. renewal links.now state.now «module» boot ≡ Some epochs.items)) }
{
    let Some(standing) = state.modules.get(usize::from(module)) else {
        return Ok(None);
    };
    if !is_accepted(module, links, &state.epochs, boot, standing) {
        return Ok(None);
    }
    let epochs = renewed(
        alloc,
        module,
        links,
        last_boot(standing),
        boot,
        &state.epochs,
    )?;
    Ok(Some(epochs))
}

/// The deployer accepts a module's answer to its open challenge.
pub(crate) fn attest(
    alloc: Global,
    state: &mut State,
    app: &App,
    module: u8,
    boot: u32,
) -> Result<bool, AllocError>
    ensures answer { IfOk result (λ b. b ≡ is_some
        (attests (app_as app.now) state.old «module» boot)) }
    ensures state { OnOk result (state.new ≡ unwrap_or
        (attests (app_as app.now) state.old «module» boot) state.old) }
    ensures err { OnErr result (state.new ≡ state.old) }
{
    match renewal(alloc, state, &app.links, module, boot)? {
        Some(floors) => {
            let epochs = Vec::from_slice(alloc, &floors)?;
            Ok(accept(state, module, boot, floors, epochs))
        }
        None => Ok(false),
    }
}
