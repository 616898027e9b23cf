//! A module is protected at its node.

ghost use Rattle.std.specs.Prelude.{◌≡◌, ◌<◌, ◌≤◌, IfOk, None, OnErr, OnOk, is_some, length, map};
ghost use Rattle.std.specs.Prelude.{unwrap_or};
ghost use Rattle.sx_check.specs.Source.{source_tree};
ghost use Rattle.sx_mean.specs.View.{app_as};
ghost use Rattle.sx_model.specs.Changes.{on_module, protects, protects_in};
ghost use Rattle.sx_model.specs.Step.{first_present};

use crate::parts::part_at;
use crate::state::{EndView, Present, Standing, State};
use std::alloc::{AllocError, Global};
use sx_check::checked::Checked;
use sx_mean::apps::App;
use sx_mean::connections::ends_of;
use sx_mean::events::End;
use sx_mean::stores::Store;

fn closed_view() -> EndView
    ensures { result ≡ record { epoch = None; next = 0 } }
{
    EndView {
        epoch: None,
        next: 0,
    }
}

fn closed_views(alloc: Global, ends: &[End]) -> Result<Vec<EndView>, AllocError>
    ensures { IfOk result (λ views. views.items ≡ map
        (λ e. record { epoch = None; next = 0 }) ends.now) }
{
    ends.iter().map(|_| closed_view()).collect(alloc)
}

/// A module as it begins.
fn first_present(alloc: Global, code: &Checked, ends: &[End]) -> Result<Present, AllocError>
    ensures { IfOk result (λ present. present ≡ first_present (source_tree code.now) ends.now) }
{
    let store = Store::initial(alloc, code)?;
    let views = closed_views(alloc, ends)?;
    Ok(Present {
        store,
        ends: views,
        pending: None,
    })
}

fn protect_standing(
    alloc: Global,
    standing: &mut Standing,
    code: &Checked,
    ends: &[End],
) -> Result<bool, AllocError>
    ensures answer { IfOk result (λ b. b ≡ is_some
        (protects (source_tree code.now) ends.now standing.old)) }
    ensures standing { OnOk result (standing.new
        ≡ unwrap_or (protects (source_tree code.now) ends.now standing.old) standing.old) }
    ensures err { OnErr result (standing.new ≡ standing.old) }
{
    if standing.present.is_some() {
        return Ok(false);
    }
    standing.present = Some(first_present(alloc, code, ends)?);
    Ok(true)
}

#[tactic(auto, using(crate::proofs::Changed::module_changed, crate::proofs::Changed::module_answered, crate::proofs::Changed::no_module))]
fn protect_module(
    alloc: Global,
    state: &mut State,
    module: u8,
    code: &Checked,
    ends: &[End],
) -> Result<bool, AllocError>
    ensures answer { IfOk result (λ b. b ≡ is_some
        (on_module state.old «module» (protects (source_tree code.now) ends.now))) }
    ensures state { OnOk result (state.new ≡ unwrap_or
        (on_module state.old «module» (protects (source_tree code.now) ends.now)) state.old) }
    ensures err { OnErr result (state.new ≡ state.old) }
{
    match state.modules.get_mut(usize::from(module)) {
        Some(standing) => protect_standing(alloc, standing, code, ends),
        None => Ok(false),
    }
}

/// An absent module of the node is protected.
pub(crate) fn protect(
    alloc: Global,
    state: &mut State,
    app: &App,
    node: u8,
    module: u8,
) -> Result<bool, AllocError>
    requires { length app.now.links.items ≤ 256 }
    ensures answer { IfOk result (λ b. b ≡ is_some
        (protects_in (app_as app.now) state.old node «module»)) }
    ensures state { OnOk result (state.new ≡ unwrap_or
        (protects_in (app_as app.now) state.old node «module») state.old) }
    ensures err { OnErr result (state.new ≡ state.old) }
{
    let Some(part) = part_at(app, module) else {
        return Ok(false);
    };
    if part.node != node {
        return Ok(false);
    }
    let ends = ends_of(alloc, &app.links, module)?;
    protect_module(alloc, state, module, &part.code, &ends)
}
