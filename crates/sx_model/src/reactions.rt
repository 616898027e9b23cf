//! A module reacts to an event.

ghost use Rattle.std.specs.Prelude.{◌≡◌, ◌<◌, IfOk, OnErr, OnOk, is_some, unwrap_or};
ghost use Rattle.sx_check.specs.Source.{source_tree};
ghost use Rattle.sx_mean.specs.React.{react};
ghost use Rattle.sx_model.specs.Sendings.{all_to_send, owed_of, sent_words};
ghost use Rattle.sx_model.specs.Reaction.{after_event, flow_of};
ghost use Rattle.sx_model.specs.Changes.{reacts_at, reacts_present, reacts_standing};
ghost use Rattle.sx_model.specs.Changes.{sends_present, sends_standing};

use crate::receiving::{Taking, may_take_word, take_word};
use crate::sendings::{emits_of, send_all, to_send};
use crate::state::{EndView, Pending, Present, Standing, State, Words};
use std::alloc::{AllocError, Global};
use sx_check::checked::Checked;
use sx_mean::events::{End, SourceEvent};
use sx_mean::reactions::reaction_of;

/// A module's cells after an event, and what it then owes.
#[derive(Drop)]
struct Outcome {
    cells: Vec<u16>,
    owed: Pending,
}

/// The handler of a module with these cells runs, and what the module sends is sent. Where memory
/// runs out, nothing is sent.
fn run_handler(
    alloc: Global,
    code: &Checked,
    ends: &[End],
    event: SourceEvent,
    cells: &[u16],
    views: &[EndView],
    sent: &mut Vec<Words>,
) -> Result<Outcome, AllocError>
    ensures owed { IfOk result (λ made. made.owed ≡ owed_of (source_tree code.now) ends.now event
        cells.now views.now sent.old.items) }
    ensures cells { IfOk result (λ made. made.cells.items
        ≡ (react (source_tree code.now) event cells.now).cells) }
    ensures sent { OnOk result (sent.new.items ≡ sent_words
        (all_to_send ends.now views.now (react (source_tree code.now) event cells.now).acts)
        sent.old.items) }
    ensures err { OnErr result (sent.new.items ≡ sent.old.items) }
{
    let reaction = reaction_of(alloc, code, cells, event)?;
    let emits = emits_of(alloc, &reaction.acts)?;
    let sendings = to_send(alloc, ends, views, &reaction.acts)?;
    let pieces = send_all(sent, &sendings)?;
    Ok(Outcome {
        cells: reaction.cells,
        owed: Pending { emits, pieces },
    })
}

/// The module reacts. Nothing changes where memory runs out.
fn react_present(
    alloc: Global,
    code: &Checked,
    ends: &[End],
    event: SourceEvent,
    present: &mut Present,
    sent: &mut Vec<Words>,
) -> Result<(), AllocError>
    ensures present { OnOk result (present.new ≡ after_event (source_tree code.now) event
        (flow_of (source_tree code.now) ends.now event present.old sent.old.items) present.old) }
    ensures sent { OnOk result (sent.new.items ≡ (flow_of (source_tree code.now) ends.now event
        present.old sent.old.items).sent) }
    ensures unchanged { OnErr result (present.new ≡ present.old) }
    ensures unsent { OnErr result (sent.new.items ≡ sent.old.items) }
{
    let made = run_handler(
        alloc,
        code,
        ends,
        event,
        &present.store.cells,
        &present.ends,
        sent,
    )?;
    present.store.cells = made.cells;
    present.pending = Some(made.owed);
    Ok(())
}

/// A module that is idle takes the word of an event, if the event brings one, and reacts.
fn react_idle(
    alloc: Global,
    code: &Checked,
    ends: &[End],
    event: SourceEvent,
    taking: Option<Taking>,
    present: &mut Present,
    sent: &mut Vec<Words>,
) -> Result<bool, AllocError>
    ensures answer { IfOk result (λ b. b ≡ is_some (reacts_present (source_tree code.now) ends.now
        event taking sent.old.items present.old)) }
    ensures present { OnOk result (present.new ≡ unwrap_or (reacts_present (source_tree code.now)
        ends.now event taking sent.old.items present.old) present.old) }
    ensures sent { OnOk result (sent.new.items ≡ unwrap_or (sends_present (source_tree code.now)
        ends.now event taking sent.old.items present.old) sent.old.items) }
    ensures unchanged { OnErr result (present.new ≡ present.old) }
    ensures unsent { OnErr result (sent.new.items ≡ sent.old.items) }
{
    if present.pending.is_some() {
        return Ok(false);
    }
    if !may_take_word(&present.ends, ends, taking) {
        return Ok(false);
    }
    react_present(alloc, code, ends, event, present, sent)?;
    take_word(&mut present.ends, ends, taking);
    Ok(true)
}

/// The same of a module that may be absent.
fn react_standing(
    alloc: Global,
    code: &Checked,
    ends: &[End],
    event: SourceEvent,
    taking: Option<Taking>,
    standing: &mut Standing,
    sent: &mut Vec<Words>,
) -> Result<bool, AllocError>
    ensures answer { IfOk result (λ b. b ≡ is_some (reacts_standing (source_tree code.now) ends.now
        event taking sent.old.items standing.old)) }
    ensures standing { OnOk result (standing.new ≡ unwrap_or (reacts_standing
        (source_tree code.now) ends.now event taking sent.old.items standing.old) standing.old) }
    ensures sent { OnOk result (sent.new.items ≡ unwrap_or (sends_standing (source_tree code.now)
        ends.now event taking sent.old.items standing.old) sent.old.items) }
    ensures unchanged { OnErr result (standing.new ≡ standing.old) }
    ensures unsent { OnErr result (sent.new.items ≡ sent.old.items) }
{
    match &mut standing.present {
        Some(present) => react_idle(alloc, code, ends, event, taking, present, sent),
        None => Ok(false),
    }
}

/// An idle module takes the word of an event, if the event brings one, and reacts; what it sends is
/// sent. Nothing changes where memory runs out.
#[tactic(auto, using(crate::proofs::Reacting::no_reaction))]
pub(crate) fn react_module(
    alloc: Global,
    state: &mut State,
    module: u8,
    code: &Checked,
    ends: &[End],
    event: SourceEvent,
    taking: Option<Taking>,
) -> Result<bool, AllocError>
    ensures answer { IfOk result (λ b. b ≡ is_some (reacts_at (source_tree code.now) ends.now event
        taking state.old «module»)) }
    ensures state { OnOk result (state.new ≡ unwrap_or (reacts_at (source_tree code.now) ends.now
        event taking state.old «module») state.old) }
    ensures err { OnErr result (state.new ≡ state.old) }
{
    match state.modules.get_mut(usize::from(module)) {
        Some(standing) => {
            react_standing(alloc, code, ends, event, taking, standing, &mut state.sent)
        }
        None => Ok(false),
    }
}
