//! The model as code: it tells whether a trace is a legal run, item by item.

ghost use Rattle.std.specs.Prelude.{◌≡◌, ◌+◌, ◌*◌, ◌<◌, ◌≤◌, [], All, IfOk, OnErr, OnOk};
ghost use Rattle.std.specs.Prelude.{if◌then◌else◌, is_some, length, slice_get, slice_index_or};
ghost use Rattle.std.specs.Prelude.{false, true, unwrap_or};
ghost use Rattle.sx_mean.specs.View.{app_as};
ghost use Rattle.sx_mean.specs.Validity.{is_valid};
ghost use Rattle.sx_model.specs.Counted.{CountsWithin};
ghost use Rattle.sx_model.specs.State.{power_on};
ghost use Rattle.sx_model.specs.Step.{◌>>?◌, step};
ghost use Rattle.sx_model.specs.Epochs.{open_epoch};
ghost use Rattle.sx_model.specs.Changes.{steps};
ghost use Rattle.sx_model.specs.Memory.{may_take_memory};

use crate::asks::{ask, attest, vouch};
use crate::devices::{drain, may_write, sense};
use crate::events::{done, write};
use crate::nodes::reset;
use crate::opening::{Opening, open};
use crate::protecting::protect;
use crate::receiving::Taking;
use crate::start::power_on;
use crate::state::{EndView, Standing, State, Words};
use crate::taking::{read, take};
use std::alloc::{AllocError, Global};
use sx_mean::apps::App;
use sx_trace::items::Item;

/// The items that take no memory: whether one is allowed, and what it makes of the state.
fn take_plain(state: &mut State, app: &App, item: Item) -> bool
    requires boots { All (λ b. b < u32.MAX) state.old.boots }
    requires asks { state.old.asks < u32.MAX }
    requires plain { may_take_memory item ≡ false }
    ensures answer { result ≡ is_some (steps (app_as app.now) state.old item) }
    ensures state { state.new ≡ unwrap_or (steps (app_as app.now) state.old item) state.old }
{
    match item {
        Item::Reset { node, .. } => reset(state, app, node),
        Item::Sense { device, value } => sense(state, app, device, value),
        Item::Drain { device } => drain(state, app, device),
        Item::Ask { module, challenge } => ask(state, module, challenge),
        Item::Out { module, value } => write(state, module, value),
        Item::Raw { device, .. } => may_write(state, app, device),
        Item::Done {
            module,
            status,
            pieces,
        } => done(state, app, module, status, pieces),
        _ => true,
    }
}

/// Whether an item is allowed, and what it makes of the state; `None` where memory ran out.
fn take_item(alloc: Global, state: &mut State, app: &App, item: Item) -> Result<bool, AllocError>
    requires boots { All (λ b. b < u32.MAX) state.old.boots }
    requires asks { state.old.asks < u32.MAX }
    requires links { length app.now.links.items ≤ 256 }
    ensures answer { IfOk result (λ b. b ≡ is_some (steps (app_as app.now) state.old item)) }
    ensures state { OnOk result (state.new ≡ unwrap_or (steps (app_as app.now) state.old item)
        state.old) }
    ensures err { OnErr result (state.new ≡ state.old) }
    ensures memory { OnErr result (may_take_memory item ≡ true) }
{
    match item {
        Item::Protect {
            node,
            module: Some(module),
        } => protect(alloc, state, app, node, module),
        Item::Read { module, value } => read(alloc, state, app, module, value),
        Item::Attested { module, boot } => attest(alloc, state, app, module, boot),
        Item::Vouch { module, challenge } => vouch(alloc, state, app, module, challenge),
        Item::Open {
            module,
            link,
            side,
            epoch,
        } => open(alloc, state, app, module, Opening { link, side, epoch }),
        Item::Take {
            module,
            link,
            number,
            value,
        } => take(alloc, state, app, module, Taking::new(link, number, value)),
        _ => Ok(take_plain(state, app, item)),
    }
}

/// Where a run of an application's source is after the items that were allowed.
#[derive(Drop)]
pub struct Model {
    alloc: Global,
    state: State,
    taken: u64,
    ghost counted: { CountsWithin state taken },
}

fn count_in(sent: &[Words], field: usize) -> u32
    ensures { result ≡ length (slice_index_or sent.now field []) }
{
    match sent.get(field) {
        Some(words) => count(words),
        None => 0,
    }
}

fn count(words: &Words) -> u32
    ensures { result ≡ length words.now }
{
    words.words.len() as u32
}

/// The epoch with which the end of this index is open, if it is.
fn epoch_at(ends: &[EndView], index: u8) -> Option<u8>
    ensures { result ≡ (slice_get ends.now index >>? (λ e. e.epoch)) }
{
    match ends.get(usize::from(index)) {
        Some(view) => view.epoch,
        None => None,
    }
}

/// The epoch with which an end of a module that is present is open, if it is.
fn epoch_in(standing: &Standing, index: u8) -> Option<u8>
    ensures { result ≡ (standing.now.present >>? (λ p. slice_get p.ends index
        >>? (λ e. e.epoch))) }
{
    match &standing.present {
        Some(present) => epoch_at(&present.ends, index),
        None => None,
    }
}

impl Model {
    /// The model of an application at power-on. The error says that memory ran out.
    #[tactic(auto, using(crate::proofs::Counts::none_counted))]
    pub fn new(alloc: Global, app: &App) -> Result<Model, AllocError>
        ensures state { IfOk result (λ model. model.state ≡ power_on (app_as app.now)) }
        ensures taken { IfOk result (λ model. model.taken ≡ 0) }
    {
        let state = power_on(alloc, app)?;
        Ok(Model {
            alloc,
            state,
            taken: 0,
        })
    }

    /// Takes an item, and says whether it's allowed: where it isn't, or memory runs out, nothing
    /// changes.
    #[tactic(auto, using(crate::proofs::Counts::counted_more, crate::proofs::Agrees::steps_are))]
    pub fn step(&mut self, app: &App, item: &Item) -> Result<bool, AllocError>
        requires valid { is_valid (app_as app.now) ≡ true }
        requires few { self.old.taken < u32.MAX }
        ensures answer { IfOk result (λ b. b ≡ is_some
            (step (app_as app.now) self.old.state item.now)) }
        ensures state { OnOk result (self.new.state
            ≡ unwrap_or (step (app_as app.now) self.old.state item.now) self.old.state) }
        ensures taken { IfOk result (λ b. self.new.taken
            ≡ (if b then self.old.taken + 1 else self.old.taken)) }
        ensures err { OnErr result ((self.new.state ≡ self.old.state)
            × (self.new.taken ≡ self.old.taken)) }
        ensures memory { OnErr result (may_take_memory item.now ≡ true) }
    {
        let is_allowed = take_item(self.alloc, &mut self.state, app, *item)?;
        if is_allowed {
            self.taken += 1;
        }
        Ok(is_allowed)
    }

    /// How many items were allowed so far.
    pub fn taken(&self) -> u64
        ensures { result ≡ self.now.taken }
    {
        self.taken
    }

    /// How many words were sent over a connection in an epoch.
    pub fn sent(&self, link: u8, epoch: u8) -> u32
        ensures { result ≡ length (slice_index_or self.now.state.sent (link + 256 * epoch) []) }
    {
        count_in(
            &self.state.sent,
            usize::from(link) + 256 * usize::from(epoch),
        )
    }

    /// The epoch with which an end of a module is open, by its index among the module's ends;
    /// `None` exactly where the module is absent, has no end of this index, or the end isn't open.
    pub fn open_epoch(&self, module: u8, end: u8) -> Option<u8>
        ensures { result ≡ open_epoch self.now.state «module» «end» }
    {
        match self.state.modules.get(usize::from(module)) {
            Some(standing) => epoch_in(standing, end),
            None => None,
        }
    }
}
