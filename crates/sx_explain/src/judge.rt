//! The judge of a trace.

ghost use Rattle.std.specs.Prelude.{◌≡◌, ◌+◌, ◌*◌, ◌/◌, ◌%◌, ◌<◌, ◌≤◌, [], IfOk, List, None, OnErr};
ghost use Rattle.std.specs.Prelude.{◌||◌, Ok, OnOk, is_some, length, replicate, slice_get, slice_set};
ghost use Rattle.std.specs.Prelude.{true};
ghost use Rattle.sx_mean.specs.Application.{AppTree};
ghost use Rattle.sx_mean.specs.Validity.{is_valid};
ghost use Rattle.sx_mean.specs.View.{app_as};
ghost use Rattle.sx_model.specs.State.{FIELDS};
ghost use Rattle.sx_model.specs.Step.{device_of, ◌>>?◌, step};
ghost use Rattle.sx_model.specs.Legal.{before};
ghost use Rattle.sx_model.specs.Memory.{may_take_memory};
ghost use Rattle.sx_trace.specs.declared.items.Item.{Item as Listed};
ghost use Rattle.sx_explain.specs.Followed.{FillsFor, Follows, IsFullFor, answered, found, noted};
ghost use Rattle.sx_explain.specs.Followed.{taken_in, items_after};
ghost use Rattle.sx_explain.specs.Judging.{first_forged, judged, said};

use crate::numbers::{Latest, Numbers, fill_all, number_at};
use std::alloc::{AllocError, Global};
use std::marker::Model;
use sx_mean::apps::{App, AppDevice, Part};
use sx_model::model as source;
use sx_trace::items::Item;

/// What a judge says of an item.
#[derive(Clone, Copy, PartialEq, Eq, Debug)]
pub enum Judged {
    /// The source allows it.
    Fine,
    /// The source allows it, and the item of this number caused it. Items are numbered from 1.
    Because(u64),
    /// The source doesn't allow it.
    Illegal,
    /// It is the first that is forged.
    Forged,
    /// It comes after one that is forged.
    Unjudged,
}

/// What a judge keeps of the items so far.
#[derive(Drop)]
pub struct Judge {
    model: source::Model,
    senses: Vec<Option<u64>>,
    events: Vec<Option<u64>>,
    /// Those of connection c in epoch e are at c + 256 e.
    causes: Vec<Numbers>,
    /// The latest event, until its words have their numbers.
    behind: Option<Latest>,
    has_forged: bool,
}

impl Model for Judge {
    ghost use Rattle.sx_explain.specs.Followed.{Seen};

    ghost Value = { Seen };

    ghost view = { λ j. record {
      model = j.model.state;
      taken = j.model.taken;
      senses = j.senses.items;
      events = j.events.items;
      causes = j.causes.items;
      behind = j.behind;
      has_forged = j.has_forged;
    } };
}

fn none_of(alloc: Global, count: usize) -> Result<Vec<Option<u64>>, AllocError>
    ensures { IfOk result (λ latest. latest.items ≡ replicate count None) }
{
    let mut latest = Vec::new(alloc);
    for _at in 0..count {
        latest.push(None)?;
    }
    Ok(latest)
}

fn no_numbers(alloc: Global) -> Numbers
    ensures { result ≡ [] }
{
    Numbers {
        numbers: Vec::new(alloc),
    }
}

/// How many connection fields there are. This is a function, and no constant, so that a proof sees no
/// number: with the number, a list of so many is written out.
#[tactic(auto, unfolding(sx_model::specs::State::FIELDS))]
fn fields() -> usize
    ensures { result ≡ FIELDS }
{
    65_536
}

fn no_causes(alloc: Global, fields: usize) -> Result<Vec<Numbers>, AllocError>
    ensures { IfOk result (λ causes. causes.items ≡ replicate fields []) }
{
    let mut causes = Vec::new(alloc);
    for _field in 0..fields {
        causes.push(no_numbers(alloc))?;
    }
    Ok(causes)
}

fn latest_at(latest: &[Option<u64>], at: usize) -> Option<u64>
    ensures { result ≡ (slice_get latest.now at >>? (λ o. o)) }
{
    match latest.get(at) {
        Some(number) => *number,
        None => None,
    }
}

fn set_latest(latest: &mut Vec<Option<u64>>, at: usize, number: u64)
    ensures { latest.new.items ≡ slice_set latest.old.items at (Some number) }
{
    if at < latest.len() {
        latest[at] = Some(number);
    }
}

fn device_of(app: &App, module: u8) -> Option<u8>
    ensures { result ≡ device_of (app_as app.now) «module» }
{
    match app.parts.get(usize::from(module)) {
        Some(part) => part.device,
        None => None,
    }
}

fn said(cause: Option<u64>, item: Item) -> Judged
    ensures { result ≡ said cause item }
{
    match cause {
        Some(number) => Judged::Because(number),
        None => match item {
            Item::Forged { .. } => Judged::Forged,
            _ => Judged::Fine,
        },
    }
}

impl Judge {
    /// The judge of an application's traces, before their first item. The error says that memory
    /// ran out.
    pub fn new(alloc: Global, app: &App) -> Result<Judge, AllocError>
        requires { is_valid (app_as app.now) ≡ true }
        ensures { IfOk result (λ judge. Follows (app_as app.now) [] judge) }
    {
        let model = source::Model::new(alloc, app)?;
        let senses = none_of(alloc, app.devices.len())?;
        let events = none_of(alloc, app.parts.len())?;
        let causes = no_causes(alloc, fields())?;
        Ok(Judge {
            model,
            senses,
            events,
            causes,
            behind: None,
            has_forged: false,
        })
    }

    /// The words of the latest event have their numbers.
    fn catch_up(&mut self, app: &App) -> Result<(), AllocError>
        requires { length app.now.links.items ≤ 64 }
        ensures ok { OnOk result (self.new
            ≡ record self.old { causes = self.new.causes; behind = None }) }
        ensures err { OnErr result (self.new ≡ record self.old { causes = self.new.causes }) }
        ensures memory { OnErr result (is_some self.old.behind ≡ true) }
        ensures fills { FillsFor self.old.behind self.old.model.sent self.old.causes
            self.new.causes }
        ensures all { OnOk result (IsFullFor self.old.behind app.now.links.items self.old.model
            self.new.causes) }
    {
        match self.behind {
            Some(latest) => {
                fill_all(&mut self.causes, &self.model, &app.links, latest)?;
                self.behind = None;
                Ok(())
            }
            None => Ok(()),
        }
    }

    /// The cause of an item that comes now.
    fn found(&self, app: &App, item: Item) -> Option<u64>
        ensures { result ≡ found (app_as app.now) self.now item }
    {
        match item {
            Item::Read { module, .. } => match device_of(app, module) {
                Some(device) => latest_at(&self.senses, usize::from(device)),
                None => None,
            },
            Item::Take { link, number, .. } => number_at(
                &self.causes,
                usize::from(link) + 256 * (number / 65_536) as usize,
                (number % 65_536) as usize,
            ),
            Item::Out { module, .. } => latest_at(&self.events, usize::from(module)),
            _ => None,
        }
    }

    fn note_event(&mut self, module: u8, number: u64)
        ensures { self.new ≡ record self.old {
          events = slice_set self.old.events «module» (Some number);
          behind = Some (record { part = «module»; number = number });
        } }
    {
        set_latest(&mut self.events, usize::from(module), number);
        self.behind = Some(Latest {
            part: module,
            number,
        });
    }

    /// Keeps what is needed of an item that the source allowed.
    fn note(&mut self, item: Item, number: u64)
        ensures { self.new ≡ noted number item self.old }
    {
        match item {
            Item::Sense { device, .. } => {
                set_latest(&mut self.senses, usize::from(device), number)
            }
            Item::Read { module, .. } => self.note_event(module, number),
            Item::Take { module, .. } => self.note_event(module, number),
            Item::Forged { .. } => self.has_forged = true,
            _ => {}
        }
    }

    /// Judges an item where every word has its number and no item was forged.
    fn judge_next(&mut self, app: &App, item: &Item) -> Result<Judged, AllocError>
        requires valid { is_valid (app_as app.now) ≡ true }
        requires few { self.old.taken < 4000000 }
        ensures answer { IfOk result (λ said. said ≡ answered (app_as app.now) item.now self.old
            (step (app_as app.now) self.old.model item.now)) }
        ensures kept { OnOk result (self.new ≡ taken_in item.now self.old
            (step (app_as app.now) self.old.model item.now)) }
        ensures err { OnErr result (self.new ≡ self.old) }
        ensures memory { OnErr result (may_take_memory item.now ≡ true) }
    {
        let cause = self.found(app, *item);
        if !self.model.step(app, item)? {
            return Ok(Judged::Illegal);
        }
        let number = self.model.taken();
        self.note(*item, number);
        Ok(said(cause, *item))
    }

    /// Judges the next item. After one that is illegal, or where memory runs out, the judge follows
    /// the items that it followed before. The error says that memory ran out, which it doesn't
    /// after an item that is forged, and elsewhere only where the item may take memory or comes
    /// next after an event, whose words then get their numbers.
    pub fn item(&mut self, app: &App, item: &Item) -> Result<Judged, AllocError>
        requires valid { is_valid (app_as app.now) ≡ true }
        requires few { self.old.taken < 4000000 }
        ensures answer { (items : List Listed) → Follows (app_as app.now) items self.old
            → IfOk result (λ said. said ≡ judged (app_as app.now) items item.now) }
        ensures follows { (items : List Listed) → Follows (app_as app.now) items self.old
            → IfOk result (λ said. Follows (app_as app.now) (items_after items item.now said)
            self.new) }
        ensures err { (items : List Listed) → Follows (app_as app.now) items self.old
            → OnErr result (Follows (app_as app.now) items self.new) }
        ensures memory { OnErr result
            ((may_take_memory item.now || is_some self.old.behind) ≡ true) }
        ensures unjudged { self.old.has_forged ≡ true → result ≡ Ok Judged.Unjudged }
    {
        if self.has_forged {
            return Ok(Judged::Unjudged);
        }
        self.catch_up(app)?;
        self.judge_next(app, item)
    }

    /// How many items were allowed so far, before the first that is forged and with it.
    pub fn taken(&self) -> u64
        ensures { result ≡ self.now.taken }
    {
        self.model.taken()
    }

    /// How many items were allowed so far, before the first that is forged.
    pub fn legal(&self) -> u64
        ensures { (app : AppTree) (items : List Listed) → Follows app items self.now
            → result ≡ length (before items) }
    {
        if self.has_forged {
            self.taken().saturating_sub(1)
        } else {
            self.taken()
        }
    }

    /// The number of the first item that is forged, if one is.
    pub fn forged(&self) -> Option<u64>
        ensures { (app : AppTree) (items : List Listed) → Follows app items self.now
            → result ≡ first_forged items }
    {
        if self.has_forged {
            Some(self.taken())
        } else {
            None
        }
    }
}
