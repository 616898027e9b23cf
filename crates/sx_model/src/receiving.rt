//! A receiving end takes a word.

ghost use Rattle.std.specs.Prelude.{◌≡◌, ◌<◌, ◌/◌, ◌%◌, is_some, unwrap_or};
ghost use Rattle.sx_lang.specs.declared.sides.Side.TheVariants.{To};
ghost use Rattle.sx_model.specs.Changes.{at_index, on_end, taken_views};
ghost use Rattle.sx_model.specs.Renewal.{takes};
ghost use Rattle.sx_model.specs.State.{contains};

use crate::ends::end_at;
use crate::state::EndView;
use sx_lang::sides::Side;
use sx_mean::events::End;

/// A word that a module takes: its connection, its number and its value.
#[derive(Clone, Copy)]
pub(crate) struct Taking {
    pub(crate) link: u8,
    pub(crate) number: u32,
    pub(crate) value: u16,
}

impl Taking {
    pub(crate) fn new(link: u8, number: u32, value: u16) -> Taking
        ensures link { result.link ≡ link }
        ensures number { result.number ≡ number }
        ensures value { result.value ≡ value }
    {
        Taking {
            link,
            number,
            value,
        }
    }
}

fn is_at(current: Option<u8>, epoch: u32) -> bool
    ensures { result ≡ contains current epoch }
{
    match current {
        Some(current) => u32::from(current) == epoch,
        None => false,
    }
}

/// Whether an end takes the word of this index in an epoch.
fn may_take(view: &EndView, epoch: u32, index: u32) -> bool
    ensures { result ≡ is_some (takes epoch index view.now) }
{
    if !is_at(view.epoch, epoch) {
        return false;
    }
    if view.next > index {
        return false;
    }
    true
}

fn may_take_at(views: &[EndView], at: usize, epoch: u32, index: u32) -> bool
    ensures { result ≡ is_some (at_index views.now at (takes epoch index)) }
{
    match views.get(at) {
        Some(view) => may_take(view, epoch, index),
        None => false,
    }
}

/// Whether a receiving end takes a word.
fn end_may_take(views: &[EndView], ends: &[End], taking: Taking) -> bool
    ensures { result ≡ is_some (on_end (takes (taking.number / 65536) (taking.number % 65536))
        taking.link To ends.now views.now) }
{
    let epoch = taking.number / 65_536;
    let index = taking.number % 65_536;
    match end_at(ends, taking.link, Side::To) {
        Some(at) => may_take_at(views, at, epoch, index),
        None => false,
    }
}

/// Whether an end takes the word, where there is one.
pub(crate) fn may_take_word(views: &[EndView], ends: &[End], taking: Option<Taking>) -> bool
    ensures { result ≡ is_some (taken_views taking ends.now views.now) }
{
    match taking {
        Some(taking) => end_may_take(views, ends, taking),
        None => true,
    }
}

fn take_view(view: &mut EndView, epoch: u32, index: u32)
    requires { index < 65536 }
    ensures { view.new ≡ unwrap_or (takes epoch index view.old) view.old }
{
    if may_take(view, epoch, index) {
        view.next = index + 1;
    }
}

#[tactic(auto, using(crate::proofs::Changed::index_changed, crate::proofs::Changed::no_index))]
fn take_view_at(views: &mut Vec<EndView>, at: usize, epoch: u32, index: u32)
    requires { index < 65536 }
    ensures { views.new.items ≡ unwrap_or (at_index views.old.items at (takes epoch index))
        views.old.items }
{
    if let Some(view) = views.get_mut(at) {
        take_view(view, epoch, index);
    }
}

/// A receiving end takes a word, if it may.
fn take_end(views: &mut Vec<EndView>, ends: &[End], taking: Taking)
    ensures { views.new.items ≡ unwrap_or (on_end (takes (taking.number / 65536)
        (taking.number % 65536)) taking.link To ends.now views.old.items) views.old.items }
{
    let epoch = taking.number / 65_536;
    let index = taking.number % 65_536;
    if let Some(at) = end_at(ends, taking.link, Side::To) {
        take_view_at(views, at, epoch, index);
    }
}

/// An end takes the word, where there is one, if it may.
pub(crate) fn take_word(views: &mut Vec<EndView>, ends: &[End], taking: Option<Taking>)
    ensures { views.new.items ≡ unwrap_or (taken_views taking ends.now views.old.items)
        views.old.items }
{
    if let Some(taking) = taking {
        take_end(views, ends, taking);
    }
}
