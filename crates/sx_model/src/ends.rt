//! The ends of connections that a module holds: which one a link and a side name, and how it opens.

ghost use Rattle.std.specs.Prelude.{◌≡◌, ◌<◌, ◌&&◌, false, is_some};
ghost use Rattle.std.specs.Prelude.{unwrap_or};
ghost use Rattle.sx_mean.specs.Ends.{same_side};
ghost use Rattle.sx_model.specs.Changes.{at_index, end_at, is_end, on_end};
ghost use Rattle.sx_model.specs.Renewal.{is_below, opens};

use crate::state::EndView;
use sx_lang::sides::Side;
use sx_mean::events::End;

fn same_side(left: Side, right: Side) -> bool
    ensures { result ≡ same_side left right }
{
    match (left, right) {
        (Side::From, Side::From) => true,
        (Side::To, Side::To) => true,
        _ => false,
    }
}

fn is_end(end: &End, link: u8, side: Side) -> bool
    ensures { result ≡ is_end link side «end».now }
{
    end.link == link && same_side(end.side, side)
}

/// The index of a connection's end among a module's ends.
pub(crate) fn end_at(ends: &[End], link: u8, side: Side) -> Option<usize>
    ensures { result ≡ end_at link side ends.now }
{
    for at in 0..ends.len() {
        if is_end(&ends[at], link, side) {
            return Some(at);
        }
    }
    None
}

fn is_below(old: Option<u8>, epoch: u8) -> bool
    ensures { result ≡ is_below old epoch }
{
    match old {
        None => true,
        Some(old) => old < epoch,
    }
}

fn open_view(view: &mut EndView, epoch: u8) -> bool
    ensures answer { result ≡ is_some (opens epoch view.old) }
    ensures view { view.new ≡ unwrap_or (opens epoch view.old) view.old }
{
    if !is_below(view.epoch, epoch) {
        return false;
    }
    view.epoch = Some(epoch);
    view.next = 0;
    true
}

#[tactic(auto, using(crate::proofs::Changed::index_changed, crate::proofs::Changed::index_answered, crate::proofs::Changed::no_index))]
fn open_view_at(views: &mut Vec<EndView>, at: usize, epoch: u8) -> bool
    ensures answer { result ≡ is_some (at_index views.old.items at (opens epoch)) }
    ensures views { views.new.items ≡ unwrap_or (at_index views.old.items at (opens epoch))
        views.old.items }
{
    match views.get_mut(at) {
        Some(view) => open_view(view, epoch),
        None => false,
    }
}

/// An end opens in an epoch, if it is closed or open with a lower one.
pub(crate) fn open_end(
    views: &mut Vec<EndView>,
    ends: &[End],
    link: u8,
    side: Side,
    epoch: u8,
) -> bool
    ensures answer { result ≡ is_some (on_end (opens epoch) link side ends.now views.old.items) }
    ensures views { views.new.items ≡ unwrap_or (on_end (opens epoch) link side ends.now
        views.old.items) views.old.items }
{
    match end_at(ends, link, side) {
        Some(at) => open_view_at(views, at, epoch),
        None => false,
    }
}
