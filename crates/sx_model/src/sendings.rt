//! What the acts of an event are sent as, over which connections.

ghost use Rattle.std.specs.Prelude.{◌≡◌, ◌+◌, ◌*◌, ◌<◌, ◌≤◌, ◌-◌, ◌++◌, ◌∷◌, [], IfOk, OnErr, OnOk};
ghost use Rattle.std.specs.Prelude.{if◌then◌else◌, length, nat_lt, slice_get, take};
ghost use Rattle.std.specs.Option.{option_to_list};
ghost use Rattle.sx_model.specs.Sendings.{act_to_send, all_to_send, emits_of, emits_of_act};
ghost use Rattle.sx_model.specs.Sendings.{has_room, sending_of, sent_one, sent_pieces, sent_words};
ghost use Rattle.sx_model.specs.Sendings.{to_send, without_last};

use crate::state::{EndView, Words};
use smallvec::SmallVec;
use std::alloc::{AllocError, Global};
use sx_lang::sides::Side;
use sx_mean::events::{Act, End};

/// A value for a connection field: that of connection c in epoch e is c + 256 e.
#[derive(Clone, Copy)]
pub(crate) struct Sending {
    pub(crate) field: usize,
    pub(crate) value: u16,
}

impl Default for Sending {
    /// What fills the places of a list that hold no sending.
    fn default() -> Sending {
        Sending { field: 0, value: 0 }
    }
}

/// The sendings of an event, in order. Few of them need no allocation.
pub(crate) type Sendings = SmallVec<Sending, 4>;

/// This many words can be sent over a connection in one epoch.
const MOST_SENT: usize = 65_535;

fn field_at(link: u8, epoch: u8) -> usize
    ensures { result ≡ link + 256 * epoch }
{
    usize::from(link) + 256 * usize::from(epoch)
}

/// What an end sends of a value that is sent to an output.
fn sending_of(end: &End, view: &EndView, output: u8, value: u16) -> Option<Sending>
    ensures { result ≡ sending_of «end».now view.now output value }
{
    match (end.side, view.epoch) {
        (Side::From, Some(epoch)) => {
            if end.port != output {
                return None;
            }
            Some(Sending {
                field: field_at(end.link, epoch),
                value,
            })
        }
        _ => None,
    }
}

fn add_sending(sendings: &mut Sendings, sending: Option<Sending>) -> Result<(), AllocError>
    ensures { OnOk result (sendings.new.items ≡ sendings.old.items ++ option_to_list sending) }
{
    match sending {
        Some(sending) => {
            sendings.push(sending)?;
            Ok(())
        }
        None => Ok(()),
    }
}

#[tactic(auto, using(crate::proofs::Paired::to_send_end))]
fn add_sent(
    sendings: &mut Sendings,
    ends: &[End],
    views: &[EndView],
    output: u8,
    value: u16,
) -> Result<(), AllocError>
    ensures { OnOk result (sendings.new.items ≡ sendings.old.items
        ++ to_send ends.now views.now output value) }
{
    for at in 0..ends.len().min(views.len()) {
        let sending = sending_of(&ends[at], &views[at], output, value);
        add_sending(sendings, sending)?;
    }
    Ok(())
}

fn add_act(
    sendings: &mut Sendings,
    ends: &[End],
    views: &[EndView],
    act: Act,
) -> Result<(), AllocError>
    ensures { OnOk result (sendings.new.items ≡ sendings.old.items
        ++ act_to_send ends.now views.now act) }
{
    match act {
        Act::Send(output, value) => add_sent(sendings, ends, views, output, value),
        Act::Emit(_) => Ok(()),
    }
}

/// What acts are sent as, in order.
pub(crate) fn to_send(
    alloc: Global,
    ends: &[End],
    views: &[EndView],
    acts: &[Act],
) -> Result<Sendings, AllocError>
    ensures { IfOk result (λ sendings. sendings.items ≡ all_to_send ends.now views.now acts.now) }
{
    let mut sendings = SmallVec::new(alloc);
    for act in acts {
        add_act(&mut sendings, ends, views, *act)?;
    }
    Ok(sendings)
}

fn add_emit(emits: &mut Vec<u16>, act: Act) -> Result<(), AllocError>
    ensures { OnOk result (emits.new.items ≡ emits.old.items ++ emits_of_act act) }
{
    match act {
        Act::Send(_, _) => Ok(()),
        Act::Emit(value) => {
            emits.push(value)?;
            Ok(())
        }
    }
}

/// What acts emit, in order.
pub(crate) fn emits_of(alloc: Global, acts: &[Act]) -> Result<Vec<u16>, AllocError>
    ensures { IfOk result (λ emits. emits.items ≡ emits_of acts.now) }
{
    let mut emits = Vec::new(alloc);
    for act in acts {
        add_emit(&mut emits, *act)?;
    }
    Ok(emits)
}

fn push_word(words: &mut Words, value: u16) -> Result<bool, AllocError>
    ensures answer { IfOk result (λ b. b ≡ nat_lt (length words.old) MOST_SENT) }
    ensures words { OnOk result (words.new ≡ (if nat_lt (length words.old) MOST_SENT then
        words.old ++ value ∷ [] else words.old)) }
    ensures err { OnErr result (words.new ≡ words.old) }
{
    if words.words.len() >= MOST_SENT {
        return Ok(false);
    }
    words.words.push(value)?;
    Ok(true)
}

fn pop_word(words: &mut Words)
    ensures { words.new ≡ take (length words.old - 1) words.old }
{
    let _last = words.words.pop();
}

/// Sends one word, if there is room.
#[tactic(auto, using(crate::proofs::Sent::word_sent, crate::proofs::Sent::word_answered, crate::proofs::Sent::no_field))]
fn send_one(sent: &mut Vec<Words>, sending: &Sending) -> Result<bool, AllocError>
    ensures answer { IfOk result (λ b. b ≡ has_room (slice_get sent.old.items sending.now.field)) }
    ensures sent { OnOk result (sent.new.items ≡ sent_one sending.now sent.old.items) }
    ensures err { OnErr result (sent.new.items ≡ sent.old.items) }
{
    match sent.get_mut(sending.field) {
        Some(words) => push_word(words, sending.value),
        None => Ok(false),
    }
}

/// Takes the last word at a field back.
#[tactic(auto, using(crate::proofs::Sent::word_taken, crate::proofs::Sent::no_field))]
fn unsend(sent: &mut Vec<Words>, field: usize)
    ensures { sent.new.items ≡ without_last field (slice_get sent.old.items field) sent.old.items }
{
    if let Some(words) = sent.get_mut(field) {
        pop_word(words);
    }
}

/// Sends all that there is room for, and says how much that was; nothing is sent where memory runs
/// out. An event sends little, so the recursion isn't deep.
#[tactic(auto, using(crate::proofs::Sent::taken_back, crate::proofs::Sent::no_room))]
pub(crate) fn send_all(sent: &mut Vec<Words>, sendings: &[Sending]) -> Result<usize, AllocError>
    ensures pieces { IfOk result (λ n. n ≡ sent_pieces sendings.now sent.old.items) }
    ensures few { IfOk result (λ n. n ≤ length sendings.now) }
    ensures sent { OnOk result (sent.new.items ≡ sent_words sendings.now sent.old.items) }
    ensures err { OnErr result (sent.new.items ≡ sent.old.items) }
{
    let Some((first, rest)) = sendings.split_first() else {
        return Ok(0);
    };
    if !send_one(sent, first)? {
        return send_all(sent, rest);
    }
    match send_all(sent, rest) {
        Ok(pieces) => Ok(pieces + 1),
        Err(error) => {
            unsend(sent, first.field);
            Err(error)
        }
    }
}
