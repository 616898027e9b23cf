//! The numbers of the events at which words were sent.

ghost use Rattle.std.specs.Prelude.{◌≡◌, ◌+◌, ◌*◌, ◌<◌, ◌≤◌, OnOk, length, slice_get};
ghost use Rattle.sx_explain.specs.Causes.{word_of};
ghost use Rattle.sx_explain.specs.Filling.{Fills, IsFull, IsFullAt, IsFullEnd, IsFullOf, ends_at};
ghost use Rattle.sx_explain.specs.Filling.{full};

use std::alloc::AllocError;
use std::marker::Model;
use sx_mean::apps::Link;
use sx_model::model as source;

/// The numbers of the items at which words were sent over a connection in an epoch.
#[derive(Drop)]
pub(crate) struct Numbers {
    pub(crate) numbers: Vec<u64>,
}

impl Model for Numbers {
    ghost use Rattle.std.specs.Prelude.{ℕ, List};

    ghost Value = { List ℕ };

    ghost view = { λ n. n.numbers.items };
}

/// The latest event, whose words may have no numbers yet: its module and its number.
#[derive(Clone, Copy)]
pub(crate) struct Latest {
    pub(crate) part: u8,
    pub(crate) number: u64,
}

fn number_in(numbers: &Numbers, place: usize) -> Option<u64>
    ensures { result ≡ slice_get numbers.now place }
{
    match numbers.numbers.get(place) {
        Some(number) => Some(*number),
        None => None,
    }
}

/// The number of the item at which the word of this place was sent.
pub(crate) fn number_at(causes: &[Numbers], field: usize, place: usize) -> Option<u64>
    ensures { result ≡ word_of causes.now field place }
{
    match causes.get(field) {
        Some(numbers) => number_in(numbers, place),
        None => None,
    }
}

/// There are as many numbers as words, the new ones all this one.
fn fill(numbers: &mut Vec<u64>, count: usize, number: u64) -> Result<(), AllocError>
    ensures keeps { full number count numbers.new.items ≡ full number count numbers.old.items }
    ensures grows { length numbers.old.items ≤ length numbers.new.items }
    ensures all { OnOk result (count ≤ length numbers.new.items) }
{
    for _at in numbers.len()..count {
        numbers.push(number)?;
    }
    Ok(())
}

fn fill_in(numbers: &mut Numbers, count: usize, number: u64) -> Result<(), AllocError>
    ensures keeps { full number count numbers.new ≡ full number count numbers.old }
    ensures grows { length numbers.old ≤ length numbers.new }
    ensures all { OnOk result (count ≤ length numbers.new) }
{
    fill(&mut numbers.numbers, count, number)
}

#[tactic(auto, using(crate::proofs::Filled::fills_found, crate::proofs::Filled::full_found, crate::proofs::Filled::fills_none, crate::proofs::Filled::full_past))]
fn fill_at(
    causes: &mut Vec<Numbers>,
    model: &source::Model,
    link: u8,
    epoch: u8,
    number: u64,
) -> Result<(), AllocError>
    ensures fills { Fills number model.now.state.sent causes.old.items causes.new.items }
    ensures all { OnOk result (IsFullOf model.now.state.sent causes.new.items
        (link + 256 * epoch)) }
{
    let count = model.sent(link, epoch) as usize;
    match causes.get_mut(usize::from(link) + 256 * usize::from(epoch)) {
        Some(numbers) => fill_in(numbers, count, number),
        None => Ok(()),
    }
}

/// The words that were sent over a connection have their numbers, by the epoch with which its
/// sending end is open.
fn fill_open(
    causes: &mut Vec<Numbers>,
    model: &source::Model,
    link: u8,
    opened: Option<u8>,
    number: u64,
) -> Result<(), AllocError>
    ensures fills { Fills number model.now.state.sent causes.old.items causes.new.items }
    ensures all { OnOk result (IsFullAt model.now.state.sent causes.new.items link opened) }
{
    match opened {
        Some(epoch) => fill_at(causes, model, link, epoch, number),
        None => Ok(()),
    }
}

/// The words of a connection have their numbers, if it comes from the module of the latest event,
/// whose sending end of it has this index.
fn fill_end(
    causes: &mut Vec<Numbers>,
    model: &source::Model,
    link: &Link,
    c: u8,
    end: u8,
    latest: Latest,
) -> Result<(), AllocError>
    ensures fills { Fills latest.number model.now.state.sent causes.old.items causes.new.items }
    ensures all { OnOk result (IsFullEnd model.now.state causes.new.items latest.part link.now c
        «end») }
{
    if link.from != latest.part {
        return Ok(());
    }
    let opened = model.open_epoch(latest.part, end);
    fill_open(causes, model, c, opened, latest.number)
}

/// How many ends of a connection a module holds.
fn count_ends(link: &Link, c: u8, part: u8) -> u8
    ensures count { result ≡ length (ends_at c part link.now) }
    ensures few { result ≤ 2 }
{
    match (link.from == part, link.to == part) {
        (true, true) => 2,
        (false, false) => 0,
        _ => 1,
    }
}

/// The words that the latest event sent have their numbers.
pub(crate) fn fill_all(
    causes: &mut Vec<Numbers>,
    model: &source::Model,
    links: &[Link],
    latest: Latest,
) -> Result<(), AllocError>
    requires { length links.now ≤ 64 }
    ensures fills { Fills latest.number model.now.state.sent causes.old.items causes.new.items }
    ensures all { OnOk result (IsFull links.now model.now.state latest.part causes.new.items) }
{
    let mut end: u8 = 0;
    for c in 0..links.len() {
        let link = &links[c];
        fill_end(causes, model, link, c as u8, end, latest)?;
        end += count_ends(link, c as u8, latest.part);
    }
    Ok(())
}
