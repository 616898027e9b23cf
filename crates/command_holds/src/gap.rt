//! Where the search for a table gave up, in words. Nothing is promised of them.

ghost use Rattle.std.specs.Prelude.{◌≡◌, IfOk, List, ℕ};
ghost use Rattle.command_holds.specs.Output.{unknown_line};

use itoa::Buffer;
use std::alloc::{AllocError, Global};
use sx_lang::names::Name;
use sx_search::gaps::{Gap, Reason};
use sx_span::intervals::Interval;
use sx_trace::names::Names;
use sx_watch::topics::{Topic, TopicKind};

/// The word for why the search gave up.
fn reason_word(reason: Reason) -> &'static [u8] {
    match reason {
        Reason::MayBreak => b"may-break",
        Reason::TooManyRows => b"rows",
        Reason::TooManyPlaces => b"places",
        Reason::TooManyRounds => b"rounds",
        Reason::TooManyPaths => b"paths",
        Reason::NotShown => b"not-shown",
    }
}

/// The word for a kind of items.
fn kind_word(kind: TopicKind) -> &'static [u8] {
    match kind {
        TopicKind::Sense => b"sense",
        TopicKind::Read => b"read",
        TopicKind::Take => b"take",
        TopicKind::Out => b"out",
        TopicKind::Raw => b"raw",
        TopicKind::Drain => b"drain",
        TopicKind::Reset => b"reset",
        TopicKind::Protect => b"protect",
        TopicKind::Attested => b"attested",
    }
}

/// The name at this place of a list.
fn push_name(words: &mut Vec<u8>, names: &[Name], place: u8) -> Result<(), AllocError> {
    match names.get(usize::from(place)) {
        Some(name) => words.extend_from_slice(name.bytes()),
        None => words.push(b'-').map_err(|_| AllocError),
    }
}

/// The name of what an item is about.
fn push_topic(words: &mut Vec<u8>, names: &Names, topic: Topic) -> Result<(), AllocError> {
    let list = match topic.kind {
        TopicKind::Sense | TopicKind::Raw | TopicKind::Drain => &names.devices,
        TopicKind::Read | TopicKind::Out => &names.modules,
        TopicKind::Protect | TopicKind::Attested => &names.modules,
        TopicKind::Take => &names.links,
        TopicKind::Reset => &names.nodes,
    };
    push_name(words, list, topic.index)
}

/// A space, and the bounds of a cell.
fn push_cell(words: &mut Vec<u8>, cell: Interval) -> Result<(), AllocError> {
    let mut digits = Buffer::new();
    words.extend_from_slice(b" ")?;
    words.extend_from_slice(digits.format(cell.low).as_bytes())?;
    words.extend_from_slice(b"..")?;
    words.extend_from_slice(digits.format(cell.high).as_bytes())
}

/// Why the search gave up, at which item, and where the property's cells lay.
fn gap_words(alloc: Global, names: &Names, gap: &Gap) -> Result<Vec<u8>, AllocError> {
    let mut words = Vec::new(alloc);
    words.extend_from_slice(reason_word(gap.reason))?;
    words.extend_from_slice(b" ")?;
    words.extend_from_slice(kind_word(gap.topic.kind))?;
    words.extend_from_slice(b" ")?;
    push_topic(&mut words, names, gap.topic)?;
    for cell in &gap.cells {
        push_cell(&mut words, *cell)?;
    }
    Ok(words)
}

/// The line that says that a property wasn't decided.
#[tactic(auto, unfolding(crate::specs::Output::unknown_line))]
fn unknown_line(alloc: Global, words: &[u8]) -> Result<Vec<u8>, AllocError>
    ensures { IfOk result (λ text. text.items ≡ unknown_line words.now) }
{
    let mut text = Vec::new(alloc);
    text.extend_from_slice(b"unknown ")?;
    text.extend_from_slice(words)?;
    text.extend_from_slice(b"\n")?;
    Ok(text)
}

/// The line of where the search gave up.
pub(crate) fn gap_line(alloc: Global, names: &Names, gap: &Gap) -> Result<Vec<u8>, AllocError>
    ensures { IfOk result (λ text. (words : List ℕ) × (text.items ≡ unknown_line words)) }
{
    let words = gap_words(alloc, names, gap)?;
    unknown_line(alloc, &words)
}
