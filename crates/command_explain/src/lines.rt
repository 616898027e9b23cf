//! The lines of a trace.

ghost use Rattle.std.specs.Prelude.{◌≡◌, ◌≤◌, IsTrue, OnOk, option_map};
ghost use Rattle.sx_trace.specs.ValidNames.{are_valid};
ghost use Rattle.command_explain.specs.Meant.{AreMeanings, Meanings};
ghost use Rattle.command_explain.specs.Trace.{is_last, judged_line, line_of, rule_behind};
ghost use Rattle.command_explain.specs.Trace.{rule_number};

use sx_trace::items::Item;
use sx_trace::names::Names;
use sx_trace::reading::read_item;

/// What a line of a trace says.
#[derive(Clone, Copy)]
pub enum TraceLine {
    /// One item.
    Item(Item),
    /// The trace ends.
    Last,
}

/// A trace has at most this many lines.
pub const MOST_LINES: u32 = 4_000_000;

/// The rules that a line after a deployment can break, by which it is refused.
#[derive(Clone, Copy)]
pub enum TraceRule {
    /// It is no line `trace` after at most 32 lines of images.
    NoTrace = 1,
    /// It is neither `end`, nor the line of a fault, nor an item's.
    NoItem = 2,
    /// The input ends before the last line of the trace.
    NoEnd = 3,
    /// It comes after the last line of the trace.
    PastEnd = 4,
    /// 4,000,000 lines of the trace come before it.
    TooMany = 5,
}

impl TraceRule {
    /// The number that is printed.
    pub(crate) fn number(self) -> u8
        ensures { result ≡ rule_number self }
    {
        self as u8
    }
}

/// Whether a trace ends with this line.
fn is_last(text: &[u8]) -> bool
    ensures { result ≡ is_last text.now }
{
    text == b"end".as_slice() || (text.len() >= 6 && &text[..6] == b"fault ".as_slice())
}

/// What a line says that isn't the last one, and has this item.
fn item_line(item: Option<Item>) -> Option<TraceLine>
    ensures { result ≡ option_map TraceLine.Item item }
{
    match item {
        Some(item) => Some(TraceLine::Item(item)),
        None => None,
    }
}

/// What a line says, if it is one of a trace.
fn line_of(names: &Names, text: &[u8]) -> Option<TraceLine>
    requires { IsTrue (are_valid names.now) }
    ensures { (means : Meanings) → AreMeanings means
        → result ≡ line_of (means.item names.now) text.now }
{
    if is_last(text) {
        return Some(TraceLine::Last);
    }
    item_line(read_item(names, text))
}

/// What the line of this number says, counted from 1, or the first rule that it breaks.
fn kept(line: Option<TraceLine>, number: u32) -> Result<TraceLine, TraceRule>
    ensures line { result ≡ judged_line number line }
    ensures few { OnOk result (number ≤ MOST_LINES) }
{
    match line {
        None => Err(TraceRule::NoItem),
        Some(line) => {
            if number > MOST_LINES {
                return Err(TraceRule::TooMany);
            }
            Ok(line)
        }
    }
}

/// What this text as the line of this number says, or the first rule that it breaks.
pub fn judge_line(names: &Names, text: &[u8], number: u32) -> Result<TraceLine, TraceRule>
    requires { IsTrue (are_valid names.now) }
    ensures line { (means : Meanings) → AreMeanings means
        → result ≡ judged_line number (line_of (means.item names.now) text.now) }
    ensures few { OnOk result (number ≤ MOST_LINES) }
{
    kept(line_of(names, text), number)
}

/// The rule that a line breaks after the last one.
fn broken_by(line: Option<TraceLine>) -> TraceRule
    ensures { result ≡ rule_behind line }
{
    match line {
        None => TraceRule::NoItem,
        Some(_) => TraceRule::PastEnd,
    }
}

/// The rule that this text breaks as a line after the last one.
pub fn rule_behind(names: &Names, text: &[u8]) -> TraceRule
    requires { IsTrue (are_valid names.now) }
    ensures { (means : Meanings) → AreMeanings means
        → result ≡ rule_behind (line_of (means.item names.now) text.now) }
{
    broken_by(line_of(names, text))
}
