//! The lines that `explain` writes. What is said of items is kept, to be written together. None of
//! this takes memory.

ghost use Rattle.std.specs.Prelude.{◌≡◌, ◌≢◌, ◌+◌, ◌≤◌, ◌++◌, decimal, length, List, Some, true};
ghost use Rattle.command_promise.specs.declared.status.Status.TheVariants.{Done, WriteFailed};
ghost use Rattle.command_promise.specs.declared.status.Status.TheVariants.{OutOfMemory};
ghost use Rattle.command_promise.specs.Told.{CommandEnds, Output, behind};
ghost use Rattle.sx_trace.specs.declared.items.Item.{Item as Listed};
ghost use Rattle.sx_mean.specs.Application.{AppTree};
ghost use Rattle.sx_explain.specs.Followed.{Follows};
ghost use Rattle.command_explain.specs.Output.{because_line, broken_output, forged_line};
ghost use Rattle.command_explain.specs.Output.{illegal_output, legal_text};
ghost use Rattle.command_explain.specs.Turns.{TellsItem};

use crate::lines::TraceRule;
use arrayvec::ArrayVec;
use command_promise::{Status, Turned, finish};
use command_text::batch::{Batch, MOST, put_kept};
use command_text::fault::finish_fault;
use command_text::text::{Text, put};
use itoa::Buffer;
use sx_explain::judge::{Judge, Judged};
use sx_io::Sink;

/// The most bytes that are said of an item.
pub(crate) const LONGEST_LINE: usize = 96;

/// Whether there is room for what is said of one more item.
pub(crate) fn has_room(kept: &Batch) -> bool
    ensures { result ≡ true → length kept.now.items + LONGEST_LINE ≤ MOST }
{
    kept.len() <= MOST - LONGEST_LINE
}

/// Appends a number of at most 20 digits.
pub fn put_number<const N: usize>(text: &mut ArrayVec<u8, N>, number: u64)
    requires { length text.old.items + 20 ≤ N }
    ensures added { text.new.items ≡ text.old.items ++ decimal number }
    ensures short { length text.new.items ≤ length text.old.items + 20 }
{
    let mut digits = Buffer::new();
    put(text, digits.format(number).as_bytes());
}

/// That an item is illegal.
fn illegal_text(number: u32) -> Text
    ensures { result.items ≡ (illegal_output number).text }
{
    let mut text = Text::new();
    put(&mut text, b"illegal ");
    put_number(&mut text, u64::from(number));
    put(&mut text, b"\n");
    text
}

/// Appends which item is the first that is forged, if one is.
pub fn put_forged(text: &mut Text, forged: Option<u64>)
    requires { length text.old.items + 28 ≤ 96 }
    ensures added { text.new.items ≡ text.old.items ++ forged_line forged }
    ensures short { length text.new.items ≤ length text.old.items + 28 }
{
    if let Some(number) = forged {
        put(text, b"forged ");
        put_number(text, number);
        put(text, b"\n");
    }
}

/// How many items are legal, and which is the first that is forged.
#[tactic(auto, unfolding(command_text::specs::Output::end_line))]
fn last_text(judge: &Judge) -> Text
    ensures { (app : AppTree) (items : List Listed) → Follows app items judge.now
        → result.items ≡ legal_text items }
{
    let mut text = Text::new();
    put(&mut text, b"legal ");
    put_number(&mut text, judge.legal());
    put(&mut text, b"\n");
    put_forged(&mut text, judge.forged());
    put(&mut text, b"end\n");
    text
}

/// Keeps which item caused an item, which there is room for.
fn keep_because(kept: &mut Batch, number: u32, cause: u64)
    requires { length kept.old.items + LONGEST_LINE ≤ MOST }
    ensures { kept.new.items ≡ kept.old.items ++ because_line number cause }
{
    put(kept, b"because ");
    put_number(kept, u64::from(number));
    put(kept, b" ");
    put_number(kept, cause);
    put(kept, b"\n");
}

/// Writes all that is kept, and ends the command with this text and status, as `finish` does.
fn finish_kept<K: Sink>(output: &mut K, kept: &Batch, text: &[u8], status: Status) -> Status
    requires { status ≡ WriteFailed → ⊥ }
    ensures ends { CommandEnds K.tells (K.at output.old) (K.at output.new) result
        (behind kept.now.items (record { text = text.now; status = status })) }
    ensures status { (result ≡ WriteFailed → ⊥) → result ≡ status }
{
    match put_kept(output, kept) {
        Ok(()) => finish(output, text, status),
        Err(_) => Status::WriteFailed,
    }
}

/// Keeps what is said of an item; where it is illegal, writes that and stops.
pub(crate) fn keep_said<K: Sink>(
    output: &mut K,
    kept: &mut Batch,
    number: u32,
    said: Judged,
) -> Turned
    requires room { length kept.old.items + LONGEST_LINE ≤ MOST }
    ensures does { TellsItem K.tells (K.at output.old) (K.at output.new) kept.old.items
        kept.new.items number said result }
    ensures legal { result ≡ Turned.On → said ≢ Judged.Illegal }
    ensures memory { result ≢ Turned.Stop OutOfMemory }
{
    match said {
        Judged::Because(cause) => {
            keep_because(kept, number, cause);
            Turned::On
        }
        Judged::Illegal => {
            let text = illegal_text(number);
            Turned::Stop(finish_kept(output, kept, text.as_slice(), Status::Illegal))
        }
        Judged::Fine => Turned::On,
        Judged::Forged => Turned::On,
        Judged::Unjudged => Turned::On,
    }
}

/// Writes the last lines of a trace that is whole, and legal up to the first item that is forged.
pub(crate) fn finish_legal<K: Sink>(output: &mut K, judge: &Judge) -> Status
    ensures ends { (app : AppTree) (items : List Listed) → Follows app items judge.now
        → CommandEnds K.tells (K.at output.old) (K.at output.new) result
        (record { text = legal_text items; status = Done }) }
    ensures memory { result ≢ OutOfMemory }
{
    finish(output, last_text(judge).as_slice(), Status::Done)
}

/// Writes which rule the line of this number breaks.
pub fn break_off<K: Sink>(output: &mut K, rule: TraceRule, number: u32) -> Status
    ensures ends { CommandEnds K.tells (K.at output.old) (K.at output.new) result
        (broken_output rule number) }
    ensures memory { result ≢ OutOfMemory }
{
    finish_fault(
        output,
        b"fault trace E",
        rule.number(),
        number,
        Status::Broken,
    )
}

/// Writes all that is kept, and which rule the line of this number breaks.
pub(crate) fn break_kept<K: Sink>(
    output: &mut K,
    kept: &Batch,
    rule: TraceRule,
    number: u32,
) -> Status
    ensures ends { CommandEnds K.tells (K.at output.old) (K.at output.new) result
        (behind kept.now.items (broken_output rule number)) }
    ensures memory { result ≢ OutOfMemory }
{
    match put_kept(output, kept) {
        Ok(()) => break_off(output, rule, number),
        Err(_) => Status::WriteFailed,
    }
}
