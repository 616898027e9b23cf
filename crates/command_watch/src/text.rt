//! The lines that `watch` writes. None of this takes memory.

ghost use Rattle.std.specs.Prelude.{◌≡◌, ◌≢◌, List, length};
ghost use Rattle.command_promise.specs.declared.status.Status.TheVariants.{OutOfMemory};
ghost use Rattle.command_promise.specs.Told.{CommandEnds};
ghost use Rattle.sx_trace.specs.declared.items.Item.{Item as Listed};
ghost use Rattle.sx_model.specs.Legal.{before};
ghost use Rattle.sx_watch.specs.Watched.{PropertyTree};
ghost use Rattle.command_watch.specs.Following.{Stands};
ghost use Rattle.command_watch.specs.Output.{broken_line, kept_output, kept_text};

use crate::following::Following;
use command_explain::{put_forged, put_number};
use command_promise::{Status, finish};
use command_text::text::{Text, put};
use sx_io::Sink;

/// That an item breaks the property.
fn broken_text(number: u32) -> Text
    ensures { result.items ≡ (broken_line number).text }
{
    let mut text = Text::new();
    put(&mut text, b"broken ");
    put_number(&mut text, u64::from(number));
    put(&mut text, b"\n");
    text
}

/// Writes that the item of this number breaks the property.
pub(crate) fn finish_broken<K: Sink>(output: &mut K, number: u32) -> Status
    ensures ends { CommandEnds K.tells (K.at output.old) (K.at output.new) result
        (broken_line number) }
    ensures memory { result ≢ OutOfMemory }
{
    finish(
        output,
        broken_text(number).as_slice(),
        Status::PropertyBroken,
    )
}

/// How many of so many items come before the first that is forged.
fn count_before(forged: Option<u64>, count: u32) -> u64
    ensures { (p : PropertyTree) (items : List Listed) (f : Following) → Stands p items f
        → f.forged ≡ forged → count ≡ length items → result ≡ length (before items) }
{
    match forged {
        Some(number) => number.saturating_sub(1),
        None => u64::from(count),
    }
}

/// That none of so many items breaks the property, and which is the first that is forged.
#[tactic(auto, unfolding(command_text::specs::Output::end_line))]
fn kept_text(following: &Following, count: u32) -> Text
    ensures { (p : PropertyTree) (items : List Listed) → Stands p items following.now
        → count ≡ length items → result.items ≡ kept_text items }
{
    let mut text = Text::new();
    put(&mut text, b"kept ");
    put_number(&mut text, count_before(following.forged, count));
    put(&mut text, b"\n");
    put_forged(&mut text, following.forged);
    put(&mut text, b"end\n");
    text
}

/// Writes that none of so many items breaks the property.
pub(crate) fn finish_kept<K: Sink>(output: &mut K, following: &Following, count: u32) -> Status
    ensures ends { (p : PropertyTree) (items : List Listed) → Stands p items following.now
        → count ≡ length items → CommandEnds K.tells (K.at output.old) (K.at output.new) result
        (kept_output items) }
    ensures memory { result ≢ OutOfMemory }
{
    finish(output, kept_text(following, count).as_slice(), Status::Done)
}
