//! What is written of a line that was performed.

ghost use Rattle.std.specs.Prelude.{◌≡◌, ◌≢◌, [], ◌++◌, IsTrue, List};
ghost use Rattle.sx_io.specs.Reading.{Answer};
ghost use Rattle.command_promise.specs.declared.status.Status.TheVariants.{OutOfMemory};
ghost use Rattle.command_promise.specs.Told.{CommandEnds, Output, behind};
ghost use Rattle.command_promise.specs.Parts.{DoesPart};
ghost use Rattle.command_text.specs.Batch.{Writes};
ghost use Rattle.command_text.specs.Keeping.{DoesKept};
ghost use Rattle.command_run.specs.Turns.{front, shown_text};

use command_promise::{Status, Turned};
use command_text::batch::{Batch, finish_wanted};
use command_world::items::add_items;
use sx_io::{Failed, Sink, put_all};
use sx_trace::items::Item;
use sx_trace::names::Names;

/// What is written of a line that was performed.
#[derive(Clone, Copy)]
pub enum Shown {
    /// Its items.
    Items,
    /// Its text after `> `, and its items.
    Lines,
}

/// Appends a text of any length to a batch, which may be written before, and the text after it.
fn add_text<K: Sink>(output: &mut K, batch: &mut Batch, text: &[u8]) -> Result<(), Failed>
    ensures { Writes K.tells (K.at output.old) (K.at output.new) (batch.old.items ++ text.now)
        batch.new.items result }
{
    match batch.try_extend_from_slice(text) {
        Ok(()) => Ok(()),
        Err(_) => {
            put_all(output, batch.as_slice())?;
            batch.clear();
            put_all(output, text)
        }
    }
}

/// Appends what comes before a line's items.
fn add_front<K: Sink>(
    output: &mut K,
    batch: &mut Batch,
    shown: Shown,
    said: &[u8],
) -> Result<(), Failed>
    ensures { Writes K.tells (K.at output.old) (K.at output.new)
        (batch.old.items ++ front shown said.now) batch.new.items result }
{
    match shown {
        Shown::Items => Ok(()),
        Shown::Lines => {
            add_text(output, batch, b"> ")?;
            add_text(output, batch, said)?;
            add_text(output, batch, b"\n")
        }
    }
}

/// Appends what is shown of a line with this text and these items to a batch, which may be written
/// before, and between its items.
fn add_line<K: Sink>(
    output: &mut K,
    batch: &mut Batch,
    names: &Names,
    shown: Shown,
    said: &[u8],
    items: &[Item],
) -> Result<(), Failed>
    ensures { Writes K.tells (K.at output.old) (K.at output.new) (batch.old.items
        ++ shown_text shown names.now (record { text = said.now; items = items.now }))
        batch.new.items result }
{
    add_front(output, batch, shown, said)?;
    add_items(output, batch, names, items)
}

/// Keeps what is shown of a line with this text and these items, or stops with `WriteFailed`. It
/// takes no memory.
pub(crate) fn keep_line<K: Sink>(
    output: &mut K,
    kept: &mut Batch,
    names: &Names,
    shown: Shown,
    said: &[u8],
    items: &[Item],
) -> Turned
    ensures does { (left : List Answer → Output) → DoesKept K.tells (K.at output.old)
        (K.at output.new) kept.old.items kept.new.items (λ more. behind (shown_text shown names.now
        (record { text = said.now; items = items.now })) (left more)) result left }
    ensures memory { result ≢ Turned.Stop OutOfMemory }
{
    match add_line(output, kept, names, shown, said, items) {
        Ok(()) => Turned::On,
        Err(_) => Turned::Stop(Status::WriteFailed),
    }
}

/// Writes all that is kept and what is shown of a line, where memory ran out at it.
pub(crate) fn finish_line<K: Sink>(
    output: &mut K,
    kept: &mut Batch,
    names: &Names,
    shown: Shown,
    said: &[u8],
    items: &[Item],
) -> Status
    ensures ends { (o : Output) → CommandEnds K.tells (K.at output.old) (K.at output.new) result
        (behind kept.old.items (behind (shown_text shown names.now
        (record { text = said.now; items = items.now })) o)) }
    ensures whole { result ≡ OutOfMemory → IsTrue K.tells → (K.at output.new).written
        ≡ (K.at output.old).written ++ (kept.old.items
        ++ shown_text shown names.now (record { text = said.now; items = items.now })) }
{
    match add_line(output, kept, names, shown, said, items) {
        Ok(()) => finish_wanted(output, kept),
        Err(_) => Status::WriteFailed,
    }
}

/// Writes what is shown of a line, as one batch where it has room.
fn put_batch<K: Sink>(
    output: &mut K,
    names: &Names,
    shown: Shown,
    said: &[u8],
    items: &[Item],
) -> Result<(), Failed>
    ensures { Writes K.tells (K.at output.old) (K.at output.new) (shown_text shown names.now
        (record { text = said.now; items = items.now })) [] result }
{
    let mut batch = Batch::new();
    add_front(output, &mut batch, shown, said)?;
    add_items(output, &mut batch, names, items)?;
    put_all(output, batch.as_slice())
}

/// Writes what is shown of a line with this text and these items, or stops with `WriteFailed`. It
/// takes no memory.
pub fn put_line<K: Sink>(
    output: &mut K,
    names: &Names,
    shown: Shown,
    said: &[u8],
    items: &[Item],
) -> Turned
    ensures does { (left : List Answer → Output) → DoesPart K.tells (K.at output.old)
        (K.at output.new) (λ more. behind (shown_text shown names.now
        (record { text = said.now; items = items.now })) (left more)) result left }
    ensures whole { result ≡ Turned.On → IsTrue K.tells → (K.at output.new).written
        ≡ (K.at output.old).written
        ++ shown_text shown names.now (record { text = said.now; items = items.now }) }
    ensures memory { result ≢ Turned.Stop OutOfMemory }
{
    match put_batch(output, names, shown, said, items) {
        Ok(()) => Turned::On,
        Err(_) => Turned::Stop(Status::WriteFailed),
    }
}
