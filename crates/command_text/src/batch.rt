//! Text that is kept, to be written together.

ghost use Rattle.std.specs.Prelude.{◌≡◌, ◌+◌, ◌≤◌, ◌++◌, IsTrue, OnOk, length};
ghost use Rattle.command_promise.specs.declared.status.Status.TheVariants.{OutOfMemory};
ghost use Rattle.command_promise.specs.Told.{CommandEnds, Output, behind};
ghost use Rattle.command_text.specs.Batch.{Writes};
ghost use Rattle.command_text.specs.Keeping.{Puts};

use arrayvec::ArrayVec;
use command_promise::Status;
use sx_io::{Failed, Sink, put_all};

/// The most bytes that are written together.
pub const MOST: usize = 8192;

/// The most bytes of a line: 128 of an item or of a schedule's line, `> ` before it and a newline.
pub const LONGEST_LINE: usize = 131;

/// Text that is kept, to be written together.
pub type Batch = ArrayVec<u8, MOST>;

/// Writes a batch that a further line might not fit in.
pub fn make_room<K: Sink>(output: &mut K, batch: &mut Batch) -> Result<(), Failed>
    ensures room { OnOk result (length batch.new.items + LONGEST_LINE ≤ MOST) }
    ensures writes { Writes K.tells (K.at output.old) (K.at output.new) batch.old.items
        batch.new.items result }
{
    if batch.len() <= MOST - LONGEST_LINE {
        return Ok(());
    }
    put_all(output, batch.as_slice())?;
    batch.clear();
    Ok(())
}

/// Writes all that is kept.
pub fn put_kept<K: Sink>(output: &mut K, kept: &Batch) -> Result<(), Failed>
    ensures { Puts K.tells (K.at output.old) (K.at output.new) kept.now.items result }
{
    put_all(output, kept.as_slice())
}

/// Writes all that is kept, where memory ran out.
pub fn finish_wanted<K: Sink>(output: &mut K, kept: &Batch) -> Status
    ensures ends { (o : Output) → CommandEnds K.tells (K.at output.old) (K.at output.new) result
        (behind kept.now.items o) }
    ensures made { result ≡ OutOfMemory → IsTrue K.tells
        → (K.at output.new).written ≡ (K.at output.old).written ++ kept.now.items }
{
    match put_kept(output, kept) {
        Ok(()) => Status::OutOfMemory,
        Err(_) => Status::WriteFailed,
    }
}
