//! What a part of a command says of how it ended.

ghost use Rattle.std.specs.Prelude.{◌≡◌, ◌≢◌, List};
ghost use Rattle.sx_io.specs.Reading.{Answer};
ghost use Rattle.command_promise.specs.declared.status.Status.TheVariants.{WriteFailed, OutOfMemory};
ghost use Rattle.command_promise.specs.Told.{Output, CommandEnds, behind};
ghost use Rattle.command_promise.specs.Parts.{DoesPart};

use crate::status::Status;
use sx_io::{Sink, put_all};

/// Whether a command goes on after one of its parts, or stops with an exit status.
#[derive(Clone, Copy, Debug, PartialEq, Eq)]
pub enum Turned {
    /// It goes on.
    On,
    /// It stops with this exit status.
    Stop(Status),
}

/// Writes a command's last text, and ends it with this status, or with `WriteFailed`.
pub fn finish<K: Sink>(output: &mut K, text: &[u8], status: Status) -> Status
    requires { status ≡ WriteFailed → ⊥ }
    ensures ends { CommandEnds K.tells (K.at output.old) (K.at output.new) result
        (record { text = text.now; status = status }) }
    ensures status { (result ≡ WriteFailed → ⊥) → result ≡ status }
{
    match put_all(output, text) {
        Ok(()) => status,
        Err(_) => Status::WriteFailed,
    }
}

/// Writes a text of a command that goes on, or stops it with `WriteFailed`.
pub fn put_text<K: Sink>(output: &mut K, text: &[u8]) -> Turned
    ensures does { (left : List Answer → Output)
        → DoesPart K.tells (K.at output.old) (K.at output.new)
        (λ more. behind text.now (left more)) result left }
    ensures memory { result ≢ Turned.Stop OutOfMemory }
{
    match put_all(output, text) {
        Ok(()) => Turned::On,
        Err(_) => Turned::Stop(Status::WriteFailed),
    }
}
