//! The program, in the process that runs it: it hands the command line's words, standard input and
//! standard output to `top`, and ends with the number of its status.
//!
//! No clause says that the words are those of the command line, nor that the two streams are those
//! of the process.

ghost use Rattle.std.specs.Prelude.{◌≡◌, map, string_bytes};
ghost use Rattle.std.specs.Process.{exit_status};
ghost use Rattle.command_promise.specs.declared.status.Status.{Status};
ghost use Rattle.command_promise.specs.Status.{status_number};
ghost use Rattle.command_promise.specs.Told.{command_at};
ghost use Rattle.sx_tag.specs.Mac.{hmac_sha256};
ghost use Rattle.sx_top.specs.Promise.{ProgramPromise};

use crate::command::top;
use command_promise::Status;
use std::alloc::Global;
use std::process::ExitCode;
use std::{env, io};
use sx_io::{Sink, Source, StdSink, StdSource};

/// The words of the command line after the program's name.
fn words(rt: &HostRuntime) -> io::Result<Vec<String>> {
    let mut words = Vec::new(rt.alloc());
    for word in env::args(rt)?.skip(1) {
        words.push(word)?;
    }
    Ok(words)
}

/// Does what the words say, over these streams, and gives the exit status. It is apart from
/// `run_process` to have a contract: of the streams of the process itself nothing is known.
pub fn run_over_streams<S: Source, K: Sink>(
    alloc: Global,
    words: &[String],
    input: &mut S,
    output: &mut K,
) -> ExitCode
    ensures told { (status : Status) × (exit_status result ≡ status_number status)
        × ProgramPromise hmac_sha256 (map string_bytes words.now) S.tells K.tells
        (command_at (S.at input.old) (K.at output.old))
        (command_at (S.at input.new) (K.at output.new)) status }
{
    ExitCode::from(top(alloc, words, input, output).number())
}

/// Runs the command that the words name, over the standard streams, and gives the exit status.
pub fn run_process(rt: HostRuntime) -> ExitCode {
    let words = match words(&rt) {
        Ok(words) => words,
        Err(error) if error.kind() == io::ErrorKind::OutOfMemory => {
            return ExitCode::from(Status::OutOfMemory.number());
        }
        // A word that isn't text is no command's.
        Err(_) => Vec::new(rt.alloc()),
    };
    let mut input = StdSource::new(rt.stdin());
    let mut output = StdSink::new(rt.stdout());
    run_over_streams(rt.alloc(), &words, &mut input, &mut output)
}
