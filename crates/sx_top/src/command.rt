//! The call that does all that the program does.

ghost use Rattle.std.specs.Prelude.{◌≡◌, map, string_bytes};
ghost use Rattle.command_promise.specs.Told.{command_at};
ghost use Rattle.sx_tag.specs.Mac.{hmac_sha256};
ghost use Rattle.sx_top.specs.Commands.{command_of};
ghost use Rattle.sx_top.specs.Promise.{ProgramPromise};
ghost use Rattle.sx_top.specs.Chosen.{LeavesInput};

use crate::words::{Command, command_of};
use command_asm::{asm_over, dis_over};
use command_batch::batch_over;
use command_check::check_over;
use command_describe::describe_over;
use command_drive::drive_over;
use command_explain::explain_over;
use command_gen::gen_over;
use command_holds::holds_over;
use command_promise::{Status, finish};
use command_run::{lines_over, run_over};
use command_snap::snap_over;
use command_watch::watch_over;
use std::alloc::Global;
use sx_io::{Sink, Source};
use sx_tag::Hmac;

/// Does all that the program does, and gives its exit status. `words` are those of the command line
/// after the program's name.
///
/// The commands are `run`, `check`, `explain`, `watch`, `drive`, `snap`, `holds`, `gen N` for 1 to
/// 8,000 samples, `asm A` and `dis A` with an address A, `lines`, `describe` and `batch`. All but
/// `gen`, `asm` and `dis` read a deployment and the line `%%` after it. `check` writes where each
/// module is, and `end`. `run` writes each module's image, `trace`, the items of the schedule that
/// follows, one a line, and `end`; a line's items are written before the next line is read.
/// `explain` reads such an output after the deployment, and writes which item caused which, how
/// many are legal, and `end`. `watch` reads a property, a second line `%%` and such an output, and
/// writes which item is the first that breaks the property, or how many were watched if none
/// does, and `end`. `drive` reads readings, each a sensor and its value: it writes the images, the
/// honest run with each line of its schedule after `> ` and the items that the line shows, how many
/// steps of nodes it took, and `end`; what a reading shows is written before the next line is read.
/// `snap` reads a schedule, a second line `%%` and queries: it writes the images, the answers about
/// the run after any of its lines, and `end`. `holds` reads a property and a second
/// line `%%`: it writes `holds` and `end` only if no run breaks the property before its first
/// forged item, and else where it gave up. `gen` reads nothing: it writes the images of a stated
/// deployment and what it counted in the run of a stated schedule that carries this many samples,
/// and `end`. `asm` reads a text of assembly, and `dis` bytes in hexadecimal; both write the
/// listing of the code at the address, and `end`. `lines` reads what `run` reads, and writes each
/// line of the schedule after `> ` and the items that the line gave, before the next is read, and
/// `end`. `describe` writes what the deployment was read as, a line for each thing in it, and
/// `end`. `batch` reads common lines, which write nothing, and after each further line `%%` a
/// schedule: it writes the items of each, run from the world after the common lines, and `end`.
///
/// | Status | Last line | When |
/// |---|---|---|
/// | 0 | `end` | all was written; only `check`, `describe` and `gen` don't read to the end |
/// | 1 | `fault deployment Dk place` | the deployment breaks rule Dk, the first that it breaks |
/// | 2 | `fault usage` | the words are no command; nothing was read |
/// | 3 | `fault schedule Sk line` | this line, from 1, is the first to break a rule, Sk the rule |
/// | 3 | `fault trace Ek line` | this line, from 1, is the first to break a rule, Ek the rule |
/// | 3 | `fault reading Qk line` | this line, from 1, is the first to break a rule, Qk the rule |
/// | 4 | `fault read` | a read failed |
/// | 5 | none | a write failed: what was written is a prefix of what is defined |
/// | 6 | none | memory ran out: what was written is a prefix of what is defined |
/// | 7 | `fault property Pk place` | the property breaks rule Pk, the first that it breaks |
/// | 8 | `illegal N` | item N of a trace isn't allowed by the sources after those before it |
/// | 9 | `fault drive long` | the honest run needs more lines than a schedule may have, 65,536 |
/// | 9 | `fault batch long` | there are more than 65,536 schedules |
/// | 10 | `fault asm Ak line`, `fault hex Bk line` | rule Ak or Bk is broken; `-` is no line |
/// | 11 | `fault query Yk line` | this line after the second `%%` is the first to break a rule |
/// | 12 | `broken N` | item N of a trace is the first that breaks the property |
/// | 13 | `unknown ..` | nothing was shown of the property |
///
/// Every line, a fault's too, goes to `output` and ends with a newline.
#[tactic(auto, unfolding(command_text::specs::Refusals::usage_line))]
pub fn top<S: Source, K: Sink>(
    alloc: Global,
    words: &[String],
    input: &mut S,
    output: &mut K,
) -> Status
    // What is written, and the status, are what is defined for the words and for the bytes that
    // were taken, and no more was taken than must be.
    ensures told { ProgramPromise hmac_sha256 (map string_bytes words.now) S.tells K.tells
        (command_at (S.at input.old) (K.at output.old))
        (command_at (S.at input.new) (K.at output.new)) result }
    // `gen`, and words that are no command, read nothing.
    ensures unread { LeavesInput (command_of (map string_bytes words.now))
        → input.new ≡ input.old }
{
    match command_of(words) {
        Some(Command::Run) => run_over(alloc, Hmac::new(), input, output),
        Some(Command::Check) => check_over(alloc, input, output),
        Some(Command::Explain) => explain_over(alloc, input, output),
        Some(Command::Watch) => watch_over(alloc, input, output),
        Some(Command::Drive) => drive_over(alloc, Hmac::new(), input, output),
        Some(Command::Snap) => snap_over(alloc, Hmac::new(), input, output),
        Some(Command::Holds) => holds_over(alloc, input, output),
        Some(Command::Gen(samples)) => gen_over(alloc, Hmac::new(), samples, output),
        Some(Command::Asm(at)) => asm_over(alloc, at, input, output),
        Some(Command::Dis(at)) => dis_over(at, input, output),
        Some(Command::Lines) => lines_over(alloc, Hmac::new(), input, output),
        Some(Command::Describe) => describe_over(alloc, input, output),
        Some(Command::Batch) => batch_over(alloc, Hmac::new(), input, output),
        None => finish(output, b"fault usage\n", Status::Misused),
    }
}
