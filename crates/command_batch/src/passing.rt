//! The lines of a schedule after the one that breaks a rule, which are passed over.

ghost use Rattle.std.specs.Prelude.{◌≡◌, ◌≢◌, ℕ};
ghost use Rattle.command_promise.specs.declared.status.Status.TheVariants.{OutOfMemory};
ghost use Rattle.command_promise.specs.Told.{CommandEnds, command_at};
ghost use Rattle.sx_deploy.specs.Deployment.{Deployed};
ghost use Rattle.sx_trace.specs.Names.{NameLists};
ghost use Rattle.spec_run.specs.Setting.{Setting};
ghost use Rattle.spec_run.specs.State.{World};
ghost use Rattle.command_batch.specs.Output.{long_output};
ghost use Rattle.command_batch.specs.Parts.{EndsWanting, ReadsOn, next_from, passed_from};

use command_promise::{Status, Turned, finish, is_mark};
use command_world::judging::{TOO_LONG, break_off};
use sx_io::{LineRead, Lines, Sink, Source};

/// Ends the command where there are too many schedules, or one is too long. It takes no memory.
#[tactic(auto, unfolding(crate::specs::Output::long_line))]
pub(crate) fn end_long<K: Sink>(output: &mut K) -> Status
    ensures ends { CommandEnds K.tells (K.at output.old) (K.at output.new) result long_output }
    ensures memory { result ≢ OutOfMemory }
{
    finish(output, b"fault batch long\n", Status::TooLong)
}

/// Passes over the lines after the one with this number, up to the next mark.
pub(crate) fn pass_over<S: Source, K: Sink>(
    lines: &mut Lines,
    input: &mut S,
    output: &mut K,
    broken: u32,
) -> Turned
    ensures reads { (names : NameLists) (set : Setting) (start : World) (first count : ℕ)
        → ReadsOn S.tells K.tells lines.old lines.new
        (command_at (S.at input.old) (K.at output.old))
        (command_at (S.at input.new) (K.at output.new)) result
        (passed_from names set start first count broken)
        (next_from names set start first count) }
    ensures marked { result ≡ Turned.On → (d : Deployed)
        → EndsWanting d S.tells (S.at input.old) (S.at input.new) lines.old lines.new }
    ensures memory { result ≢ Turned.Stop OutOfMemory }
{
    let mut into = [0; 4096];
    let mut number = broken;
    'lines: while number < u32::MAX {
        number += 1;
        match lines.next(input, &mut into) {
            LineRead::End => return Turned::Stop(finish(output, b"", Status::Done)),
            LineRead::TooLong => return Turned::Stop(break_off(output, TOO_LONG, number)),
            LineRead::Failed => {
                return Turned::Stop(finish(output, b"fault read\n", Status::ReadFailed));
            }
            LineRead::Text(n) => {
                if is_mark(&into[..n]) {
                    return Turned::On;
                }
            }
        }
    }
    Turned::Stop(end_long(output))
}
