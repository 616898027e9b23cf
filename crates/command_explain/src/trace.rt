//! The lines of a trace. Each is judged, and what is said of it is written before more of the input
//! is read.

ghost use Rattle.std.specs.Prelude.{◌≡◌, ◌≢◌, ◌+◌, ◌<◌, ◌≤◌, ◌++◌, ◌||◌, [], IsTrue, List, OnOk, length};
ghost use Rattle.std.specs.Prelude.{IfSome, None, Some, true, false, is_some};
ghost use Rattle.sx_io.specs.Next.{GivesHeld};
ghost use Rattle.command_promise.specs.declared.status.Status.TheVariants.{OutOfMemory};
ghost use Rattle.command_promise.specs.Told.{command_at};
ghost use Rattle.command_promise.specs.Parts.{Rest};
ghost use Rattle.sx_trace.specs.declared.items.Item.{Item as Listed};
ghost use Rattle.sx_trace.specs.ValidNames.{are_valid};
ghost use Rattle.sx_mean.specs.Validity.{is_valid};
ghost use Rattle.sx_mean.specs.View.{app_as};
ghost use Rattle.sx_model.specs.Memory.{may_take_memory};
ghost use Rattle.sx_explain.specs.Followed.{Follows};
ghost use Rattle.command_explain.specs.Output.{explain_from, stop_output};
ghost use Rattle.command_explain.specs.Meant.{AreMeanings, Meanings};
ghost use Rattle.command_explain.specs.Trace.{stop_behind, trace_lines};
ghost use Rattle.command_text.specs.Keeping.{ComesNext};
ghost use Rattle.command_explain.specs.Turns.{JudgesFrom, TraceWants};

use crate::lines::{MOST_LINES, TraceLine, TraceRule, judge_line, rule_behind};
use crate::text::{LONGEST_LINE, break_kept, break_off, finish_legal, has_room, keep_said};
use command_promise::{Status, Turned, finish};
use command_text::batch::{Batch, MOST, finish_wanted, put_kept};
use std::alloc::Global;
use sx_deploy::deployment::Deployment;
use sx_explain::judge::Judge;
use sx_io::{Failed, LineRead, Lines, Sink, Source};
use sx_mean::apps::App;
use sx_trace::items::Item;

/// The next line of a trace, where it is held and there is room for what is said of it.
fn next_held(lines: &mut Lines, kept: &Batch, into: &mut [u8; 4096]) -> Option<usize>
    ensures held { IfSome result (λ n. GivesHeld lines.old lines.new into.new (Some n)) }
    ensures room { IfSome result (λ n. length kept.now.items + LONGEST_LINE ≤ MOST) }
    ensures none { result ≡ None → lines.new ≡ lines.old }
{
    if !has_room(kept) {
        return None;
    }
    lines.next_held(into)
}

/// The next line of a trace. All that is kept is written before the source is asked for it, so
/// nothing is kept while the source waits.
fn next_line<S: Source, K: Sink>(
    lines: &mut Lines,
    input: &mut S,
    output: &mut K,
    kept: &mut Batch,
    into: &mut [u8; 4096],
) -> Result<LineRead, Failed>
    ensures comes { ComesNext S.tells K.tells (command_at (S.at input.old) (K.at output.old))
        (command_at (S.at input.new) (K.at output.new)) kept.old.items kept.new.items lines.old
        lines.new into.new result }
    ensures room { OnOk result (length kept.new.items + LONGEST_LINE ≤ MOST) }
{
    match next_held(lines, kept, into) {
        Some(count) => Ok(LineRead::Text(count)),
        None => {
            put_kept(output, kept)?;
            kept.clear();
            Ok(lines.next(input, into))
        }
    }
}

/// Judges an item with this number, and keeps what is said of it. Memory runs out only where no
/// item was forged before, and the item may take memory or comes next after an event; what was
/// kept of the items before is written then.
fn turn<K: Sink>(
    output: &mut K,
    kept: &mut Batch,
    judge: &mut Judge,
    app: &App,
    item: &Item,
    number: u32,
) -> Turned
    requires valid { is_valid (app_as app.now) ≡ true }
    requires few { judge.old.taken < MOST_LINES }
    requires room { length kept.old.items + LONGEST_LINE ≤ MOST }
    ensures judges { JudgesFrom K.tells (K.at output.old) (K.at output.new) kept.old.items
        kept.new.items (app_as app.now) judge.old judge.new number item.now result }
    ensures memory { result ≡ Turned.Stop OutOfMemory → judge.old.has_forged ≡ false }
    ensures wants { result ≡ Turned.Stop OutOfMemory
        → (may_take_memory item.now || is_some judge.old.behind) ≡ true }
    ensures made { result ≡ Turned.Stop OutOfMemory → IsTrue K.tells
        → (K.at output.new).written ≡ (K.at output.old).written ++ kept.old.items }
{
    match judge.item(app, item) {
        Ok(said) => keep_said(output, kept, number, said),
        Err(_) => Turned::Stop(finish_wanted(output, kept)),
    }
}

/// What follows the last line of a trace, from the line of this number on: nothing.
fn explain_end<S: Source, K: Sink>(
    lines: &mut Lines,
    input: &mut S,
    output: &mut K,
    deployment: &Deployment,
    judge: &Judge,
    number: u32,
) -> Status
    requires names { IsTrue (are_valid deployment.now.names) }
    ensures rest { (means : Meanings) (items : List Listed) → AreMeanings means
        → Follows (app_as deployment.now.app) items judge.now
        → Rest S.tells K.tells trace_lines lines.old
        (command_at (S.at input.old) (K.at output.old))
        (command_at (S.at input.new) (K.at output.new)) result
        (λ more. stop_output items (stop_behind (means.item deployment.now.names) number more)) }
    ensures memory { result ≢ OutOfMemory }
{
    let mut into = [0; 4096];
    match lines.next(input, &mut into) {
        LineRead::End => finish_legal(output, judge),
        LineRead::TooLong => break_off(output, TraceRule::NoItem, number),
        LineRead::Failed => finish(output, b"fault read\n", Status::ReadFailed),
        LineRead::Text(n) => break_off(output, rule_behind(&deployment.names, &into[..n]), number),
    }
}

/// Judges the lines of a trace.
fn explain_lines<S: Source, K: Sink>(
    lines: &mut Lines,
    input: &mut S,
    output: &mut K,
    deployment: &Deployment,
    judge: &mut Judge,
) -> Status
    requires valid { is_valid (app_as deployment.now.app) ≡ true }
    requires names { IsTrue (are_valid deployment.now.names) }
    requires follows { Follows (app_as deployment.now.app) [] judge.old }
    ensures rest { (means : Meanings) → AreMeanings means
        → Rest S.tells K.tells trace_lines lines.old
        (command_at (S.at input.old) (K.at output.old))
        (command_at (S.at input.new) (K.at output.new)) result
        (explain_from (app_as deployment.now.app) (means.item deployment.now.names) []) }
    ensures wanted { (means : Meanings) → AreMeanings means → result ≡ OutOfMemory
        → TraceWants (means.item deployment.now.names) S.tells (S.at input.old) (S.at input.new)
        lines.old lines.new }
{
    let mut into = [0; 4096];
    let mut kept = Batch::new();
    let mut number: u32 = 1;
    'lines: loop {
        match next_line(lines, input, output, &mut kept, &mut into) {
            Err(_) => return Status::WriteFailed,
            Ok(LineRead::End) => return break_off(output, TraceRule::NoEnd, number),
            Ok(LineRead::TooLong) => return break_off(output, TraceRule::NoItem, number),
            Ok(LineRead::Failed) => return finish(output, b"fault read\n", Status::ReadFailed),
            Ok(LineRead::Text(n)) => match judge_line(&deployment.names, &into[..n], number) {
                Err(rule) => return break_kept(output, &kept, rule, number),
                Ok(TraceLine::Last) => match put_kept(output, &kept) {
                    Err(_) => return Status::WriteFailed,
                    Ok(()) => return explain_end(
                        lines,
                        input,
                        output,
                        deployment,
                        judge,
                        number + 1,
                    ),
                },
                Ok(TraceLine::Item(item)) => {
                    match turn(output, &mut kept, judge, &deployment.app, &item, number) {
                        Turned::On => number += 1,
                        Turned::Stop(status) => return status,
                    }
                }
            },
        }
    }
}

/// Judges a trace of a deployment.
pub(crate) fn explain_trace<S: Source, K: Sink>(
    alloc: Global,
    lines: &mut Lines,
    input: &mut S,
    output: &mut K,
    deployment: &Deployment,
) -> Status
    requires valid { is_valid (app_as deployment.now.app) ≡ true }
    requires names { IsTrue (are_valid deployment.now.names) }
    ensures rest { (means : Meanings) → AreMeanings means
        → Rest S.tells K.tells trace_lines lines.old
        (command_at (S.at input.old) (K.at output.old))
        (command_at (S.at input.new) (K.at output.new)) result
        (explain_from (app_as deployment.now.app) (means.item deployment.now.names) []) }
    ensures wanted { (means : Meanings) → AreMeanings means → result ≡ OutOfMemory
        → TraceWants (means.item deployment.now.names) S.tells (S.at input.old) (S.at input.new)
        lines.old lines.new }
{
    match Judge::new(alloc, &deployment.app) {
        Ok(mut judge) => explain_lines(lines, input, output, deployment, &mut judge),
        Err(_) => Status::OutOfMemory,
    }
}
