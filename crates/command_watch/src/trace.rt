//! The lines of a trace. The property follows each item, and the command ends at the first that
//! breaks it.

ghost use Rattle.std.specs.Prelude.{◌≡◌, ◌≢◌, ◌+◌, ◌<◌, [], IsTrue, List, length};
ghost use Rattle.command_promise.specs.declared.status.Status.TheVariants.{OutOfMemory};
ghost use Rattle.command_promise.specs.Told.{command_at};
ghost use Rattle.command_promise.specs.Parts.{Rest};
ghost use Rattle.sx_trace.specs.declared.items.Item.{Item as Listed};
ghost use Rattle.sx_trace.specs.ValidNames.{are_valid};
ghost use Rattle.sx_watch.specs.Watched.{PropertyTree};
ghost use Rattle.sx_watch.specs.Watching.{property_as};
ghost use Rattle.command_explain.specs.Meant.{AreMeanings, Meanings};
ghost use Rattle.command_explain.specs.Trace.{stop_behind, trace_lines};
ghost use Rattle.command_watch.specs.Following.{Stands, TurnsFrom};
ghost use Rattle.command_watch.specs.Output.{stop_output, watch_from};

use crate::following::Following;
use crate::text::{finish_broken, finish_kept};
use command_explain::{MOST_LINES, TraceLine, TraceRule, break_off, judge_line, rule_behind};
use command_promise::{Status, Turned, finish};
use std::alloc::Global;
use sx_io::{LineRead, Lines, Sink, Source};
use sx_trace::items::Item;
use sx_trace::names::Names;
use sx_watch::property::Property;

/// Takes an item with this number. If it breaks the property, writes that and stops.
fn turn<K: Sink>(
    alloc: Global,
    output: &mut K,
    following: &mut Following,
    item: &Item,
    number: u32,
) -> Turned
    ensures turns { TurnsFrom K.tells (K.at output.old) (K.at output.new) following.old following.new
        number item.now result }
    ensures still { result ≡ Turned.On → K.at output.new ≡ K.at output.old }
    ensures starved { result ≡ Turned.Stop OutOfMemory → K.at output.new ≡ K.at output.old }
{
    match following.item(alloc, item, number) {
        Ok(false) => Turned::On,
        Ok(true) => Turned::Stop(finish_broken(output, number)),
        Err(_) => Turned::Stop(Status::OutOfMemory),
    }
}

/// What follows the last line of a trace of so many items: nothing.
fn watch_end<S: Source, K: Sink>(
    lines: &mut Lines,
    input: &mut S,
    output: &mut K,
    names: &Names,
    following: &Following,
    count: u32,
) -> Status
    requires names { IsTrue (are_valid names.now) }
    requires few { count < MOST_LINES }
    ensures rest { (means : Meanings) (p : PropertyTree) (items : List Listed) → AreMeanings means
        → Stands p items following.now → count ≡ length items
        → Rest S.tells K.tells trace_lines lines.old
        (command_at (S.at input.old) (K.at output.old))
        (command_at (S.at input.new) (K.at output.new)) result
        (λ more. stop_output items (stop_behind (means.item names.now) (count + 2) more)) }
    ensures memory { result ≢ OutOfMemory }
{
    let mut into = [0; 4096];
    let number = count + 2;
    match lines.next(input, &mut into) {
        LineRead::End => finish_kept(output, following, count),
        LineRead::TooLong => break_off(output, TraceRule::NoItem, number),
        LineRead::Failed => finish(output, b"fault read\n", Status::ReadFailed),
        LineRead::Text(n) => break_off(output, rule_behind(names, &into[..n]), number),
    }
}

/// Follows the lines of a trace.
fn watch_lines<S: Source, K: Sink>(
    alloc: Global,
    lines: &mut Lines,
    input: &mut S,
    output: &mut K,
    names: &Names,
    following: &mut Following,
) -> Status
    requires names { IsTrue (are_valid names.now) }
    ensures rest { (means : Meanings) (p : PropertyTree) → AreMeanings means
        → Stands p [] following.old
        → Rest S.tells K.tells trace_lines lines.old
        (command_at (S.at input.old) (K.at output.old))
        (command_at (S.at input.new) (K.at output.new)) result
        (watch_from p (means.item names.now) []) }
    ensures starved { result ≡ OutOfMemory → K.at output.new ≡ K.at output.old }
{
    let mut into = [0; 4096];
    let mut number: u32 = 1;
    'lines: loop {
        match lines.next(input, &mut into) {
            LineRead::End => return break_off(output, TraceRule::NoEnd, number),
            LineRead::TooLong => return break_off(output, TraceRule::NoItem, number),
            LineRead::Failed => return finish(output, b"fault read\n", Status::ReadFailed),
            LineRead::Text(n) => match judge_line(names, &into[..n], number) {
                Err(rule) => return break_off(output, rule, number),
                Ok(TraceLine::Last) => {
                    return watch_end(lines, input, output, names, following, number - 1);
                }
                Ok(TraceLine::Item(item)) => match turn(alloc, output, following, &item, number) {
                    Turned::On => number += 1,
                    Turned::Stop(status) => return status,
                },
            },
        }
    }
}

/// Follows a trace with a property.
pub(crate) fn watch_trace<S: Source, K: Sink>(
    alloc: Global,
    lines: &mut Lines,
    input: &mut S,
    output: &mut K,
    names: &Names,
    property: Property,
) -> Status
    requires names { IsTrue (are_valid names.now) }
    ensures rest { (means : Meanings) → AreMeanings means
        → Rest S.tells K.tells trace_lines lines.old
        (command_at (S.at input.old) (K.at output.old))
        (command_at (S.at input.new) (K.at output.new)) result
        (watch_from (property_as property) (means.item names.now) []) }
    ensures starved { result ≡ OutOfMemory → K.at output.new ≡ K.at output.old }
{
    match Following::new(alloc, property) {
        Ok(mut following) => watch_lines(alloc, lines, input, output, names, &mut following),
        Err(_) => Status::OutOfMemory,
    }
}
