//! The lines before a trace. Those of images are passed, whatever they say.

ghost use Rattle.std.specs.Prelude.{◌≡◌, IsTrue};
ghost use Rattle.command_promise.specs.declared.status.Status.TheVariants.{OutOfMemory};
ghost use Rattle.command_promise.specs.Told.{command_at};
ghost use Rattle.command_promise.specs.Parts.{Rest};
ghost use Rattle.sx_trace.specs.ValidNames.{are_valid};
ghost use Rattle.sx_watch.specs.Watching.{property_as};
ghost use Rattle.command_explain.specs.Meant.{AreMeanings, Meanings};
ghost use Rattle.command_explain.specs.Trace.{image_lines, start};
ghost use Rattle.command_watch.specs.Output.{watch_start};

use crate::trace::watch_trace;
use command_explain::{ImageLine, TraceRule, break_off, front_line};
use command_promise::{Status, finish};
use std::alloc::Global;
use sx_io::{Lines, PassRead, Sink, Source};
use sx_trace::names::Names;
use sx_watch::property::Property;

/// Passes the lines of images, and follows the trace after them.
pub(crate) fn watch_images<S: Source, K: Sink>(
    alloc: Global,
    lines: &mut Lines,
    input: &mut S,
    output: &mut K,
    names: &Names,
    property: Property,
) -> Status
    requires names { IsTrue (are_valid names.now) }
    ensures rest { (means : Meanings) → AreMeanings means
        → Rest S.tells K.tells image_lines lines.old
        (command_at (S.at input.old) (K.at output.old))
        (command_at (S.at input.new) (K.at output.new)) result
        (λ more. watch_start (property_as property) (means.item names.now) (start 1 more)) }
    ensures starved { result ≡ OutOfMemory → K.at output.new ≡ K.at output.old }
{
    let mut front = [0; 8];
    let mut number: u32 = 1;
    'lines: loop {
        match lines.pass(input, &mut front) {
            PassRead::End => return break_off(output, TraceRule::NoTrace, number),
            PassRead::TooLong => return break_off(output, TraceRule::NoTrace, number),
            PassRead::Failed => return finish(output, b"fault read\n", Status::ReadFailed),
            PassRead::Text(count) => match front_line(number, &front, count) {
                ImageLine::Image => number += 1,
                ImageLine::Trace => {
                    return watch_trace(alloc, lines, input, output, names, property);
                }
                ImageLine::Other => return break_off(output, TraceRule::NoTrace, number),
            },
        }
    }
}
