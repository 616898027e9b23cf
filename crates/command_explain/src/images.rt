//! The lines before a trace. Those of images are passed, whatever they say.

ghost use Rattle.std.specs.Prelude.{◌≡◌, ◌≤◌, IsTrue, length, true};
ghost use Rattle.command_promise.specs.declared.status.Status.TheVariants.{OutOfMemory};
ghost use Rattle.command_promise.specs.Told.{command_at};
ghost use Rattle.command_promise.specs.Parts.{Rest};
ghost use Rattle.sx_trace.specs.ValidNames.{are_valid};
ghost use Rattle.sx_deploy.specs.SeenDeployment.{deployed_as};
ghost use Rattle.sx_mean.specs.Validity.{is_valid};
ghost use Rattle.sx_mean.specs.View.{app_as};
ghost use Rattle.command_head.specs.Given.{RanOutSince};
ghost use Rattle.command_explain.specs.Output.{explain_deployed};
ghost use Rattle.command_explain.specs.Meant.{AreMeanings, Meanings};
ghost use Rattle.command_explain.specs.Trace.{image_lines, trace_lines};
ghost use Rattle.command_explain.specs.Turns.{front_line};
ghost use Rattle.command_explain.specs.Wants.{explain_may};

use crate::lines::TraceRule;
use crate::text::break_off;
use crate::trace::explain_trace;
use command_promise::{Status, finish};
use std::alloc::Global;
use sx_deploy::deployment::Deployment;
use sx_io::{Lines, PassRead, Sink, Source};

/// What a line before a trace is.
#[derive(Clone, Copy)]
pub enum ImageLine {
    /// The line `trace`.
    Trace,
    /// The line of an image, of which there aren't too many.
    Image,
    /// Another line, or one image too many.
    Other,
}

/// At most this many lines of images come before a trace: a deployment has no more modules.
const MOST_IMAGES: u32 = 32;

/// What the line of this number is, by its first bytes and how many it has.
pub fn front_line(number: u32, front: &[u8; 8], count: u32) -> ImageLine
    ensures line { result ≡ front_line number front.now count }
    ensures few { result ≡ ImageLine.Image → number ≤ MOST_IMAGES }
    ensures room { length front.now ≡ 8 }
{
    if count == 5 && &front[..5] == b"trace".as_slice() {
        ImageLine::Trace
    } else if number <= MOST_IMAGES && (count >= 6 && &front[..6] == b"image ".as_slice()) {
        ImageLine::Image
    } else {
        ImageLine::Other
    }
}

/// Passes the lines of images, and judges the trace after them.
pub(crate) fn explain_images<S: Source, K: Sink>(
    alloc: Global,
    lines: &mut Lines,
    input: &mut S,
    output: &mut K,
    deployment: &Deployment,
) -> Status
    requires valid { is_valid (app_as deployment.now.app) ≡ true }
    requires names { IsTrue (are_valid deployment.now.names) }
    ensures rest { (means : Meanings) → AreMeanings means
        → Rest S.tells K.tells image_lines lines.old
        (command_at (S.at input.old) (K.at output.old))
        (command_at (S.at input.new) (K.at output.new)) result
        (explain_deployed means (deployed_as deployment.now)) }
    ensures wanted { (means : Meanings) → AreMeanings means → result ≡ OutOfMemory
        → RanOutSince image_lines trace_lines (explain_may means (deployed_as deployment.now))
        S.tells (S.at input.old) (S.at input.new) lines.old lines.new }
{
    let mut front = [0; 8];
    let mut number: u32 = 1;
    'lines: loop {
        match lines.pass(input, &mut front) {
            PassRead::End => return break_off(output, TraceRule::NoTrace, number),
            PassRead::TooLong => return break_off(output, TraceRule::NoTrace, number),
            PassRead::Failed => return finish(output, b"fault read\n", Status::ReadFailed),
            PassRead::Text(count) => match front_line(number, &front, count) {
                ImageLine::Image => number += 1,
                ImageLine::Trace => return explain_trace(alloc, lines, input, output, deployment),
                ImageLine::Other => return break_off(output, TraceRule::NoTrace, number),
            },
        }
    }
}
