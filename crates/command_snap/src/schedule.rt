//! The schedule: its lines are judged and kept to its end, and nothing is written before, so that a
//! schedule that breaks a rule is reported alone.

ghost use Rattle.std.specs.Prelude.{◌≡◌, ◌≢◌, ℕ, ◌+◌, ◌≤◌, [], Err, IsTrue, OnOk, length};
ghost use Rattle.sx_asm.specs.Assembled.{assembled};
ghost use Rattle.command_promise.specs.declared.status.Status.TheVariants.{OutOfMemory};
ghost use Rattle.command_promise.specs.Told.{CommandEnds, behind, command_at};
ghost use Rattle.command_promise.specs.Parts.{Rest};
ghost use Rattle.command_promise.specs.Head.{head_lines};
ghost use Rattle.sx_trace.specs.ValidNames.{are_valid};
ghost use Rattle.sx_deploy.specs.SeenDeployment.{deployed_as};
ghost use Rattle.spec_run.specs.Accepted.{setting};
ghost use Rattle.sx_image.specs.InMemory.{texts_of};
ghost use Rattle.sx_snap.specs.Checkpoints.{IsTimeline};
ghost use Rattle.command_head.specs.Given.{RanOutSince};
ghost use Rattle.command_world.specs.Images.{images_text};
ghost use Rattle.command_world.specs.Schedule.{judged_line};
ghost use Rattle.command_world.specs.Turning.{MayRunOut};
ghost use Rattle.command_snap.specs.Kept.{KeepsLine, QueriesWant};
ghost use Rattle.command_snap.specs.Output.{answers_from, ended_output, snap_from};
ghost use Rattle.command_snap.specs.Wants.{snap_may};

use crate::querying::answer_queries;
use command_promise::{Status, Turned, finish, is_mark, put_text};
use command_world::images::image_lines;
use command_world::judging::{TOO_LONG, break_off, judge_line};
use std::alloc::Global;
use sx_bus::Copied;
use sx_deploy::deployment::Deployment;
use sx_image::Image;
use sx_io::{LineRead, Lines, Sink, Source};
use sx_sched::lines::LineError;
use sx_snap::Timeline;
use sx_tag::Tag;

/// Keeps the line with this number of the schedule. The error is the rule that it breaks, or says
/// that memory ran out.
fn keep<B: Copied, T: Tag>(
    alloc: Global,
    deployment: &Deployment,
    timeline: &mut Timeline<B, T>,
    said: &[u8],
    number: u32,
) -> Result<(), LineError>
    requires names { IsTrue (are_valid (deployed_as deployment.now).names) }
    requires timeline { IsTimeline T.mac (deployed_as deployment.now) timeline.old }
    requires counted { length timeline.old.lines + 1 ≡ number }
    ensures timeline { IsTimeline T.mac (deployed_as deployment.now) timeline.new }
    ensures sites { timeline.new.sites ≡ timeline.old.sites }
    ensures keeps { OnOk result (KeepsLine (deployed_as deployment.now).names said.now
        timeline.old.lines timeline.new.lines) }
    ensures few { OnOk result (number ≤ 65536) }
    ensures rule { (rule : ℕ) → result ≡ Err (LineError.Fault rule)
        → judged_line assembled (deployed_as deployment.now).names number said.now ≡ Err rule }
    ensures memory { result ≡ Err LineError.OutOfMemory
        → MayRunOut (judged_line assembled (deployed_as deployment.now).names number said.now) }
{
    let line = judge_line(alloc, &deployment.names, said, number)?;
    match timeline.push(deployment, line) {
        Ok(()) => Ok(()),
        Err(_) => Err(LineError::OutOfMemory),
    }
}

/// The images and `end`, if no queries came. It takes no memory.
fn answer_none<K: Sink>(output: &mut K, images: &[u8]) -> Status
    ensures ends { CommandEnds K.tells (K.at output.old) (K.at output.new) result
        (behind images.now ended_output) }
    ensures memory { result ≢ OutOfMemory }
{
    match put_text(output, images) {
        Turned::Stop(status) => status,
        Turned::On => finish(output, b"end\n", Status::Done),
    }
}

/// The images, and the answers to the queries after the mark.
fn answer_all<S: Source, K: Sink, B: Copied, T: Tag>(
    alloc: Global,
    lines: &mut Lines,
    input: &mut S,
    output: &mut K,
    deployment: &Deployment,
    images: &[u8],
    timeline: &Timeline<B, T>,
) -> Status
    requires names { IsTrue (are_valid (deployed_as deployment.now).names) }
    requires timeline { IsTimeline T.mac (deployed_as deployment.now) timeline.now }
    ensures rest { Rest S.tells K.tells head_lines lines.old
        (command_at (S.at input.old) (K.at output.old))
        (command_at (S.at input.new) (K.at output.new)) result
        (λ more. behind images.now (answers_from (deployed_as deployment.now).names
        (setting T.mac (deployed_as deployment.now) timeline.now.sites) timeline.now.lines 1
        more)) }
    ensures wanted { result ≡ OutOfMemory → QueriesWant (deployed_as deployment.now).names
        (length timeline.now.lines) S.tells (S.at input.old) (S.at input.new)
        lines.old lines.new }
{
    match put_text(output, images) {
        Turned::Stop(status) => status,
        Turned::On => answer_queries(alloc, lines, input, output, deployment, timeline),
    }
}

/// Reads the schedule to its end, and answers the queries after its mark. These are the lines of
/// the images.
fn snap_lines<S: Source, K: Sink, B: Copied, T: Tag>(
    alloc: Global,
    lines: &mut Lines,
    input: &mut S,
    output: &mut K,
    deployment: &Deployment,
    images: &[u8],
    timeline: &mut Timeline<B, T>,
) -> Status
    requires names { IsTrue (are_valid (deployed_as deployment.now).names) }
    requires timeline { IsTimeline T.mac (deployed_as deployment.now) timeline.old }
    requires none { timeline.old.lines ≡ [] }
    ensures rest { Rest S.tells K.tells head_lines lines.old
        (command_at (S.at input.old) (K.at output.old))
        (command_at (S.at input.new) (K.at output.new)) result
        (snap_from (deployed_as deployment.now).names
        (setting T.mac (deployed_as deployment.now) timeline.old.sites) images.now []) }
    ensures wanted { result ≡ OutOfMemory → RanOutSince head_lines head_lines
        (snap_may (deployed_as deployment.now)) S.tells (S.at input.old) (S.at input.new)
        lines.old lines.new }
{
    let mut into = [0; 4096];
    let mut number: u32 = 1;
    'lines: loop {
        match lines.next(input, &mut into) {
            LineRead::End => return answer_none(output, images),
            LineRead::TooLong => return break_off(output, TOO_LONG, number),
            LineRead::Failed => return finish(output, b"fault read\n", Status::ReadFailed),
            LineRead::Text(n) => {
                let said = &into[..n];
                if is_mark(said) {
                    return answer_all(alloc, lines, input, output, deployment, images, timeline);
                }
                match keep(alloc, deployment, timeline, said, number) {
                    Ok(()) => number += 1,
                    Err(LineError::Fault(rule)) => return break_off(output, rule, number),
                    Err(LineError::OutOfMemory) => return Status::OutOfMemory,
                }
            }
        }
    }
}

/// Makes the lines of the images before it reads the schedule, so that no memory is wanted for them
/// after it.
pub(crate) fn snap_built<S: Source, K: Sink, B: Copied, T: Tag>(
    alloc: Global,
    lines: &mut Lines,
    input: &mut S,
    output: &mut K,
    deployment: &Deployment,
    images: &[Image],
    timeline: &mut Timeline<B, T>,
) -> Status
    requires names { IsTrue (are_valid (deployed_as deployment.now).names) }
    requires timeline { IsTimeline T.mac (deployed_as deployment.now) timeline.old }
    requires none { timeline.old.lines ≡ [] }
    ensures rest { Rest S.tells K.tells head_lines lines.old
        (command_at (S.at input.old) (K.at output.old))
        (command_at (S.at input.new) (K.at output.new)) result
        (snap_from (deployed_as deployment.now).names
        (setting T.mac (deployed_as deployment.now) timeline.old.sites)
        (images_text (deployed_as deployment.now).names.modules (texts_of images.now)) []) }
    ensures wanted { result ≡ OutOfMemory → RanOutSince head_lines head_lines
        (snap_may (deployed_as deployment.now)) S.tells (S.at input.old) (S.at input.new)
        lines.old lines.new }
{
    match image_lines(alloc, &deployment.names.modules, images) {
        Ok(text) => snap_lines(alloc, lines, input, output, deployment, &text, timeline),
        Err(_) => Status::OutOfMemory,
    }
}
