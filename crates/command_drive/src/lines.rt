//! The lines of readings. Each is judged, and what its reading shows is written, before the next is
//! read.

ghost use Rattle.std.specs.Prelude.{◌≡◌, ◌≢◌, ◌+◌, ◌≤◌, [], false, IsTrue};
ghost use Rattle.command_promise.specs.declared.status.Status.TheVariants.{Done, OutOfMemory};
ghost use Rattle.command_promise.specs.Told.{CommandEnds, command_at};
ghost use Rattle.command_promise.specs.Parts.{Rest};
ghost use Rattle.command_promise.specs.Head.{head_lines};
ghost use Rattle.sx_trace.specs.ValidNames.{are_valid};
ghost use Rattle.sx_deploy.specs.SeenDeployment.{deployed_as};
ghost use Rattle.spec_run.specs.Setting.{Setting};
ghost use Rattle.sx_drive.specs.Driving.{Follows, GoesOn, LosesNothing, all_said};
ghost use Rattle.sx_drive.specs.Honest.{Honest as Driving, start};
ghost use Rattle.command_head.specs.Given.{RanOutSince};
ghost use Rattle.command_drive.specs.Output.{drive_readings, reading_fault, steps_text};
ghost use Rattle.command_drive.specs.Promise.{drive_may};
ghost use Rattle.command_drive.specs.Parts.{drive_from, TellsSaid, TurnsFrom};
ghost use Rattle.command_drive.specs.Input.{MayRunOut, judged_reading, rule_number};

use crate::parts::{read, set_up};
use crate::readings::{MOST_LINES, ReadingLine, ReadingRule, judge_reading};
use command_promise::{Status, Turned, finish};
use command_text::fault::finish_fault;
use command_text::text::{Text, put};
use itoa::Buffer;
use std::alloc::Global;
use sx_bus::Copied;
use sx_deploy::deployment::Deployment;
use sx_drive::honest::Honest;
use sx_drive::said::Said;
use sx_io::{LineRead, Lines, Sink, Source};
use sx_tag::Tag;

/// Writes which rule the line of this number breaks. It takes no memory.
fn break_reading<K: Sink>(output: &mut K, rule: ReadingRule, number: u32) -> Status
    ensures ends { CommandEnds K.tells (K.at output.old) (K.at output.new) result
        (reading_fault (rule_number rule) number) }
    ensures memory { result ≢ OutOfMemory }
{
    finish_fault(
        output,
        b"fault reading Q",
        rule.number(),
        number,
        Status::Broken,
    )
}

/// The last two lines: how many steps of nodes there were, and `end`.
#[tactic(auto, unfolding(crate::specs::Output::steps_text, command_text::specs::Output::end_line))]
fn steps_text(steps: u64) -> Text
    ensures { result.items ≡ steps_text steps }
{
    let mut digits = Buffer::new();
    let mut text = Text::new();
    put(&mut text, b"steps ");
    put(&mut text, digits.format(steps).as_bytes());
    put(&mut text, b"\nend\n");
    text
}

/// Ends the command after all readings.
fn end_run<K: Sink>(output: &mut K, steps: u64) -> Status
    ensures ends { CommandEnds K.tells (K.at output.old) (K.at output.new) result
        (record { text = steps_text steps; status = Done }) }
    ensures memory { result ≢ OutOfMemory }
{
    finish(output, steps_text(steps).as_slice(), Status::Done)
}

/// Does what a line says, and writes what it shows.
fn turn<K: Sink, B: Copied, T: Tag>(
    output: &mut K,
    deployment: &Deployment,
    honest: &mut Honest<B, T>,
    said: &mut Vec<Said>,
    text: &[u8],
    number: u32,
) -> Turned
    requires names { IsTrue (are_valid (deployed_as deployment.now).names) }
    requires going { GoesOn T.mac deployment.now honest.old }
    requires memory { honest.old.ran_out ≡ false }
    ensures turns { TurnsFrom T.mac deployment.now K.tells (K.at output.old) (K.at output.new)
        honest.old honest.new number text.now result }
    ensures goes_on { result ≡ Turned.On → GoesOn T.mac deployment.now honest.new }
    ensures memory { result ≡ Turned.On → honest.new.ran_out ≡ false }
    ensures certain { result ≡ Turned.Stop OutOfMemory
        → MayRunOut (judged_reading (deployed_as deployment.now) number text.now) }
    ensures made { TellsSaid K.tells (K.at output.old) (K.at output.new) deployment.now.names
        (all_said said.new.items) result }
    ensures lossless { LosesNothing honest.old.world honest.new.world []
        (all_said said.new.items) }
    ensures few { result ≡ Turned.On → number ≤ MOST_LINES }
{
    said.clear();
    match judge_reading(deployment, number, text) {
        Ok(ReadingLine::Blank) => Turned::On,
        Ok(ReadingLine::Reading { device, value }) => {
            read(output, deployment, honest, device, value, said)
        }
        Err(rule) => Turned::Stop(break_reading(output, rule, number)),
    }
}

/// Does the readings, in a run that was set up.
fn read_lines<S: Source, K: Sink, B: Copied, T: Tag>(
    lines: &mut Lines,
    input: &mut S,
    output: &mut K,
    deployment: &Deployment,
    honest: &mut Honest<B, T>,
    said: &mut Vec<Said>,
) -> Status
    requires names { IsTrue (are_valid (deployed_as deployment.now).names) }
    requires going { GoesOn T.mac deployment.now honest.old }
    requires memory { honest.old.ran_out ≡ false }
    ensures rest { (set : Setting) (h : Driving) → Follows T.mac deployment.now honest.old set h
        → h.long ≡ false → Rest S.tells K.tells head_lines lines.old
        (command_at (S.at input.old) (K.at output.old))
        (command_at (S.at input.new) (K.at output.new)) result
        (drive_from (deployed_as deployment.now) set h 1) }
    ensures wanted { result ≡ OutOfMemory → RanOutSince head_lines head_lines
        (drive_may (deployed_as deployment.now)) S.tells (S.at input.old) (S.at input.new)
        lines.old lines.new }
{
    let mut into = [0; 4096];
    let mut number: u32 = 1;
    'lines: loop {
        match lines.next(input, &mut into) {
            LineRead::End => return end_run(output, honest.steps()),
            LineRead::TooLong => return break_reading(output, ReadingRule::TooLong, number),
            LineRead::Failed => return finish(output, b"fault read\n", Status::ReadFailed),
            LineRead::Text(n) => {
                match turn(output, deployment, honest, said, &into[..n], number) {
                    Turned::On => number += 1,
                    Turned::Stop(status) => return status,
                }
            }
        }
    }
}

/// Sets all modules up, and does the readings.
pub(crate) fn drive_run<S: Source, K: Sink, B: Copied, T: Tag>(
    alloc: Global,
    lines: &mut Lines,
    input: &mut S,
    output: &mut K,
    deployment: &Deployment,
    honest: &mut Honest<B, T>,
) -> Status
    requires names { IsTrue (are_valid (deployed_as deployment.now).names) }
    requires going { GoesOn T.mac deployment.now honest.old }
    requires memory { honest.old.ran_out ≡ false }
    ensures rest { (set : Setting) → Follows T.mac deployment.now honest.old set (start set)
        → Rest S.tells K.tells head_lines lines.old
        (command_at (S.at input.old) (K.at output.old))
        (command_at (S.at input.new) (K.at output.new)) result
        (drive_readings (deployed_as deployment.now) set) }
    ensures wanted { result ≡ OutOfMemory → RanOutSince head_lines head_lines
        (drive_may (deployed_as deployment.now)) S.tells (S.at input.old) (S.at input.new)
        lines.old lines.new }
{
    let mut said = Vec::new(alloc);
    match set_up(output, deployment, honest, &mut said) {
        Turned::Stop(status) => status,
        Turned::On => read_lines(lines, input, output, deployment, honest, &mut said),
    }
}
