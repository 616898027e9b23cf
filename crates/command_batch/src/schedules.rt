//! The schedules. Each is run in a copy of the world after the common lines, and what it writes is
//! written before the next is read.

ghost use Rattle.std.specs.Prelude.{◌≡◌, ◌≢◌, ℕ, ◌+◌, ◌≤◌, false, IsTrue, List};
ghost use Rattle.sx_asm.specs.Assembled.{assembled};
ghost use Rattle.sx_io.specs.Reading.{Answer};
ghost use Rattle.command_promise.specs.declared.status.Status.TheVariants.{OutOfMemory};
ghost use Rattle.command_promise.specs.Head.{head_lines, is_mark};
ghost use Rattle.command_promise.specs.Parts.{DoesPart, Rest};
ghost use Rattle.command_promise.specs.Told.{Output, behind, command_at};
ghost use Rattle.sx_trace.specs.ValidNames.{are_valid};
ghost use Rattle.sx_deploy.specs.Law.{IsSoundDeployment};
ghost use Rattle.sx_deploy.specs.SeenDeployment.{deployed_as};
ghost use Rattle.spec_run.specs.Law.{IsSoundSetting};
ghost use Rattle.spec_run.specs.State.{World as RunWorld};
ghost use Rattle.sx_world.specs.InMemory.{world_setting};
ghost use Rattle.sx_world.specs.Standing.{IsGoing, Stands};
ghost use Rattle.command_world.specs.Broken.{broken_line};
ghost use Rattle.command_world.specs.Schedule.{judged_line};
ghost use Rattle.command_world.specs.Turning.{MayRunOut};
ghost use Rattle.command_batch.specs.Output.{Runs, schedules_from};
ghost use Rattle.command_batch.specs.Parts.{EndsWanting, HasStood, KeepsWanting, ReadsOn};
ghost use Rattle.command_batch.specs.Parts.{RepliesLine, TellsMade, next_from};

use crate::passing::{end_long, pass_over};
use command_promise::{Status, Turned, finish, is_mark, put_text};
use command_run::trace::{Shown, put_line};
use command_world::judging::{TOO_LONG, break_off, judge_line};
use std::alloc::Global;
use sx_bus::Copied;
use sx_deploy::deployment::Deployment;
use sx_io::{LineRead, Lines, Sink, Source};
use sx_sched::lines::LineError;
use sx_tag::Tag;
use sx_trace::items::Item;
use sx_world::world::World;

/// There are at most this many schedules.
const MOST_SCHEDULES: u32 = 65_536;

/// How a schedule goes on after one of its lines.
#[derive(Clone, Copy)]
enum Outcome {
    /// It goes on.
    On,
    /// The line broke a rule, and this was written.
    Broken,
    /// The command stops with this exit status.
    Stop(Status),
}

/// Writes which rule the line of this number breaks. The command goes on.
fn put_broken<K: Sink>(output: &mut K, rule: u8, number: u32) -> Turned
    ensures does { (left : List Answer → Output) → DoesPart K.tells (K.at output.old)
        (K.at output.new) (λ more. behind (broken_line rule number) (left more)) result left }
    ensures memory { result ≢ Turned.Stop OutOfMemory }
{
    match break_off(output, rule, number) {
        Status::WriteFailed => Turned::Stop(Status::WriteFailed),
        _ => Turned::On,
    }
}

/// Does what a line says, and writes its items; if memory runs out, those that were made before.
fn turn<K: Sink, B: Copied, T: Tag>(
    alloc: Global,
    output: &mut K,
    world: &mut World<B, T>,
    deployment: &Deployment,
    items: &mut Vec<Item>,
    said: &[u8],
    number: u32,
) -> Outcome
    requires sound { IsSoundDeployment (deployed_as deployment.now) }
    requires images { IsSoundSetting (world_setting T.mac deployment.now world.old) }
    requires going { IsGoing (world_setting T.mac deployment.now world.old) world.old }
    requires names { IsTrue (are_valid (deployed_as deployment.now).names) }
    requires counted { world.old.performed + 1 ≡ number }
    requires unmarked { is_mark said.now ≡ false }
    ensures replies { (w : RunWorld)
        → Stands (world_setting T.mac deployment.now world.old) world.old w
        → RepliesLine K.tells (K.at output.old) (K.at output.new)
        (deployed_as deployment.now).names (world_setting T.mac deployment.now world.old)
        world.new number said.now result w }
    ensures memory { result ≡ Outcome.Stop OutOfMemory
        → MayRunOut (judged_line assembled (deployed_as deployment.now).names number said.now) }
    ensures made { TellsMade K.tells (K.at output.old) (K.at output.new)
        (deployed_as deployment.now).names world.old world.new items.new.items result }
    ensures few { result ≡ Outcome.On → number ≤ 65536 }
    ensures sites { world.new.sites ≡ world.old.sites }
    ensures counts { result ≡ Outcome.On → world.new.performed ≡ number }
{
    items.clear();
    let names = &deployment.names;
    match judge_line(alloc, names, said, number) {
        Ok(line) => match world.act(deployment, &line, items) {
            Ok(()) => match put_line(output, names, Shown::Items, said, items) {
                Turned::On => Outcome::On,
                Turned::Stop(status) => Outcome::Stop(status),
            },
            Err(_) => match put_line(output, names, Shown::Items, said, items) {
                Turned::On => Outcome::Stop(Status::OutOfMemory),
                Turned::Stop(status) => Outcome::Stop(status),
            },
        },
        Err(LineError::Fault(rule)) => match put_broken(output, rule, number) {
            Turned::On => Outcome::Broken,
            Turned::Stop(status) => Outcome::Stop(status),
        },
        Err(LineError::OutOfMemory) => Outcome::Stop(Status::OutOfMemory),
    }
}

/// Runs the lines of a schedule, up to the next mark or to the end of the input.
fn run_schedule<S: Source, K: Sink, B: Copied, T: Tag>(
    alloc: Global,
    lines: &mut Lines,
    input: &mut S,
    output: &mut K,
    deployment: &Deployment,
    world: &mut World<B, T>,
    first: u32,
) -> Turned
    requires sound { IsSoundDeployment (deployed_as deployment.now) }
    requires images { IsSoundSetting (world_setting T.mac deployment.now world.old) }
    requires stood { HasStood (world_setting T.mac deployment.now world.old) world.old }
    requires names { IsTrue (are_valid (deployed_as deployment.now).names) }
    requires counted { world.old.performed + 1 ≡ first }
    requires few { first ≤ 65537 }
    ensures reads { (w : RunWorld) (count : ℕ)
        → Stands (world_setting T.mac deployment.now world.old) world.old w
        → ReadsOn S.tells K.tells lines.old lines.new
        (command_at (S.at input.old) (K.at output.old))
        (command_at (S.at input.new) (K.at output.new)) result
        (schedules_from assembled (deployed_as deployment.now).names
        (world_setting T.mac deployment.now world.old) w first count (Runs w) first)
        (next_from (deployed_as deployment.now).names
        (world_setting T.mac deployment.now world.old) w first count) }
    ensures marked { result ≡ Turned.On → EndsWanting (deployed_as deployment.now) S.tells
        (S.at input.old) (S.at input.new) lines.old lines.new }
    ensures memory { result ≡ Turned.Stop OutOfMemory
        → EndsWanting (deployed_as deployment.now) S.tells (S.at input.old) (S.at input.new)
        lines.old lines.new }
{
    let mut into = [0; 4096];
    let mut items = Vec::new(alloc);
    let mut number = first;
    'lines: loop {
        match lines.next(input, &mut into) {
            LineRead::End => return Turned::Stop(finish(output, b"end\n", Status::Done)),
            LineRead::TooLong => return Turned::Stop(break_off(output, TOO_LONG, number)),
            LineRead::Failed => {
                return Turned::Stop(finish(output, b"fault read\n", Status::ReadFailed));
            }
            LineRead::Text(n) => {
                let said = &into[..n];
                if is_mark(said) {
                    return put_text(output, b"end\n");
                }
                match turn(alloc, output, world, deployment, &mut items, said, number) {
                    Outcome::On => number += 1,
                    Outcome::Broken => return pass_over(lines, input, output, number),
                    Outcome::Stop(status) => return Turned::Stop(status),
                }
            }
        }
    }
}

/// Runs the next schedule in a copy of the world after the common lines.
fn run_copy<S: Source, K: Sink, B: Copied, T: Tag>(
    alloc: Global,
    lines: &mut Lines,
    input: &mut S,
    output: &mut K,
    deployment: &Deployment,
    start: &World<B, T>,
    first: u32,
) -> Turned
    requires sound { IsSoundDeployment (deployed_as deployment.now) }
    requires images { IsSoundSetting (world_setting T.mac deployment.now start.now) }
    requires stood { HasStood (world_setting T.mac deployment.now start.now) start.now }
    requires names { IsTrue (are_valid (deployed_as deployment.now).names) }
    requires counted { start.now.performed + 1 ≡ first }
    requires few { first ≤ 65537 }
    ensures reads { (w : RunWorld) (count : ℕ)
        → Stands (world_setting T.mac deployment.now start.now) start.now w
        → ReadsOn S.tells K.tells lines.old lines.new
        (command_at (S.at input.old) (K.at output.old))
        (command_at (S.at input.new) (K.at output.new)) result
        (schedules_from assembled (deployed_as deployment.now).names
        (world_setting T.mac deployment.now start.now) w first count (Runs w) first)
        (next_from (deployed_as deployment.now).names
        (world_setting T.mac deployment.now start.now) w first count) }
    ensures marked { result ≡ Turned.On → EndsWanting (deployed_as deployment.now) S.tells
        (S.at input.old) (S.at input.new) lines.old lines.new }
    ensures memory { result ≡ Turned.Stop OutOfMemory
        → KeepsWanting (deployed_as deployment.now) S.tells (S.at input.old) (S.at input.new)
        lines.old lines.new }
{
    match start.copy(alloc) {
        Ok(mut world) => {
            run_schedule(alloc, lines, input, output, deployment, &mut world, first)
        }
        Err(_) => Turned::Stop(Status::OutOfMemory),
    }
}

/// Runs all schedules, whose own lines begin with this number.
pub(crate) fn run_schedules<S: Source, K: Sink, B: Copied, T: Tag>(
    alloc: Global,
    lines: &mut Lines,
    input: &mut S,
    output: &mut K,
    deployment: &Deployment,
    start: &World<B, T>,
    first: u32,
) -> Status
    requires sound { IsSoundDeployment (deployed_as deployment.now) }
    requires images { IsSoundSetting (world_setting T.mac deployment.now start.now) }
    requires stood { HasStood (world_setting T.mac deployment.now start.now) start.now }
    requires names { IsTrue (are_valid (deployed_as deployment.now).names) }
    requires counted { start.now.performed + 1 ≡ first }
    requires few { first ≤ 65537 }
    ensures rest { (w : RunWorld)
        → Stands (world_setting T.mac deployment.now start.now) start.now w
        → Rest S.tells K.tells head_lines lines.old
        (command_at (S.at input.old) (K.at output.old))
        (command_at (S.at input.new) (K.at output.new)) result
        (schedules_from assembled (deployed_as deployment.now).names
        (world_setting T.mac deployment.now start.now) w first 1 (Runs w) first) }
    ensures memory { result ≡ OutOfMemory
        → KeepsWanting (deployed_as deployment.now) S.tells (S.at input.old) (S.at input.new)
        lines.old lines.new }
{
    let mut count: u32 = 0;
    'schedules: while count < MOST_SCHEDULES {
        match run_copy(alloc, lines, input, output, deployment, start, first) {
            Turned::On => count += 1,
            Turned::Stop(status) => return status,
        }
    }
    end_long(output)
}
