//! The common lines. They are performed, and write nothing unless one of them breaks a rule.

ghost use Rattle.std.specs.Prelude.{◌≡◌, ◌+◌, ◌≤◌, false, IsTrue};
ghost use Rattle.sx_asm.specs.Assembled.{assembled};
ghost use Rattle.command_promise.specs.declared.status.Status.TheVariants.{OutOfMemory};
ghost use Rattle.command_promise.specs.Head.{head_lines, is_mark};
ghost use Rattle.command_promise.specs.Parts.{Rest};
ghost use Rattle.command_promise.specs.Told.{command_at};
ghost use Rattle.sx_trace.specs.ValidNames.{are_valid};
ghost use Rattle.sx_deploy.specs.Law.{IsSoundDeployment};
ghost use Rattle.sx_deploy.specs.SeenDeployment.{deployed_as};
ghost use Rattle.spec_run.specs.Law.{IsSoundSetting};
ghost use Rattle.spec_run.specs.State.{World as RunWorld, switched_on};
ghost use Rattle.sx_world.specs.InMemory.{world_setting};
ghost use Rattle.sx_world.specs.Standing.{IsGoing, Stands};
ghost use Rattle.command_head.specs.Given.{RanOutSince};
ghost use Rattle.command_world.specs.Schedule.{judged_line};
ghost use Rattle.command_world.specs.Turning.{MayRunOut};
ghost use Rattle.command_batch.specs.Output.{common_from};
ghost use Rattle.command_batch.specs.Promise.{batch_may};
ghost use Rattle.command_batch.specs.Parts.{TurnsCommon};

use crate::schedules::run_schedules;
use command_promise::{Status, Turned, finish, is_mark};
use command_world::judging::{TOO_LONG, break_off, judge_line};
use std::alloc::Global;
use sx_bus::Copied;
use sx_deploy::deployment::Deployment;
use sx_io::{LineRead, Lines, Sink, Source};
use sx_sched::lines::LineError;
use sx_tag::Tag;
use sx_trace::items::Item;
use sx_world::world::World;

/// Does what a common line says. `items` is the loop's, so that lines use its memory one after the
/// other.
fn turn<K: Sink, B: Copied, T: Tag>(
    alloc: Global,
    output: &mut K,
    world: &mut World<B, T>,
    deployment: &Deployment,
    items: &mut Vec<Item>,
    said: &[u8],
    number: u32,
) -> Turned
    requires sound { IsSoundDeployment (deployed_as deployment.now) }
    requires images { IsSoundSetting (world_setting T.mac deployment.now world.old) }
    requires going { IsGoing (world_setting T.mac deployment.now world.old) world.old }
    requires names { IsTrue (are_valid (deployed_as deployment.now).names) }
    requires counted { world.old.performed + 1 ≡ number }
    requires unmarked { is_mark said.now ≡ false }
    ensures turns { (w : RunWorld)
        → Stands (world_setting T.mac deployment.now world.old) world.old w
        → TurnsCommon K.tells (K.at output.old) (K.at output.new)
        (deployed_as deployment.now).names (world_setting T.mac deployment.now world.old)
        world.new number said.now result w }
    ensures memory { result ≡ Turned.Stop OutOfMemory
        → MayRunOut (judged_line assembled (deployed_as deployment.now).names number said.now) }
    ensures few { result ≡ Turned.On → number ≤ 65536 }
    ensures sites { world.new.sites ≡ world.old.sites }
    ensures counts { result ≡ Turned.On → world.new.performed ≡ number }
{
    items.clear();
    match judge_line(alloc, &deployment.names, said, number) {
        Ok(line) => match world.act(deployment, &line, items) {
            Ok(()) => Turned::On,
            Err(_) => Turned::Stop(Status::OutOfMemory),
        },
        Err(LineError::Fault(rule)) => Turned::Stop(break_off(output, rule, number)),
        Err(LineError::OutOfMemory) => Turned::Stop(Status::OutOfMemory),
    }
}

/// Performs the common lines in a world where all was just switched on, and then the schedules.
pub(crate) fn common_lines<S: Source, K: Sink, B: Copied, T: Tag>(
    alloc: Global,
    lines: &mut Lines,
    input: &mut S,
    output: &mut K,
    deployment: &Deployment,
    world: &mut World<B, T>,
) -> Status
    requires sound { IsSoundDeployment (deployed_as deployment.now) }
    requires images { IsSoundSetting (world_setting T.mac deployment.now world.old) }
    requires names { IsTrue (are_valid (deployed_as deployment.now).names) }
    requires new { world.old.performed ≡ 0 }
    requires stands { Stands (world_setting T.mac deployment.now world.old) world.old
        (switched_on (world_setting T.mac deployment.now world.old)) }
    ensures rest { Rest S.tells K.tells head_lines lines.old
        (command_at (S.at input.old) (K.at output.old))
        (command_at (S.at input.new) (K.at output.new)) result
        (common_from assembled (deployed_as deployment.now).names
        (world_setting T.mac deployment.now world.old)
        (switched_on (world_setting T.mac deployment.now world.old)) 1) }
    ensures wanted { result ≡ OutOfMemory → RanOutSince head_lines head_lines
        (batch_may assembled (deployed_as deployment.now)) S.tells (S.at input.old)
        (S.at input.new) lines.old lines.new }
{
    let mut into = [0; 4096];
    let mut items = Vec::new(alloc);
    let mut number: u32 = 1;
    'lines: loop {
        match lines.next(input, &mut into) {
            LineRead::End => return finish(output, b"end\n", Status::Done),
            LineRead::TooLong => return break_off(output, TOO_LONG, number),
            LineRead::Failed => return finish(output, b"fault read\n", Status::ReadFailed),
            LineRead::Text(n) => {
                let said = &into[..n];
                if is_mark(said) {
                    return run_schedules(alloc, lines, input, output, deployment, world, number);
                }
                match turn(alloc, output, world, deployment, &mut items, said, number) {
                    Turned::On => number += 1,
                    Turned::Stop(status) => return status,
                }
            }
        }
    }
}
