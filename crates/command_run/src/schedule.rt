//! The lines of a schedule. Each is judged and performed, and what is shown of it is written before
//! more of the input is read.

ghost use Rattle.std.specs.Prelude.{◌≡◌, ◌≢◌, ◌+◌, ◌≤◌, IsTrue};
ghost use Rattle.sx_asm.specs.Assembled.{assembled};
ghost use Rattle.sx_trace.specs.ValidNames.{are_valid};
ghost use Rattle.command_promise.specs.declared.status.Status.TheVariants.{OutOfMemory};
ghost use Rattle.command_promise.specs.Told.{CommandEnds, behind, command_at};
ghost use Rattle.command_promise.specs.Parts.{Rest};
ghost use Rattle.command_promise.specs.Head.{head_lines};
ghost use Rattle.sx_deploy.specs.SeenDeployment.{deployed_as};
ghost use Rattle.sx_deploy.specs.Law.{IsSoundDeployment};
ghost use Rattle.sx_world.specs.InMemory.{world_setting};
ghost use Rattle.spec_run.specs.Law.{IsSoundSetting};
ghost use Rattle.sx_world.specs.Standing.{IsGoing, Stands};
ghost use Rattle.spec_run.specs.State.{switched_on};
ghost use Rattle.command_text.specs.Keeping.{ComesNext};
ghost use Rattle.command_head.specs.Given.{RanOutSince};
ghost use Rattle.command_run.specs.Promise.{run_may};
ghost use Rattle.command_world.specs.Broken.{broken_output};
ghost use Rattle.command_world.specs.Schedule.{judged_line};
ghost use Rattle.command_run.specs.Turns.{TellsMade, TurnsFrom, shown_from};
ghost use Rattle.command_world.specs.Turning.{MayRunOut};

use crate::trace::{Shown, finish_line, keep_line};
use command_promise::{Status, Turned, finish};
use command_text::batch::{Batch, finish_wanted, put_kept};
use command_world::judging::{TOO_LONG, break_off, judge_line};
use std::alloc::Global;
use sx_bus::Copied;
use sx_deploy::deployment::Deployment;
use sx_io::{Failed, LineRead, Lines, Sink, Source};
use sx_sched::lines::LineError;
use sx_tag::Tag;
use sx_trace::items::Item;
use sx_world::world::World;

/// The next line of a schedule. All that is kept is written before the source is asked for it, so
/// nothing is kept while the source waits.
fn next_line<S: Source, K: Sink>(
    lines: &mut Lines,
    input: &mut S,
    output: &mut K,
    kept: &mut Batch,
    into: &mut [u8; 4096],
) -> Result<LineRead, Failed>
    ensures comes { ComesNext S.tells K.tells (command_at (S.at input.old) (K.at output.old))
        (command_at (S.at input.new) (K.at output.new)) kept.old.items kept.new.items lines.old
        lines.new into.new result }
{
    match lines.next_held(into) {
        Some(count) => Ok(LineRead::Text(count)),
        None => {
            put_kept(output, kept)?;
            kept.clear();
            Ok(lines.next(input, into))
        }
    }
}

/// Writes all that is kept, and which rule the line of this number breaks.
fn break_kept<K: Sink>(output: &mut K, kept: &Batch, rule: u8, number: u32) -> Status
    ensures ends { CommandEnds K.tells (K.at output.old) (K.at output.new) result
        (behind kept.now.items (broken_output rule number)) }
    ensures memory { result ≢ OutOfMemory }
{
    match put_kept(output, kept) {
        Ok(()) => break_off(output, rule, number),
        Err(_) => Status::WriteFailed,
    }
}

/// Does what a line says, and keeps what is shown of it. Where memory runs out, all that is kept is
/// written, with the items that the line made before.
/// `items` is the loop's, so that lines use its memory one after the other.
fn turn<K: Sink, B: Copied, T: Tag>(
    alloc: Global,
    shown: Shown,
    output: &mut K,
    world: &mut World<B, T>,
    deployment: &Deployment,
    items: &mut Vec<Item>,
    kept: &mut Batch,
    said: &[u8],
    number: u32,
) -> Turned
    requires sound { IsSoundDeployment (deployed_as deployment.now) }
    requires images { IsSoundSetting (world_setting T.mac deployment.now world.old) }
    requires going { IsGoing (world_setting T.mac deployment.now world.old) world.old }
    requires names { IsTrue (are_valid (deployed_as deployment.now).names) }
    requires counted { world.old.performed + 1 ≡ number }
    ensures turns { TurnsFrom shown K.tells (K.at output.old) (K.at output.new) kept.old.items
        kept.new.items (deployed_as deployment.now).names (world_setting T.mac deployment.now world.old) world.old
        world.new number said.now result }
    ensures memory { result ≡ Turned.Stop OutOfMemory
        → MayRunOut (judged_line assembled (deployed_as deployment.now).names number said.now) }
    ensures made { TellsMade shown K.tells (K.at output.old) (K.at output.new) kept.old.items
        (deployed_as deployment.now).names world.old world.new said.now items.new.items result }
    ensures few { result ≡ Turned.On → number ≤ 65536 }
    ensures sites { world.new.sites ≡ world.old.sites }
    ensures counts { result ≡ Turned.On → world.new.performed ≡ number }
{
    items.clear();
    match judge_line(alloc, &deployment.names, said, number) {
        Ok(line) => match world.act(deployment, &line, items) {
            Ok(()) => keep_line(output, kept, &deployment.names, shown, said, items),
            Err(_) => {
                Turned::Stop(finish_line(output, kept, &deployment.names, shown, said, items))
            }
        },
        Err(LineError::Fault(rule)) => Turned::Stop(break_kept(output, kept, rule, number)),
        Err(LineError::OutOfMemory) => Turned::Stop(finish_wanted(output, kept)),
    }
}

/// Runs the lines of a schedule in a world where all was just switched on.
pub(crate) fn run_lines<S: Source, K: Sink, B: Copied, T: Tag>(
    alloc: Global,
    shown: Shown,
    lines: &mut Lines,
    input: &mut S,
    output: &mut K,
    deployment: &Deployment,
    world: &mut World<B, T>,
) -> Status
    requires sound { IsSoundDeployment (deployed_as deployment.now) }
    requires images { IsSoundSetting (world_setting T.mac deployment.now world.old) }
    requires names { IsTrue (are_valid (deployed_as deployment.now).names) }
    requires new { world.old.performed ≡ 0 }
    requires stands { Stands (world_setting T.mac deployment.now world.old) world.old
        (switched_on (world_setting T.mac deployment.now world.old)) }
    ensures rest { Rest S.tells K.tells head_lines lines.old
        (command_at (S.at input.old) (K.at output.old))
        (command_at (S.at input.new) (K.at output.new)) result
        (shown_from shown (deployed_as deployment.now).names
        (world_setting T.mac deployment.now world.old)
        (switched_on (world_setting T.mac deployment.now world.old)) 1) }
    ensures wanted { result ≡ OutOfMemory → RanOutSince head_lines head_lines
        (run_may assembled (deployed_as deployment.now)) S.tells (S.at input.old) (S.at input.new)
        lines.old lines.new }
{
    let mut into = [0; 4096];
    let mut items = Vec::new(alloc);
    let mut kept = Batch::new();
    let mut number: u32 = 1;
    'lines: loop {
        match next_line(lines, input, output, &mut kept, &mut into) {
            Err(_) => return Status::WriteFailed,
            Ok(LineRead::End) => return finish(output, b"end\n", Status::Done),
            Ok(LineRead::TooLong) => return break_off(output, TOO_LONG, number),
            Ok(LineRead::Failed) => return finish(output, b"fault read\n", Status::ReadFailed),
            Ok(LineRead::Text(n)) => match turn(
                alloc,
                shown,
                output,
                world,
                deployment,
                &mut items,
                &mut kept,
                &into[..n],
                number,
            ) {
                Turned::On => number += 1,
                Turned::Stop(status) => return status,
            },
        }
    }
}
