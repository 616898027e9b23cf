//! The run of the workload. Each of its lines is made, judged and performed, and its items are
//! counted, before the next is made.

ghost use Rattle.std.specs.Prelude.{◌≡◌, ◌+◌, ◌<◌, ◌≤◌, [], IfErr, OnOk, IsTrue};
ghost use Rattle.sx_trace.specs.ValidNames.{are_valid};
ghost use Rattle.sx_sched.specs.Seen.{line_of};
ghost use Rattle.sx_sched.specs.InForm.{IsLine};
ghost use Rattle.sx_deploy.specs.SeenDeployment.{deployed_as};
ghost use Rattle.sx_deploy.specs.Law.{IsSoundDeployment};
ghost use Rattle.sx_world.specs.Continued.{Acts};
ghost use Rattle.sx_world.specs.InMemory.{world_setting};
ghost use Rattle.spec_run.specs.Law.{IsSoundSetting};
ghost use Rattle.sx_world.specs.Standing.{IsGoing, Stands};
ghost use Rattle.spec_run.specs.State.{switched_on};
ghost use Rattle.command_gen.specs.Counting.{ActsFrom, EndsAs, LineStopsAt};

use crate::counts::Counts;
use command_world::judging::judge_line;
use std::alloc::Global;
use sx_bulk::{MOST_SAMPLES, line, lines};
use sx_bus::Copied;
use sx_deploy::deployment::Deployment;
use sx_sched::lines::{Line, LineError};
use sx_tag::Tag;
use sx_trace::items::Item;
use sx_world::world::World;

/// Why a run of the workload stopped before its end.
pub(crate) enum Stopped {
    /// The line of this number, counted from 1, breaks this rule.
    Broken { rule: u8, number: u32 },
    OutOfMemory,
}

/// Performs a line, and gives its items alone.
fn act<B: Copied, T: Tag>(
    deployment: &Deployment,
    world: &mut World<B, T>,
    line: &Line,
    items: &mut Vec<Item>,
) -> Result<(), Stopped>
    requires sound { IsSoundDeployment (deployed_as deployment.now) }
    requires images { IsSoundSetting (world_setting T.mac deployment.now world.old) }
    requires going { IsGoing (world_setting T.mac deployment.now world.old) world.old }
    requires form { IsLine (deployed_as deployment.now).names (line_of line.now) }
    requires few { world.old.performed < 65536 }
    ensures acts { OnOk result (Acts (world_setting T.mac deployment.now world.old)
        (line_of line.now) world.old world.new [] items.new.items) }
    ensures stops { IfErr result (λ e. e ≡ Stopped.OutOfMemory) }
    ensures sites { world.new.sites ≡ world.old.sites }
    ensures counts { OnOk result (world.new.performed ≡ world.old.performed + 1) }
{
    items.clear();
    match world.act(deployment, line, items) {
        Ok(()) => Ok(()),
        Err(_) => Err(Stopped::OutOfMemory),
    }
}

/// Does what a line says, and gives its items alone.
fn turn<B: Copied, T: Tag>(
    alloc: Global,
    deployment: &Deployment,
    world: &mut World<B, T>,
    said: &[u8],
    number: u32,
    items: &mut Vec<Item>,
) -> Result<(), Stopped>
    requires sound { IsSoundDeployment (deployed_as deployment.now) }
    requires images { IsSoundSetting (world_setting T.mac deployment.now world.old) }
    requires going { IsGoing (world_setting T.mac deployment.now world.old) world.old }
    requires names { IsTrue (are_valid (deployed_as deployment.now).names) }
    requires counted { world.old.performed + 1 ≡ number }
    ensures acts { OnOk result (ActsFrom (deployed_as deployment.now).names
        (world_setting T.mac deployment.now world.old) world.old world.new number said.now
        items.new.items) }
    ensures stops { IfErr result (λ e.
        LineStopsAt (deployed_as deployment.now).names number said.now e) }
    ensures sites { world.new.sites ≡ world.old.sites }
    ensures counts { OnOk result (world.new.performed ≡ number) }
{
    match judge_line(alloc, &deployment.names, said, number) {
        Ok(line) => act(deployment, world, &line, items),
        Err(LineError::Fault(rule)) => Err(Stopped::Broken { rule, number }),
        Err(LineError::OutOfMemory) => Err(Stopped::OutOfMemory),
    }
}

/// Runs the workload that carries `samples` samples, in a world where all was just switched on, and
/// counts the items.
pub(crate) fn run_workload<B: Copied, T: Tag>(
    alloc: Global,
    samples: u32,
    deployment: &Deployment,
    world: &mut World<B, T>,
) -> Result<Counts, Stopped>
    requires few { samples ≤ MOST_SAMPLES }
    requires sound { IsSoundDeployment (deployed_as deployment.now) }
    requires images { IsSoundSetting (world_setting T.mac deployment.now world.old) }
    requires names { IsTrue (are_valid (deployed_as deployment.now).names) }
    requires new { world.old.performed ≡ 0 }
    requires stands { Stands (world_setting T.mac deployment.now world.old) world.old
        (switched_on (world_setting T.mac deployment.now world.old)) }
    ensures { EndsAs samples (deployed_as deployment.now).names
        (world_setting T.mac deployment.now world.old) world.new.running.steps result }
{
    let count = lines(samples);
    let mut counts = Counts::new();
    let mut items = Vec::new(alloc);
    let mut into = [0; 64];
    for i in 0..count {
        let written = line(samples, i, &mut into);
        turn(
            alloc,
            deployment,
            world,
            &into[..written],
            i + 1,
            &mut items,
        )?;
        counts.add(&items);
    }
    Ok(counts)
}
