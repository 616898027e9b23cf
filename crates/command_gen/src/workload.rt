//! The command `gen`: it makes the images of the workload's modules, runs its lines, and tells what
//! it counted.
//!
//! Each function makes one thing and lends it on at once, since what is owned where a function ends
//! is dropped there, and the drop of a deployment or a world costs a second of proof or two.

ghost use Rattle.std.specs.Prelude.{◌≡◌, ◌≤◌, IsTrue, Ok, length};
ghost use Rattle.command_promise.specs.declared.status.Status.TheVariants.{Done};
ghost use Rattle.command_promise.specs.Told.{CommandEnds};
ghost use Rattle.sx_trace.specs.ValidNames.{are_valid};
ghost use Rattle.sx_deploy.specs.Deployment.{IsRead};
ghost use Rattle.sx_deploy.specs.Law.{IsSoundDeployment};
ghost use Rattle.sx_deploy.specs.SeenDeployment.{deployed_as};
ghost use Rattle.spec_run.specs.Accepted.{AreImages};
ghost use Rattle.sx_image.specs.InMemory.{texts_of};
ghost use Rattle.sx_world.specs.InMemory.{world_setting};
ghost use Rattle.spec_run.specs.Law.{IsSoundSetting};
ghost use Rattle.sx_world.specs.Standing.{Stands};
ghost use Rattle.spec_run.specs.State.{switched_on};
ghost use Rattle.sx_bulk.specs.Bulk as bulk;
ghost use Rattle.command_gen.specs.Counts.{summary};
ghost use Rattle.command_gen.specs.Promise.{GenPromise, GenWrote, gen_deployed, gen_run};

use crate::counting::{Stopped, run_workload};
use crate::counts::{Counts, summary};
use command_head::refusing::refuse;
use command_promise::{Status, Turned, finish};
use command_world::compiling::compile_all;
use command_world::images::put_images;
use command_world::judging::break_off;
use command_world::worlds::new_world;
use std::alloc::Global;
use sx_bulk::{MOST_SAMPLES, head, lines};
use sx_bus::Copied;
use sx_deploy::deployment::{Deployment, read_deployment};
use sx_image::Image;
use sx_io::Sink;
use sx_tag::Tag;
use sx_world::world::World;

/// Ends the command with what was counted.
fn tell<K: Sink>(alloc: Global, samples: u32, counts: &Counts, steps: u64, output: &mut K) -> Status
    requires { samples ≤ MOST_SAMPLES }
    ensures { CommandEnds K.tells (K.at output.old) (K.at output.new) result
        (record { text = summary (bulk.lines samples) counts.now steps; status = Done }) }
{
    match summary(alloc, lines(samples), counts, steps) {
        Ok(text) => finish(output, &text, Status::Done),
        Err(_) => Status::OutOfMemory,
    }
}

/// Runs the workload in a world where all was just switched on, and tells how it ended.
fn tell_run<K: Sink, B: Copied, T: Tag>(
    alloc: Global,
    samples: u32,
    deployment: &Deployment,
    world: &mut World<B, T>,
    output: &mut K,
) -> Status
    requires few { samples ≤ MOST_SAMPLES }
    requires sound { IsSoundDeployment (deployed_as deployment.now) }
    requires images { IsSoundSetting (world_setting T.mac deployment.now world.old) }
    requires names { IsTrue (are_valid (deployed_as deployment.now).names) }
    requires new { world.old.performed ≡ 0 }
    requires stands { Stands (world_setting T.mac deployment.now world.old) world.old
        (switched_on (world_setting T.mac deployment.now world.old)) }
    ensures { CommandEnds K.tells (K.at output.old) (K.at output.new) result
        (gen_run samples (deployed_as deployment.now).names
        (world_setting T.mac deployment.now world.old)) }
{
    match run_workload(alloc, samples, deployment, world) {
        Ok(counts) => tell(alloc, samples, &counts, world.steps(), output),
        Err(Stopped::Broken { rule, number }) => break_off(output, rule, number),
        Err(Stopped::OutOfMemory) => Status::OutOfMemory,
    }
}

/// The images' lines, and the run in a world where all was just switched on.
fn gen_images<K: Sink, T: Tag>(
    alloc: Global,
    tag: T,
    samples: u32,
    deployment: &Deployment,
    images: &[Image],
    output: &mut K,
) -> Status
    requires few { samples ≤ MOST_SAMPLES }
    requires sound { IsSoundDeployment (deployed_as deployment.now) }
    requires names { IsTrue (are_valid (deployed_as deployment.now).names) }
    requires many { length images.now ≡ length deployment.now.app.parts.items }
    requires images { AreImages T.mac (deployed_as deployment.now) (texts_of images.now) }
    ensures { CommandEnds K.tells (K.at output.old) (K.at output.new) result
        (gen_deployed T.mac (texts_of images.now) samples (deployed_as deployment.now)) }
{
    match new_world(alloc, tag, deployment, images) {
        Ok(mut world) => match put_images(alloc, &deployment.names, images, output) {
            Turned::On => tell_run(alloc, samples, deployment, &mut world, output),
            Turned::Stop(status) => status,
        },
        Err(_) => Status::OutOfMemory,
    }
}

/// Makes the images of the workload's modules, and runs it.
fn gen_deployment<K: Sink, T: Tag>(
    alloc: Global,
    tag: T,
    samples: u32,
    deployment: &Deployment,
    output: &mut K,
) -> Status
    requires few { samples ≤ MOST_SAMPLES }
    requires sound { IsSoundDeployment (deployed_as deployment.now) }
    requires names { IsTrue (are_valid (deployed_as deployment.now).names) }
    requires read { IsRead bulk.head (Ok (deployed_as deployment.now)) }
    ensures { GenWrote T.mac samples K.tells (K.at output.old) (K.at output.new) result }
{
    match compile_all(alloc, &tag, deployment) {
        Ok(images) => gen_images(alloc, tag, samples, deployment, &images, output),
        Err(_) => Status::OutOfMemory,
    }
}

/// The command `gen` over any tag: it reads nothing, writes the images of the workload's modules,
/// runs as many of its lines as carry this many samples, and writes how many lines, items, outputs,
/// outputs of the value 1 and node steps there were. No line is kept. Gives the exit status, as
/// `top` does for this command.
pub fn gen_over<K: Sink, T: Tag>(alloc: Global, tag: T, samples: u32, output: &mut K) -> Status
    requires { samples ≤ MOST_SAMPLES }
    ensures { GenPromise T.mac samples K.tells (K.at output.old) (K.at output.new) result }
{
    match read_deployment(alloc, head()) {
        Ok(deployment) => gen_deployment(alloc, tag, samples, &deployment, output),
        Err(error) => refuse(error, output),
    }
}
