//! The command `run`: after the head it runs a schedule while it reads it.

ghost use Rattle.sx_asm.specs.Assembled.{assembled};
ghost use Rattle.command_promise.specs.Told.{command_at};
ghost use Rattle.command_run.specs.Promise.{RunPromise};

use crate::schedule::run_lines;
use crate::trace::Shown;
use command_deploy::{Deploys, deploy_over};
use command_promise::{Status, Turned};
use command_world::images::begin_trace;
use command_world::worlds::new_world;
use std::alloc::Global;
use sx_deploy::deployment::Deployment;
use sx_image::Image;
use sx_io::{Lines, Sink, Source};
use sx_tag::Tag;

/// The command `run`, as one that deploys.
struct RunCommand;

impl Deploys for RunCommand {
    ghost use Rattle.sx_asm.specs.Assembled.{assembled};
    ghost use Rattle.command_run.specs.Output.{run_deployed};
    ghost use Rattle.command_run.specs.Promise.{run_may};

    ghost behind = { run_deployed assembled };

    ghost may = { run_may assembled };

    /// The images' lines, `trace`, and the schedule, in a world where all was just switched on. Its
    /// nodes are made before the first line is written: if memory runs out there, nothing is
    /// written.
    fn perform<S: Source, K: Sink, T: Tag>(
        alloc: Global,
        tag: T,
        lines: &mut Lines,
        input: &mut S,
        output: &mut K,
        deployment: &Deployment,
        images: &[Image],
    ) -> Status {
        match new_world(alloc, tag, deployment, images) {
            Ok(mut world) => match begin_trace(alloc, &deployment.names, images, output) {
                Turned::On => run_lines(
                    alloc,
                    Shown::Items,
                    lines,
                    input,
                    output,
                    deployment,
                    &mut world,
                ),
                Turned::Stop(status) => status,
            },
            Err(_) => Status::OutOfMemory,
        }
    }
}

/// The command `run` over any tag: a deployment, the line `%%`, and a schedule, whose lines are
/// performed and their items written while they are read. Gives the exit status, as `top` does for
/// this command.
pub fn run_over<S: Source, K: Sink, T: Tag>(
    alloc: Global,
    tag: T,
    input: &mut S,
    output: &mut K,
) -> Status
    ensures { RunPromise assembled T.mac S.tells K.tells
        (command_at (S.at input.old) (K.at output.old))
        (command_at (S.at input.new) (K.at output.new)) result }
{
    deploy_over::<RunCommand, S, K, T>(alloc, tag, input, output)
}
