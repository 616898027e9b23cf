//! The command `batch`: after the head it runs the common lines, and then each schedule.

ghost use Rattle.sx_asm.specs.Assembled.{assembled};
ghost use Rattle.command_promise.specs.Told.{command_at};
ghost use Rattle.command_batch.specs.Promise.{BatchPromise};

use crate::common::common_lines;
use command_deploy::{Deploys, deploy_over};
use command_promise::Status;
use command_world::worlds::new_world;
use std::alloc::Global;
use sx_deploy::deployment::Deployment;
use sx_image::Image;
use sx_io::{Lines, Sink, Source};
use sx_tag::Tag;

/// The command `batch`, as one that deploys.
struct BatchCommand;

impl Deploys for BatchCommand {
    ghost use Rattle.sx_asm.specs.Assembled.{assembled};
    ghost use Rattle.command_batch.specs.Output.{batch_deployed};
    ghost use Rattle.command_batch.specs.Promise.{batch_may};

    ghost behind = { batch_deployed assembled };

    ghost may = { batch_may assembled };

    /// The common lines in a world where all was just switched on, and then each schedule.
    fn perform<S: Source, K: Sink, T: Tag>(
        alloc: Global,
        tag: T,
        lines: &mut Lines,
        input: &mut S,
        output: &mut K,
        deployment: &Deployment,
        images: &[Image],
    ) -> Status {
        match new_world(alloc, tag, deployment, images) {
            Ok(mut world) => common_lines(alloc, lines, input, output, deployment, &mut world),
            Err(_) => Status::OutOfMemory,
        }
    }
}

/// The command `batch` over any tag: a deployment, the line `%%`, common lines, and after each
/// further line `%%` a schedule. What a schedule writes is written before the next is read. Gives
/// the exit status, as `top` does for this command.
pub fn batch_over<S: Source, K: Sink, T: Tag>(
    alloc: Global,
    tag: T,
    input: &mut S,
    output: &mut K,
) -> Status
    ensures { BatchPromise assembled T.mac S.tells K.tells
        (command_at (S.at input.old) (K.at output.old))
        (command_at (S.at input.new) (K.at output.new)) result }
{
    deploy_over::<BatchCommand, S, K, T>(alloc, tag, input, output)
}
