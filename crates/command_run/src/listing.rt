//! The command `lines`: after the head it runs a schedule, and writes each line of it before the
//! items that it gave.

ghost use Rattle.sx_asm.specs.Assembled.{assembled};
ghost use Rattle.command_promise.specs.Told.{command_at};
ghost use Rattle.command_run.specs.Tells.{LinesPromise};

use crate::schedule::run_lines;
use crate::trace::Shown;
use command_deploy::{Deploys, deploy_over};
use command_promise::Status;
use command_world::worlds::new_world;
use std::alloc::Global;
use sx_deploy::deployment::Deployment;
use sx_image::Image;
use sx_io::{Lines, Sink, Source};
use sx_tag::Tag;

/// The command `lines`, as one that deploys.
struct LinesCommand;

impl Deploys for LinesCommand {
    ghost use Rattle.sx_asm.specs.Assembled.{assembled};
    ghost use Rattle.command_run.specs.Lines.{lines_deployed};
    ghost use Rattle.command_run.specs.Promise.{run_may};

    ghost behind = { lines_deployed assembled };

    ghost may = { run_may assembled };

    /// The schedule's lines and items, in a world where all was just switched on.
    fn perform<S: Source, K: Sink, T: Tag>(
        alloc: Global,
        tag: T,
        lines: &mut Lines,
        input: &mut S,
        output: &mut K,
        deployment: &Deployment,
        images: &[Image],
    ) -> Status {
        match new_world(alloc, tag, deployment, images) {
            Ok(mut world) => run_lines(
                alloc,
                Shown::Lines,
                lines,
                input,
                output,
                deployment,
                &mut world,
            ),
            Err(_) => Status::OutOfMemory,
        }
    }
}

/// The command `lines` over any tag: a deployment, the line `%%`, and a schedule. Each line that is
/// performed is written after `> `, and its items after it, before more of the input is read. Gives
/// the exit status, as `top` does for this command.
pub fn lines_over<S: Source, K: Sink, T: Tag>(
    alloc: Global,
    tag: T,
    input: &mut S,
    output: &mut K,
) -> Status
    ensures { LinesPromise assembled T.mac S.tells K.tells
        (command_at (S.at input.old) (K.at output.old))
        (command_at (S.at input.new) (K.at output.new)) result }
{
    deploy_over::<LinesCommand, S, K, T>(alloc, tag, input, output)
}
