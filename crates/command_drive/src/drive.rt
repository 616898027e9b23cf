//! The command `drive`: after the head it writes the honest run of the readings that follow.

ghost use Rattle.std.specs.Prelude.{◌≡◌, IfOk, IsTrue, false, length};
ghost use Rattle.command_promise.specs.declared.status.Status.TheVariants.{OutOfMemory};
ghost use Rattle.command_promise.specs.Told.{command_at};
ghost use Rattle.command_promise.specs.Parts.{Rest};
ghost use Rattle.command_promise.specs.Head.{head_lines};
ghost use Rattle.sx_trace.specs.ValidNames.{are_valid};
ghost use Rattle.sx_deploy.specs.Law.{IsSoundDeployment};
ghost use Rattle.sx_deploy.specs.SeenDeployment.{deployed_as};
ghost use Rattle.sx_world.specs.InMemory.{image_setting};
ghost use Rattle.sx_image.specs.InMemory.{texts_of};
ghost use Rattle.sx_drive.specs.Driving.{Follows, GoesOn};
ghost use Rattle.sx_drive.specs.Honest.{start};
ghost use Rattle.command_head.specs.Given.{RanOutSince};
ghost use Rattle.command_drive.specs.Output.{drive_deployed};
ghost use Rattle.command_drive.specs.Promise.{DrivePromise, drive_may};

use crate::lines::drive_run;
use command_deploy::{Deploys, deploy_over};
use command_promise::{Status, Turned};
use command_world::images::put_images;
use command_world::nodes::nodes_of;
use std::alloc::{AllocError, Global};
use sx_bus::Copied;
use sx_deploy::deployment::Deployment;
use sx_drive::honest::Honest;
use sx_image::Image;
use sx_io::{Lines, Sink, Source};
use sx_paged::PagedBus;
use sx_tag::Tag;

/// The honest run of a deployment with these images of its modules, where all nodes were just
/// switched on.
fn new_honest<T: Tag>(
    alloc: Global,
    tag: T,
    deployment: &Deployment,
    images: &[Image],
) -> Result<Honest<PagedBus, T>, AllocError>
    requires sound { IsSoundDeployment (deployed_as deployment.now) }
    requires many { length images.now ≡ length deployment.now.app.parts.items }
    ensures starts { IfOk result (λ honest. Follows T.mac deployment.now honest
        (image_setting T.mac deployment.now images.now)
        (start (image_setting T.mac deployment.now images.now))) }
    ensures memory { IfOk result (λ honest. honest.ran_out ≡ false) }
{
    let nodes = nodes_of(alloc, &tag, deployment)?;
    Honest::new(alloc, tag, deployment, images, nodes)
}

/// The images' lines, and the honest run.
fn drive_built<S: Source, K: Sink, B: Copied, T: Tag>(
    alloc: Global,
    lines: &mut Lines,
    input: &mut S,
    output: &mut K,
    deployment: &Deployment,
    images: &[Image],
    honest: &mut Honest<B, T>,
) -> Status
    requires names { IsTrue (are_valid (deployed_as deployment.now).names) }
    requires going { GoesOn T.mac deployment.now honest.old }
    requires memory { honest.old.ran_out ≡ false }
    requires starts { Follows T.mac deployment.now honest.old
        (image_setting T.mac deployment.now images.now)
        (start (image_setting T.mac deployment.now images.now)) }
    ensures rest { Rest S.tells K.tells head_lines lines.old
        (command_at (S.at input.old) (K.at output.old))
        (command_at (S.at input.new) (K.at output.new)) result
        (drive_deployed T.mac (deployed_as deployment.now) (texts_of images.now)) }
    ensures wanted { result ≡ OutOfMemory → RanOutSince head_lines head_lines
        (drive_may (deployed_as deployment.now)) S.tells (S.at input.old) (S.at input.new)
        lines.old lines.new }
{
    match put_images(alloc, &deployment.names, images, output) {
        Turned::Stop(status) => status,
        Turned::On => drive_run(alloc, lines, input, output, deployment, honest),
    }
}

/// The command `drive`, as one that deploys.
struct DriveCommand;

impl Deploys for DriveCommand {
    ghost use Rattle.command_drive.specs.Output.{drive_deployed};
    ghost use Rattle.command_drive.specs.Promise.{drive_may};

    ghost behind = { drive_deployed };

    ghost may = { drive_may };

    /// Drives a deployment with these images of its modules.
    fn perform<S: Source, K: Sink, T: Tag>(
        alloc: Global,
        tag: T,
        lines: &mut Lines,
        input: &mut S,
        output: &mut K,
        deployment: &Deployment,
        images: &[Image],
    ) -> Status {
        match new_honest(alloc, tag, deployment, images) {
            Ok(mut honest) => drive_built(
                alloc,
                lines,
                input,
                output,
                deployment,
                images,
                &mut honest,
            ),
            Err(_) => Status::OutOfMemory,
        }
    }
}

/// The command `drive` over any tag: a deployment, the line `%%`, and readings, each a sensor and
/// its value. It writes the images and the honest run: each line of its schedule after `> `, and
/// the items that the line shows. What a reading shows is written before the next line is read.
/// Gives the exit status, as `top` does for this command.
pub fn drive_over<S: Source, K: Sink, T: Tag>(
    alloc: Global,
    tag: T,
    input: &mut S,
    output: &mut K,
) -> Status
    ensures { DrivePromise T.mac S.tells K.tells (command_at (S.at input.old) (K.at output.old))
        (command_at (S.at input.new) (K.at output.new)) result }
{
    deploy_over::<DriveCommand, S, K, T>(alloc, tag, input, output)
}
