//! The trait of commands that deploy.

ghost use Rattle.std.specs.Prelude.{◌≡◌, IsTrue, length};
ghost use Rattle.sx_tag.specs.Mac.{Mac};
ghost use Rattle.command_promise.specs.declared.status.Status.TheVariants.{OutOfMemory};
ghost use Rattle.command_promise.specs.Told.{command_at};
ghost use Rattle.command_promise.specs.Parts.{Rest};
ghost use Rattle.command_promise.specs.Head.{head_lines};
ghost use Rattle.sx_trace.specs.ValidNames.{are_valid};
ghost use Rattle.sx_deploy.specs.Law.{IsSoundDeployment};
ghost use Rattle.sx_deploy.specs.SeenDeployment.{deployed_as};
ghost use Rattle.spec_run.specs.Accepted.{AreImages};
ghost use Rattle.sx_image.specs.InMemory.{texts_of};
ghost use Rattle.command_head.specs.Given.{RanOutSince};
ghost use Rattle.command_deploy.specs.Output.{OwnOutput, Wants};

use command_promise::Status;
use std::alloc::Global;
use sx_deploy::deployment::Deployment;
use sx_image::Image;
use sx_io::{Lines, Sink, Source};
use sx_tag::Tag;

/// A command that deploys, by what is its own.
pub trait Deploys {
    // What is written after the head of a deployment, for a tag.
    ghost behind: { Mac → OwnOutput };

    // At which lines after the head memory may run out.
    ghost may: { Wants };

    /// Does what follows the head, with these images of the deployment's modules. Gives the exit
    /// status.
    fn perform<S: Source, K: Sink, T: Tag>(
        alloc: Global,
        tag: T,
        lines: &mut Lines,
        input: &mut S,
        output: &mut K,
        deployment: &Deployment,
        images: &[Image],
    ) -> Status
        requires sound { IsSoundDeployment (deployed_as deployment.now) }
        requires names { IsTrue (are_valid (deployed_as deployment.now).names) }
        requires many { length images.now ≡ length deployment.now.app.parts.items }
        requires images { AreImages T.mac (deployed_as deployment.now) (texts_of images.now) }
        ensures rest { Rest S.tells K.tells head_lines lines.old
            (command_at (S.at input.old) (K.at output.old))
            (command_at (S.at input.new) (K.at output.new)) result
            (behind T.mac (deployed_as deployment.now) (texts_of images.now)) }
        ensures wanted { result ≡ OutOfMemory → RanOutSince head_lines head_lines
            (may (deployed_as deployment.now)) S.tells (S.at input.old) (S.at input.new)
            lines.old lines.new };
}
