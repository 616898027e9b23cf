//! The command `snap`: after the head it keeps a schedule, and answers queries about its run after
//! any line.

ghost use Rattle.std.specs.Prelude.{◌≡◌, IfOk, [], length};
ghost use Rattle.command_promise.specs.Told.{command_at};
ghost use Rattle.sx_deploy.specs.Law.{IsSoundDeployment};
ghost use Rattle.sx_deploy.specs.SeenDeployment.{deployed_as};
ghost use Rattle.spec_run.specs.Accepted.{AreImages};
ghost use Rattle.sx_image.specs.InMemory.{texts_of};
ghost use Rattle.sx_world.specs.InMemory.{image_setting};
ghost use Rattle.sx_snap.specs.Checkpoints.{IsTimeline};
ghost use Rattle.command_snap.specs.Promise.{SnapPromise};

use crate::schedule::snap_built;
use command_deploy::{Deploys, deploy_over};
use command_promise::Status;
use command_world::nodes::nodes_of;
use std::alloc::{AllocError, Global};
use sx_deploy::deployment::Deployment;
use sx_image::Image;
use sx_io::{Lines, Sink, Source};
use sx_paged::PagedBus;
use sx_snap::Timeline;
use sx_tag::Tag;

/// A checkpoint comes after each so many lines, so a query performs fewer lines than this. The
/// longest schedule has 8 of them, each a world of its own; more would take more memory.
const EVERY: u32 = 8192;

/// The timeline of a deployment with these images of its modules, without a line.
fn new_timeline<T: Tag>(
    alloc: Global,
    tag: T,
    deployment: &Deployment,
    images: &[Image],
) -> Result<Timeline<PagedBus, T>, AllocError>
    requires sound { IsSoundDeployment (deployed_as deployment.now) }
    requires many { length images.now ≡ length deployment.now.app.parts.items }
    requires images { AreImages T.mac (deployed_as deployment.now) (texts_of images.now) }
    ensures timeline { IfOk result (λ t. IsTimeline T.mac (deployed_as deployment.now) t) }
    ensures sites { IfOk result (λ t.
        t.sites ≡ (image_setting T.mac deployment.now images.now).sites) }
    ensures lines { IfOk result (λ t. t.lines ≡ []) }
    ensures every { IfOk result (λ t. t.every ≡ EVERY) }
{
    let nodes = nodes_of(alloc, &tag, deployment)?;
    Timeline::new(alloc, tag, deployment, images, nodes, EVERY)
}

/// The command `snap`, as one that deploys.
struct SnapCommand;

impl Deploys for SnapCommand {
    ghost use Rattle.command_snap.specs.Output.{snap_deployed};
    ghost use Rattle.command_snap.specs.Wants.{snap_may};

    ghost behind = { snap_deployed };

    ghost may = { snap_may };

    /// Answers the queries about a deployment with these images of its modules.
    fn perform<S: Source, K: Sink, T: Tag>(
        alloc: Global,
        tag: T,
        lines: &mut Lines,
        input: &mut S,
        output: &mut K,
        deployment: &Deployment,
        images: &[Image],
    ) -> Status {
        match new_timeline(alloc, tag, deployment, images) {
            Ok(mut timeline) => {
                snap_built(
                    alloc,
                    lines,
                    input,
                    output,
                    deployment,
                    images,
                    &mut timeline,
                )
            }
            Err(_) => Status::OutOfMemory,
        }
    }
}

/// The command `snap` over any tag: a deployment, the line `%%`, a schedule, a second line `%%` and
/// queries. The schedule is read and judged to its end before anything is written; then come the
/// images and the answers, each before the next query is read. Gives the exit status, as `top` does
/// for this command.
pub fn snap_over<S: Source, K: Sink, T: Tag>(
    alloc: Global,
    tag: T,
    input: &mut S,
    output: &mut K,
) -> Status
    ensures { SnapPromise T.mac S.tells K.tells (command_at (S.at input.old) (K.at output.old))
        (command_at (S.at input.new) (K.at output.new)) result }
{
    deploy_over::<SnapCommand, S, K, T>(alloc, tag, input, output)
}
