//! The world of a deployment.

ghost use Rattle.std.specs.Prelude.{◌≡◌, IfOk, length};
ghost use Rattle.sx_deploy.specs.Law.{IsSoundDeployment};
ghost use Rattle.sx_deploy.specs.SeenDeployment.{deployed_as};
ghost use Rattle.sx_world.specs.InMemory.{image_setting};
ghost use Rattle.sx_world.specs.Standing.{Stands};
ghost use Rattle.spec_run.specs.State.{switched_on};

use crate::nodes::nodes_of;
use std::alloc::{AllocError, Global};
use sx_deploy::deployment::Deployment;
use sx_image::Image;
use sx_paged::PagedBus;
use sx_tag::Tag;
use sx_world::world::World;

/// The world of a deployment with these images of its modules, where all nodes were just switched
/// on.
pub fn new_world<T: Tag>(
    alloc: Global,
    tag: T,
    deployment: &Deployment,
    images: &[Image],
) -> Result<World<PagedBus, T>, AllocError>
    requires sound { IsSoundDeployment (deployed_as deployment.now) }
    requires many { length images.now ≡ length deployment.now.app.parts.items }
    ensures sites { IfOk result (λ world.
        world.sites ≡ (image_setting T.mac deployment.now images.now).sites) }
    ensures stands { IfOk result (λ world.
        Stands (image_setting T.mac deployment.now images.now) world
        (switched_on (image_setting T.mac deployment.now images.now))) }
    ensures performed { IfOk result (λ world. world.performed ≡ 0) }
{
    let nodes = nodes_of(alloc, &tag, deployment)?;
    World::new(alloc, tag, deployment, images, nodes)
}
