//! The images of a deployment's modules.

ghost use Rattle.std.specs.Prelude.{◌≡◌, ◌<◌, ◌≤◌, All, IfOk, length, map, slice_get, Some};
ghost use Rattle.sx_lower.specs.Lowering.{SendFew};
ghost use Rattle.sx_check.specs.Source.{source_tree};
ghost use Rattle.sx_mean.specs.Ends.{ends_of};
ghost use Rattle.sx_mean.specs.EndLaws.{senders};
ghost use Rattle.sx_deploy.specs.Law.{IsSoundDeployment};
ghost use Rattle.sx_deploy.specs.SeenDeployment.{deployed_as};
ghost use Rattle.sx_image.specs.InMemory.{plain, texts_of};
ghost use Rattle.sx_compile.specs.Compiled.{HasSections};
ghost use Rattle.spec_run.specs.Accepted.{AreByteTexts};
ghost use Rattle.command_world.specs.Built.{BuiltAt, AreBuilt};

use std::alloc::{AllocError, Global};
use sx_compile::compile;
use sx_deploy::deployment::Deployment;
use sx_image::Image;
use sx_mean::apps::Part;
use sx_mean::events::End;
use sx_rules::Layout;
use sx_tag::Tag;

/// What the compiler asks of a module holds of one of an accepted deployment. It does nothing, and
/// is called before `compile` for what it says.
fn can_be_compiled(deployment: &Deployment, number: u8, part: &Part, ends: &[End], layout: &Layout)
    requires sound { IsSoundDeployment (deployed_as deployment.now) }
    requires part { slice_get deployment.now.app.parts.items number ≡ Some part.now }
    requires layout { slice_get deployment.now.layouts.items number ≡ Some layout.now }
    requires ends { ends.now ≡ ends_of (deployed_as deployment.now).app number }
    ensures few { length ends.now ≤ 16 }
    ensures packets { let tree = source_tree part.now.code in
        SendFew (senders ends.now) tree tree.handlers }
    ensures room { HasSections (source_tree part.now.code) ends.now layout.now }
{}

/// The image of the module of this number.
fn compile_part<T: Tag>(
    alloc: Global,
    tag: &T,
    deployment: &Deployment,
    number: u8,
) -> Result<Image, AllocError>
    requires sound { IsSoundDeployment (deployed_as deployment.now) }
    requires within { number < length deployment.now.app.parts.items }
    ensures { IfOk result (λ image.
        BuiltAt T.mac (deployed_as deployment.now) number (plain image)) }
{
    let place = usize::from(number);
    let ends = deployment.ends(alloc, number)?;
    let part = &deployment.app.parts[place];
    let layout = &deployment.layouts[place];
    can_be_compiled(deployment, number, part, &ends, layout);
    compile(
        alloc,
        tag,
        &part.code,
        &ends,
        layout,
        deployment.providers[place],
    )
}

/// A text is a list of bytes, by its type.
fn are_bytes(text: &[u8])
    ensures { All (λ b. b < 256) text.now }
{}

/// So are the texts of images. The loop does nothing but go through them, so that it is said of
/// each.
fn have_bytes(images: &[Image])
    ensures { AreByteTexts (texts_of images.now) }
{
    for image in images {
        are_bytes(&image.text);
    }
}

/// The images of all modules, in order.
pub fn compile_all<T: Tag>(
    alloc: Global,
    tag: &T,
    deployment: &Deployment,
) -> Result<Vec<Image>, AllocError>
    requires { IsSoundDeployment (deployed_as deployment.now) }
    ensures all { IfOk result (λ images.
        length images.items ≡ length deployment.now.app.parts.items) }
    ensures built { IfOk result (λ images.
        AreBuilt T.mac (deployed_as deployment.now) (map plain images.items)) }
    ensures bytes { IfOk result (λ images. AreByteTexts (texts_of images.items)) }
{
    let mut images = Vec::new(alloc);
    let mut number: u8 = 0;
    'modules: while usize::from(number) < deployment.app.parts.len() {
        images.push(compile_part(alloc, tag, deployment, number)?)?;
        number += 1;
    }
    have_bytes(&images);
    Ok(images)
}
