//! The lines that show the images of modules.

ghost use Rattle.std.specs.Prelude.{◌≡◌, ◌++◌, IfOk, OnOk, List};
ghost use Rattle.sx_io.specs.Reading.{Answer};
ghost use Rattle.command_promise.specs.Told.{Output, behind};
ghost use Rattle.command_promise.specs.Parts.{DoesPart};
ghost use Rattle.sx_image.specs.InMemory.{texts_of};
ghost use Rattle.command_text.specs.Output.{trace_line};
ghost use Rattle.command_world.specs.Images.{image_line, images_text};

use crate::digits::push_digits;
use command_promise::{Status, Turned, put_text};
use std::alloc::{AllocError, Global};
use sx_image::Image;
use sx_io::Sink;
use sx_lang::names::Name;
use sx_trace::names::Names;

/// Appends the line of an image.
#[tactic(auto, unfolding(crate::specs::Images::image_line))]
fn push_image(text: &mut Vec<u8>, name: &Name, image: &Image) -> Result<(), AllocError>
    ensures { OnOk result
        (text.new.items ≡ text.old.items ++ image_line name.now image.now.text.items) }
{
    text.extend_from_slice(b"image ")?;
    text.extend_from_slice(name.bytes())?;
    text.extend_from_slice(b" ")?;
    push_digits(text, &image.text)?;
    text.extend_from_slice(b"\n")
}

/// The lines of all images.
pub fn image_lines(alloc: Global, names: &[Name], images: &[Image]) -> Result<Vec<u8>, AllocError>
    ensures { IfOk result (λ text. text.items ≡ images_text names.now (texts_of images.now)) }
{
    let mut text = Vec::new(alloc);
    let mut i = 0;
    'images: while i < names.len() && i < images.len() {
        push_image(&mut text, &names[i], &images[i])?;
        i += 1;
    }
    Ok(text)
}

/// The lines of all images, and `trace`.
#[tactic(auto, unfolding(command_text::specs::Output::trace_line))]
fn images_text(alloc: Global, names: &Names, images: &[Image]) -> Result<Vec<u8>, AllocError>
    ensures { IfOk result (λ text.
        text.items ≡ images_text names.now.modules (texts_of images.now) ++ trace_line) }
{
    let mut text = image_lines(alloc, &names.modules, images)?;
    text.extend_from_slice(b"trace\n")?;
    Ok(text)
}

/// Writes the lines of all images.
pub fn put_images<K: Sink>(alloc: Global, names: &Names, images: &[Image], output: &mut K) -> Turned
    ensures { (left : List Answer → Output) → DoesPart K.tells (K.at output.old) (K.at output.new)
        (λ more. behind (images_text names.now.modules (texts_of images.now)) (left more))
        result left }
{
    match image_lines(alloc, &names.modules, images) {
        Ok(text) => put_text(output, &text),
        Err(_) => Turned::Stop(Status::OutOfMemory),
    }
}

/// Writes the lines of all images, and `trace`.
pub fn begin_trace<K: Sink>(
    alloc: Global,
    names: &Names,
    images: &[Image],
    output: &mut K,
) -> Turned
    ensures { (left : List Answer → Output) → DoesPart K.tells (K.at output.old) (K.at output.new)
        (λ more. behind (images_text names.now.modules (texts_of images.now) ++ trace_line)
        (left more)) result left }
{
    match images_text(alloc, names, images) {
        Ok(text) => put_text(output, &text),
        Err(_) => Turned::Stop(Status::OutOfMemory),
    }
}
