//! The image of a module, and the bytes of its identity.

ghost use Rattle.std.specs.Prelude.{◌≡◌, IfOk};
ghost use Rattle.sx_image.specs.InMemory.{identity_of, plain};

use std::alloc::{AllocError as OutOfMemory, Global};
use sx_rules::Layout;
use sx_tag::layout_bytes;

/// A compiled module.
#[derive(Drop)]
pub struct Image {
    /// The bytes of its public section.
    pub text: Vec<u8>,
    /// Where it lies.
    pub layout: Layout,
    /// The number of the software provider.
    pub provider: u16,
}

/// The identity of a module that is protected from this image: its text, and then its layout's four
/// bounds of two bytes each. The module's key is derived from it (Sancus 2.0). It fails only where
/// memory runs out.
#[tactic(auto, unfolding(sx_tag::specs::Keys::identity))]
pub fn identity(alloc: Global, image: &Image) -> Result<Vec<u8>, OutOfMemory>
    ensures { IfOk result (λ bytes. bytes.items ≡ identity_of (plain image.now)) }
{
    let l = &image.layout;
    let mut bytes = Vec::new(alloc);
    bytes.extend_from_slice(&image.text)?;
    bytes.extend_from_slice(&layout_bytes(l.pub_from, l.pub_to, l.priv_from, l.priv_to))?;
    Ok(bytes)
}
