//! From a checked module to its image.

ghost use Rattle.std.specs.Prelude.{All, ◌≡◌, ◌<◌, ◌≤◌, IfOk, OnOk, length};
ghost use Rattle.sx_check.specs.Source.{source_tree};
ghost use Rattle.sx_mean.specs.EndLaws.{senders};
ghost use Rattle.sx_lower.specs.Lowering.{IsLowerable, SendFew};
ghost use Rattle.sx_compile.specs.Compiled.{CompilesTo, HasSections, IsCompiled, padded_to};

use std::alloc::{AllocError as OutOfMemory, Global};
use sx_check::checked::Checked;
use sx_image::Image;
use sx_ir::{Code, join};
use sx_lang::words::words;
use sx_lower::lower;
use sx_mean::events::End;
use sx_rules::Layout;
use sx_stub::{links_fit, stub};
use sx_tag::Tag;
use sx_tmpl::emit;

/// Appends zeros up to this length.
fn pad(text: &mut Vec<u8>, len: usize) -> Result<(), OutOfMemory>
    ensures { OnOk result (text.new.items ≡ padded_to len text.old.items) }
{
    text.resize(len.max(text.len()), 0)
}

/// What is asked of a module and its ends holds of a checked one.
pub(crate) fn lowerable(m: &Checked, ends: &[End])
    requires few { length ends.now ≤ 16 }
    requires packets { SendFew (senders ends.now) (source_tree m.now) (source_tree m.now).handlers }
    ensures { IsLowerable (source_tree m.now) ends.now }
{
    words(m.module());
}

/// The module's stack code: the entry protocol, and after it the parts of the handlers.
fn code_of<T: Tag>(
    alloc: Global,
    tag: &T,
    m: &Checked,
    ends: &[End],
    layout: &Layout,
) -> Result<Code, OutOfMemory>
    requires able { IsLowerable (source_tree m.now) ends.now }
    requires links { All (λ e. e.link < 256) ends.now }
    requires room { HasSections (source_tree m.now) ends.now layout.now }
    ensures { IfOk result (IsCompiled (source_tree m.now) ends.now) }
{
    let protocol = stub(alloc, tag, m, ends, layout)?;
    let handlers = lower(alloc, tag, m, ends)?;
    join(alloc, tag, &protocol, &handlers)
}

/// Compiles a module with these ends of connections: its entry protocol and its handlers as stack
/// code, the text of their instructions, and zeros up to the end of the public section. The layout
/// has sections of exactly the module's weight and data size, at even addresses below 65,536, and
/// no handler makes more than 16 packets. The image is exactly `compiled_image`, and it realizes
/// the module: on every node where it is protected, a call that enters it does what the entry
/// protocol and the handlers say, within the module's cost. The bytes are the same for every tag.
/// It fails only where memory runs out.
pub fn compile<T: Tag>(
    alloc: Global,
    tag: &T,
    m: &Checked,
    ends: &[End],
    layout: &Layout,
    provider: u16,
) -> Result<Image, OutOfMemory>
    requires few { length ends.now ≤ 16 }
    requires packets { SendFew (senders ends.now) (source_tree m.now) (source_tree m.now).handlers }
    requires room { HasSections (source_tree m.now) ends.now layout.now }
    ensures { IfOk result (CompilesTo T.mac (source_tree m.now) ends.now layout.now provider) }
{
    links_fit(ends);
    lowerable(m, ends);
    let code = code_of(alloc, tag, m, ends, layout)?;
    let mut text = emit(alloc, tag, &code, layout)?;
    pad(&mut text, usize::from(layout.pub_to - layout.pub_from))?;
    Ok(Image {
        text,
        layout: *layout,
        provider,
    })
}
