//! The code of a module's handlers, without the entry protocol.

ghost use Rattle.std.specs.Prelude.{◌≤◌, IfOk, length};
ghost use Rattle.sx_check.specs.Source.{source_tree};
ghost use Rattle.sx_mean.specs.EndLaws.{senders};
ghost use Rattle.sx_lower.specs.Lowering.{SendFew};
ghost use Rattle.sx_compile.specs.Body.{IsBody};
ghost use Rattle.sx_compile.specs.Compiled.{HasSections};

use crate::bodies::{Body, returns, starts};
use crate::compiling::lowerable;
use std::alloc::{AllocError as OutOfMemory, Global};
use sx_check::checked::Checked;
use sx_lower::lower;
use sx_mean::events::End;
use sx_rules::Layout;
use sx_tag::Tag;
use sx_tmpl::emit;

/// Compiles the handlers of a module alone, with these ends of connections, for tests and tools
/// that begin a handler themselves. The conditions are those of `compile`. The text is that of the
/// handlers' code alone, without entry protocol and padding. Where it is at the start of a
/// public section of this layout and the module is at a handler's `from`, it does the handler
/// within the handler's cost and comes to the handler's `to` (`specs/Body.antt`). It fails only
/// where memory runs out.
pub fn body<T: Tag>(
    alloc: Global,
    tag: &T,
    m: &Checked,
    ends: &[End],
    layout: &Layout,
) -> Result<Body, OutOfMemory>
    requires few { length ends.now ≤ 16 }
    requires packets { SendFew (senders ends.now) (source_tree m.now) (source_tree m.now).handlers }
    requires room { HasSections (source_tree m.now) ends.now layout.now }
    ensures { IfOk result (IsBody T.mac (source_tree m.now) ends.now layout.now) }
{
    lowerable(m, ends);
    let code = lower(alloc, tag, m, ends)?;
    let text = emit(alloc, tag, &code, layout)?;
    let from = starts(alloc, &code)?;
    let to = returns(alloc, &code)?;
    Ok(Body { text, from, to })
}
