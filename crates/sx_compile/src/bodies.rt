//! Handlers as instructions, and where they begin and end.

ghost use Rattle.std.specs.Prelude.{◌≡◌, ◌<◌, IfOk, IsTrue, length, map};
ghost use Rattle.std.specs.List.{list_all};
ghost use Rattle.sx_ir.specs.Sizes.{bytes, offset};
ghost use Rattle.sx_ir.specs.Sound.{is_sound_part};
ghost use Rattle.sx_compile.specs.Body.{part_start, part_return};

use crate::compiling::lowerable;
use std::alloc::{AllocError as OutOfMemory, Global};
use sx_check::checked::Checked;
use sx_ir::{Code, offset};
use sx_lower::lower;
use sx_mean::events::End;
use sx_rules::Layout;
use sx_tag::Tag;
use sx_tmpl::emit;

/// The handlers of a module as instructions.
#[derive(Drop)]
pub struct Body {
    /// The text of their code.
    pub text: Vec<u8>,
    /// For each handler the offset in the text at which its part begins.
    pub from: Vec<u16>,
    /// For each handler the offset of its return, where it has ended.
    pub to: Vec<u16>,
}

/// Where the instructions of an operation begin.
fn place_offset(code: &Code, place: u16) -> u16
    requires there { place < length code.now.ops.items }
    requires small { bytes code.now.ops.items < 65536 }
    ensures { result ≡ offset code.now.ops.items place }
{
    offset(code, place) as u16
}

/// Where each part of the code begins in its text.
pub(crate) fn starts(alloc: Global, code: &Code) -> Result<Vec<u16>, OutOfMemory>
    requires there { IsTrue (list_all (is_sound_part (length code.now.ops.items))
        code.now.parts.items) }
    requires small { bytes code.now.ops.items < 65536 }
    ensures { IfOk result (λ v. v.items ≡ map (part_start code.now.ops.items)
        code.now.parts.items) }
{
    let mut starts = Vec::new(alloc);
    for part in &code.parts {
        starts.push(place_offset(code, part.0))?;
    }
    Ok(starts)
}

/// Where the return of each part of the code begins.
pub(crate) fn returns(alloc: Global, code: &Code) -> Result<Vec<u16>, OutOfMemory>
    requires there { IsTrue (list_all (is_sound_part (length code.now.ops.items))
        code.now.parts.items) }
    requires small { bytes code.now.ops.items < 65536 }
    ensures { IfOk result (λ v. v.items ≡ map (part_return code.now.ops.items)
        code.now.parts.items) }
{
    let mut returns = Vec::new(alloc);
    for part in &code.parts {
        returns.push(place_offset(code, part.1.saturating_sub(1)))?;
    }
    Ok(returns)
}
