//! From stack code to the text of its instructions.

ghost use Rattle.std.specs.Prelude.{◌≡◌, ◌<◌, ◌+◌, ◌*◌, ℕ, OnOk, IfOk, IsTrue, Some, length};
ghost use Rattle.std.specs.Prelude.{slice_get};
ghost use Rattle.sx_mean.specs.Offsets.{end_at};
ghost use Rattle.sx_mean.specs.Working.{stack_to};
ghost use Rattle.sx_ir.specs.Sizes.{bytes, has_routine};
ghost use Rattle.sx_ir.specs.declared.ir.Ir.{Ir};
ghost use Rattle.sx_ir.specs.Sound.{is_sound};
ghost use Rattle.sx_tmpl.specs.Fits.{OperationFits, IsTable};
ghost use Rattle.sx_tmpl.specs.Performs.{DoesCode, HasRoom};
ghost use Rattle.sx_tmpl.specs.Text.{addresses, bytes_of, packet_words, packet_words_of};
ghost use Rattle.sx_tmpl.specs.Text.{text_words, words_of, PutsWords};

use crate::put::put_words;
use crate::routines::{put_entry, put_exit, put_routine, put_slots};
use crate::table::{END_COUNT, Table};
use crate::templates::put_operation;
use std::alloc::{AllocError as OutOfMemory, Global};
use sx_ir::Code;
use sx_rules::Layout;
use sx_tag::Tag;

#[tactic(auto, using(crate::proofs::Texts::TextTurns::turn))]
fn put_operations(
    text: &mut Vec<u8>,
    code: &Code,
    layout: &Layout,
    table: &Table,
) -> Result<(), OutOfMemory>
    requires table { IsTable layout.now code.now table.now }
    requires fits { (p : ℕ) (i : Ir) → slice_get code.now.ops.items p ≡ Some i
        → OperationFits layout.now code.now i }
    ensures { OnOk result (PutsWords (words_of layout.now (addresses layout.now code.now) 0
        code.now.ops.items) text.old.items text.new.items) }
{
    for (place, operation) in code.ops.iter().enumerate() {
        put_operation(text, code, layout, table, place, operation)?;
    }
    Ok(())
}

/// Appends the packet routine of an end that has one.
fn put_packet(
    text: &mut Vec<u8>,
    code: &Code,
    layout: &Layout,
    table: &Table,
    end: usize,
) -> Result<(), OutOfMemory>
    requires table { IsTable layout.now code.now table.now }
    requires end { end < END_COUNT }
    requires slot { IsTrue (has_routine code.now.ops.items end)
        → layout.now.priv_from + end_at (end + 1) < 65536 }
    requires base { layout.now.priv_from + stack_to < 65536 }
    ensures { OnOk result (PutsWords (packet_words_of layout.now.priv_from code.now.ops.items end)
        text.old.items text.new.items) }
{
    if table.has_routine(code, layout, end) {
        put_routine(text, layout.priv_from, end as u8)
    } else {
        Ok(())
    }
}

/// Appends the packet routines.
#[tactic(auto, using(crate::proofs::Texts::TextTurns::packets_none, crate::proofs::Texts::TextTurns::packets_turn))]
fn put_packets(
    text: &mut Vec<u8>,
    code: &Code,
    layout: &Layout,
    table: &Table,
) -> Result<(), OutOfMemory>
    requires table { IsTable layout.now code.now table.now }
    requires slots { (k : ℕ) → k < END_COUNT → IsTrue (has_routine code.now.ops.items k)
        → layout.now.priv_from + end_at (k + 1) < 65536 }
    requires base { layout.now.priv_from + stack_to < 65536 }
    ensures { OnOk result (PutsWords (packet_words layout.now.priv_from code.now.ops.items END_COUNT)
        text.old.items text.new.items) }
{
    for end in 0..END_COUNT {
        put_packet(text, code, layout, table, end)?;
    }
    Ok(())
}

/// Appends the text of a code in a section of this layout.
fn put_text(
    text: &mut Vec<u8>,
    code: &Code,
    layout: &Layout,
    table: &Table,
) -> Result<(), OutOfMemory>
    requires table { IsTable layout.now code.now table.now }
    requires base { layout.now.priv_from + stack_to < 65536 }
    requires fits { (p : ℕ) (i : Ir) → slice_get code.now.ops.items p ≡ Some i
        → OperationFits layout.now code.now i }
    requires slots { (k : ℕ) → k < END_COUNT → IsTrue (has_routine code.now.ops.items k)
        → layout.now.priv_from + end_at (k + 1) < 65536 }
    ensures { OnOk result (PutsWords (text_words layout.now code.now) text.old.items
        text.new.items) }
{
    put_entry(text, layout.priv_from)?;
    put_operations(text, code, layout, table)?;
    put_exit(text, layout.priv_from)?;
    put_slots(text, layout.priv_from)?;
    put_packets(text, code, layout, table)?;
    put_words(text, &[0])?;
    Ok(())
}

/// The text of stack code in a section of this layout, as `specs/Text.antt` defines it: the entry,
/// the template of each operation in order, the exit, the routine that opens a slot, a packet
/// routine for each end of which some operation makes a packet, and a word of 0. The tag is that of
/// the node on which the text is said to do the code. The error says that memory ran out.
pub fn emit<T: Tag>(
    alloc: Global,
    tag: &T,
    code: &Code,
    layout: &Layout,
) -> Result<Vec<u8>, OutOfMemory>
    requires room { HasRoom layout.now }
    requires sound { IsTrue (is_sound code.now.ops.items code.now.parts.items layout.now) }
    ensures text { IfOk result (λ text. text.items ≡ bytes_of (text_words layout.now code.now)) }
    ensures size { IfOk result (λ text. length text.items ≡ bytes code.now.ops.items) }
    ensures does { IfOk result (λ text. DoesCode T.mac code.now layout.now text.items) }
{
    let table = Table::new(alloc, code, layout)?;
    // A section is filled up with zeros after its text, so there is room for these too.
    let section = layout.pub_to.saturating_sub(layout.pub_from);
    let mut text = Vec::with_capacity(alloc, usize::from(section))?;
    put_text(&mut text, code, layout, &table)?;
    Ok(text)
}
