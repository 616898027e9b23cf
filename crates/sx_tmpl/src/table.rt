//! Where the parts of a text are.

ghost use Rattle.std.specs.Prelude.{◌≡◌, ◌<◌, ◌+◌, IfOk, length, slice_index, slice_index_or};
ghost use Rattle.std.specs.Prelude.{false};
ghost use Rattle.sx_ir.specs.Sizes.{bytes, has_routine, op_bytes, ops_bytes};
ghost use Rattle.sx_tmpl.specs.Fits.{AreCounts, AreNoted, IsTable, none_noted, with_note};
ghost use Rattle.sx_tmpl.specs.Fits.{with_notes};
ghost use Rattle.sx_tmpl.specs.Text.{places_from};

use std::alloc::{AllocError as OutOfMemory, Global};
use sx_ir::{Code, ENTRY, Ir, op_bytes};
use sx_rules::Layout;

/// Where in the routine that opens a slot a word of zeros is: the index 0 of its first instruction.
pub const ZERO: u16 = 4;

/// As many ends as a byte names.
pub const END_COUNT: usize = 256;

/// Where the parts of a code's text are. After the operations are the exit, the routine that
/// opens a slot, and a packet routine for each end of which some operation makes a packet.
#[derive(Drop)]
pub struct Table {
    /// The address of each operation, and last that of the exit.
    pub places: Vec<u16>,
    /// For each end, whether it has a packet routine.
    pub noted: Vec<bool>,
    /// For each end, how many packet routines are before its own.
    pub routines: Vec<u16>,
}

impl Table {
    /// The addresses of a code's text in a section of this layout. The error says that memory ran
    /// out.
    #[tactic(auto, using(crate::proofs::Texts::TextTurns::table_is))]
    pub fn new(alloc: Global, code: &Code, layout: &Layout) -> Result<Table, OutOfMemory>
        requires { layout.now.pub_from + bytes code.now.ops.items < 65536 }
        ensures { IfOk result (λ table. IsTable layout.now code.now table) }
    {
        let places = places(alloc, layout.pub_from + ENTRY, &code.ops)?;
        let noted = noted_ends(alloc, &code.ops)?;
        let routines = routine_counts(alloc, &code.ops, &noted)?;
        Ok(Table {
            places,
            noted,
            routines,
        })
    }

    /// The address of a place; the place after the operations is the exit's.
    pub fn at(&self, place: usize) -> u16
        requires { place < length self.now.places.items }
        ensures { result ≡ slice_index self.now.places.items place }
    {
        self.places[place]
    }

    /// Whether an end has a packet routine.
    pub fn has_routine(&self, code: &Code, layout: &Layout, end: usize) -> bool
        requires table { IsTable layout.now code.now self.now }
        requires end { end < END_COUNT }
        ensures { result ≡ has_routine code.now.ops.items end }
    {
        has_routine(&code.ops, &self.noted, end)
    }

    /// How many packet routines are before that of an end.
    pub fn preceding(&self, end: usize) -> u16
        requires { end < length self.now.routines.items }
        ensures { result ≡ slice_index self.now.routines.items end }
    {
        self.routines[end]
    }
}

/// The address of each operation, where the first is at `from`, and of what follows the last.
fn places(alloc: Global, from: u16, ops: &[Ir]) -> Result<Vec<u16>, OutOfMemory>
    requires { from + ops_bytes ops.now < 65536 }
    ensures { IfOk result (λ places. places.items ≡ places_from from ops.now) }
{
    let mut places = Vec::with_capacity(alloc, ops.len() + 1)?;
    let mut next = from;
    for op in ops {
        places.push(next)?;
        next += op_bytes(op);
    }
    places.push(next)?;
    Ok(places)
}

/// As many ends, none of them noted. The count is a variable, since no proof is to compute them.
#[tactic(auto, unfolding(crate::specs::Fits::none_noted))]
fn none_noted(alloc: Global, count: usize) -> Result<Vec<bool>, OutOfMemory>
    ensures noted { IfOk result (λ noted. noted.items ≡ none_noted count) }
    ensures length { IfOk result (λ noted. length noted.items ≡ count) }
{
    vec![in alloc; false; count]
}

/// Notes the end that an operation makes a packet of.
fn note(noted: &mut [bool], op: &Ir)
    requires { length noted.old ≡ END_COUNT }
    ensures noted { noted.new ≡ with_note op.now noted.old }
    ensures length { length noted.new ≡ END_COUNT }
{
    match op {
        Ir::Packet(end) => noted[*end as usize] = true,
        _ => {}
    }
}

/// For each end, whether it has a packet routine: one pass over the operations notes those that
/// have one.
fn noted_ends(alloc: Global, ops: &[Ir]) -> Result<Vec<bool>, OutOfMemory>
    ensures { IfOk result (λ noted. AreNoted ops.now noted.items) }
{
    let mut noted = none_noted(alloc, END_COUNT)?;
    for op in ops {
        note(&mut noted, op);
    }
    Ok(noted)
}

fn is_noted(noted: &[bool], end: usize) -> bool
    ensures { result ≡ slice_index_or noted.now end false }
{
    match noted.get(end) {
        Some(true) => true,
        _ => false,
    }
}

/// Whether an end has a packet routine, where those of these operations are noted.
fn has_routine(ops: &[Ir], noted: &[bool], end: usize) -> bool
    requires noted { AreNoted ops.now noted.now }
    requires end { end < END_COUNT }
    ensures { result ≡ has_routine ops.now end }
{
    is_noted(noted, end)
}

/// For each end, how many of those before it have a packet routine.
#[tactic(auto, using(crate::proofs::Texts::TextTurns::counts_none, crate::proofs::Texts::TextTurns::no_routines, crate::proofs::Texts::TextTurns::counts_turn, crate::proofs::Texts::TextTurns::one_more, crate::proofs::Texts::TextTurns::none_more))]
fn routine_counts(alloc: Global, ops: &[Ir], noted: &[bool]) -> Result<Vec<u16>, OutOfMemory>
    requires { AreNoted ops.now noted.now }
    ensures { IfOk result (λ counts. AreCounts ops.now END_COUNT counts.items) }
{
    let mut counts = Vec::with_capacity(alloc, END_COUNT)?;
    let mut count: u16 = 0;
    for end in 0..END_COUNT {
        counts.push(count)?;
        if has_routine(ops, noted, end) {
            count += 1;
        }
    }
    Ok(counts)
}
