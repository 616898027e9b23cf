//! The template of each operation.

ghost use Rattle.std.specs.Prelude.{◌≡◌, ℕ, ◌≤◌, ◌<◌, ◌+◌, ◌*◌, OnOk, length, true};
ghost use Rattle.sx_isa.specs.Standing.{words_of};
ghost use Rattle.sx_ir.specs.Sizes.{exit_bytes, packet_bytes, routines, slot_bytes, turn_size};
ghost use Rattle.sx_tmpl.specs.Scratch.{return_at};
ghost use Rattle.sx_tmpl.specs.Fits.{AreSealed, OperationFits, IsTable, is_plain};
ghost use Rattle.sx_tmpl.specs.Template.{Addresses, copy_in_words, copy_out_words, handler_words};
ghost use Rattle.sx_tmpl.specs.Template.{inside_words, key_word, load_at_words, meets_words};
ghost use Rattle.sx_tmpl.specs.Template.{multiply_words, opening_words, operator_words};
ghost use Rattle.sx_tmpl.specs.Template.{sealing_words, store_at_words, template, turns};
ghost use Rattle.sx_tmpl.specs.Text.{addresses, part_place, PutsWords};

use crate::put::{put, put_words};
use crate::scratch::{CALLER, IN_WINDOW, OUT_WINDOW, RETURN};
use crate::table::{Table, ZERO};
use std::alloc::AllocError as OutOfMemory;
use sx_ir::{Code, EXIT, Ir, IrOp, PACKET_ROUTINE, SLOT_ROUTINE, turn_size};
use sx_isa::Operand::{Absolute, Const, Immediate, Increment, Indexed, Indirect};
use sx_isa::assembly::{POPPED, R9, R10, R11, R12, R13, R14, R15, SP, TOP};
use sx_mean::offsets::{PIECES, end_at, saved_at};
use sx_rules::Layout;

/// A product is put by fours, since compiled code has many.
fn put_product(text: &mut Vec<u8>) -> Result<(), OutOfMemory>
    ensures { OnOk result (PutsWords multiply_words text.old.items text.new.items) }
{
    put! { text; pop R12; pop R13; clr R14; mov Immediate(16), R15; }?;
    put! { text; rla R14; rla R12; jnc 1; add R13, R14; }?;
    put! { text; dec R15; jnz -6; push R14; }
}

fn put_operator(text: &mut Vec<u8>, operator: IrOp) -> Result<(), OutOfMemory>
    ensures { OnOk result (PutsWords (operator_words operator) text.old.items text.new.items) }
{
    match operator {
        IrOp::Add => put! { text; add POPPED, TOP; },
        IrOp::Sub => put! { text; sub POPPED, TOP; },
        IrOp::Mul => put_product(text),
        IrOp::And => put! { text; and POPPED, TOP; },
        IrOp::Or => put! { text; bis POPPED, TOP; },
        IrOp::Xor => put! { text; xor POPPED, TOP; },
        IrOp::Eq => put! { text; cmp POPPED, TOP; clr TOP; jnz 2; mov Const(1), TOP; },
        IrOp::Lt => put! { text; cmp POPPED, TOP; clr TOP; jc 2; mov Const(1), TOP; },
        IrOp::Neg => put! { text; clr R12; sub Indirect(1), R12; mov R12, TOP; },
        IrOp::Inv => put! { text; mov Const(0xffff), R12; sub Indirect(1), R12; mov R12, TOP; },
        IrOp::Not => put! { text; tst TOP; clr TOP; jnz 2; mov Const(1), TOP; },
    }
}

fn put_load_at(text: &mut Vec<u8>, start: u16, length: u16) -> Result<(), OutOfMemory>
    ensures { OnOk result (PutsWords (load_at_words start length) text.old.items text.new.items) }
{
    put! {
        text;
        pop R12;
        cmp Immediate(length), R12;
        jnc 2;
        push Const(0);
        jmp 3;
        add R12, R12;
        push Indexed(12, start);
    }
}

fn put_store_at(text: &mut Vec<u8>, start: u16, length: u16) -> Result<(), OutOfMemory>
    ensures { OnOk result (PutsWords (store_at_words start length) text.old.items text.new.items) }
{
    put! {
        text;
        pop R13;
        pop R12;
        cmp Immediate(length), R12;
        jc 3;
        add R12, R12;
        mov R13, Indexed(12, start);
    }
}

/// `back` is where the caller's return address is kept, `from` and `to` bound the public section.
fn put_inside(text: &mut Vec<u8>, back: u16, from: u16, to: u16) -> Result<(), OutOfMemory>
    ensures { OnOk result (PutsWords (inside_words back from to) text.old.items text.new.items) }
{
    put! {
        text;
        mov Absolute(back), R12;
        cmp Immediate(from), R12;
        jnc 4;
        cmp Immediate(to), R12;
        jc 1;
    }?;
    put_words(text, &[0])
}

/// `saved` is where the caller's register is kept, `from` and `to` bound the private section.
fn put_meets(
    text: &mut Vec<u8>,
    saved: u16,
    from: u16,
    to: u16,
    length: u16,
) -> Result<(), OutOfMemory>
    requires length { 2 ≤ length }
    requires below { from < 65535 }
    ensures { OnOk result (PutsWords (meets_words saved from to length) text.old.items
        text.new.items) }
{
    let past = u16::MAX - length + 2;
    let before = (from + 1).saturating_sub(length);
    put! {
        text;
        mov Absolute(saved), R12;
        cmp Immediate(past), R12;
        jc 6;
        cmp Immediate(to), R12;
        jc 5;
        cmp Immediate(before), R12;
        jnc 2;
        push Const(1);
        jmp 1;
        push Const(0);
    }
}

/// The turns of a copy of `count` bytes: from R13 on to R12 on, as often as R15 says. The error says
/// that memory ran out.
pub fn put_turns(text: &mut Vec<u8>, count: u16) -> Result<(), OutOfMemory>
    ensures { OnOk result (PutsWords (words_of (turns (turn_size count))) text.old.items
        text.new.items) }
{
    if count % 8 == 0 {
        put! {
            text;
            mov_b Increment(13), Indexed(12, 0);
            mov_b Increment(13), Indexed(12, 1);
            mov_b Increment(13), Indexed(12, 2);
            mov_b Increment(13), Indexed(12, 3);
        }?;
        put! {
            text;
            mov_b Increment(13), Indexed(12, 4);
            mov_b Increment(13), Indexed(12, 5);
            mov_b Increment(13), Indexed(12, 6);
            mov_b Increment(13), Indexed(12, 7);
        }?;
        put! { text; add Const(8), R12; dec R15; jnz -19; }
    } else {
        put! {
            text;
            mov_b Increment(13), Indexed(12, 0);
            inc R12;
            dec R15;
            jnz -5;
        }
    }
}

/// `window` is where the caller's in-window is kept, and `to` where its bytes go.
fn put_copy_in(text: &mut Vec<u8>, window: u16, to: u16, count: u16) -> Result<(), OutOfMemory>
    ensures { OnOk result (PutsWords (copy_in_words window to count) text.old.items
        text.new.items) }
{
    let turns = count / turn_size(count);
    put! {
        text;
        mov Absolute(window), R13;
        mov Immediate(to), R12;
        mov Immediate(turns), R15;
    }?;
    put_turns(text, count)
}

/// `window` is where the caller's out-window is kept, and `from` where the bytes are.
fn put_copy_out(text: &mut Vec<u8>, window: u16, from: u16, count: u16) -> Result<(), OutOfMemory>
    ensures { OnOk result (PutsWords (copy_out_words window from count) text.old.items
        text.new.items) }
{
    let turns = count / turn_size(count);
    put! {
        text;
        pop R12;
        add Absolute(window), R12;
        mov Immediate(from), R13;
        mov Immediate(turns), R15;
    }?;
    put_turns(text, count)
}

/// `next` is the address of the next operation, `part` that of the handler's part.
fn put_handler(text: &mut Vec<u8>, base: u16, next: u16, part: u16) -> Result<(), OutOfMemory>
    requires { base + return_at < 65536 }
    ensures { OnOk result (PutsWords (handler_words base next part) text.old.items text.new.items) }
{
    put! {
        text;
        clr Absolute(base + PIECES);
        mov Immediate(next), Absolute(base + RETURN);
        br Immediate(part);
    }
}

/// The first place of a handler's part.
#[tactic(auto, using(crate::proofs::Texts::TextTurns::part_is))]
fn first_place(parts: &[(u16, u16)], handler: u8) -> u16
    requires { handler < length parts.now }
    ensures { result ≡ part_place parts.now handler }
{
    parts[usize::from(handler)].0
}

/// The address of a key, or 0 for the module's own.
fn key_address(base: u16, key: u16) -> u16
    requires { base + key < 65536 }
    ensures { result ≡ key_word base key }
{
    if key == 0 { 0 } else { base + key }
}

/// The key, the header, the body and after the header the cipher and the tag are named by offsets
/// from `base`; 0 is the module's own key.
fn put_seal(
    text: &mut Vec<u8>,
    base: u16,
    key: u16,
    header: u16,
    header_length: u8,
    body: u16,
    length: u8,
) -> Result<(), OutOfMemory>
    requires fits { AreSealed base key header header_length body length }
    ensures { OnOk result (PutsWords (sealing_words base key header header_length body length)
        text.old.items text.new.items) }
{
    let cipher = header + u16::from(header_length);
    let tag = cipher + u16::from(length);
    let (key, header, body) = (key_address(base, key), base + header, base + body);
    let (cipher, tag) = (base + cipher, base + tag);
    let (header_len, length) = (u16::from(header_length), u16::from(length));
    put! {
        text;
        mov Immediate(key), R9;
        mov Immediate(header), R10;
        mov Immediate(header_len), R11;
        mov Immediate(body), R12;
        mov Immediate(length), R13;
        mov Immediate(cipher), R14;
        mov Immediate(tag), R15;
        wrap;
        clr R9;
    }
}

/// As `put_seal`, where the cipher is opened.
fn put_open(
    text: &mut Vec<u8>,
    base: u16,
    key: u16,
    header: u16,
    header_length: u8,
    body: u16,
    length: u8,
) -> Result<(), OutOfMemory>
    requires fits { AreSealed base key header header_length body length }
    ensures { OnOk result (PutsWords (opening_words base key header header_length body length)
        text.old.items text.new.items) }
{
    let cipher = header + u16::from(header_length);
    let tag = cipher + u16::from(length);
    let (key, header, body) = (key_address(base, key), base + header, base + body);
    let (cipher, tag) = (base + cipher, base + tag);
    let (header_len, length) = (u16::from(header_length), u16::from(length));
    put! {
        text;
        mov Immediate(key), R9;
        mov Immediate(header), R10;
        mov Immediate(header_len), R11;
        mov Immediate(cipher), R12;
        mov Immediate(length), R13;
        mov Immediate(body), R14;
        mov Immediate(tag), R15;
        unwrap;
        push R15;
    }
}

/// The address of a place.
fn place_address(table: &Table, code: &Code, layout: &Layout, place: usize) -> u16
    requires table { IsTable layout.now code.now table.now }
    requires place { place ≤ length code.now.ops.items }
    ensures { result ≡ (addresses layout.now code.now).at place }
{
    table.at(place)
}

/// The address of the exit.
fn exit_address(table: &Table, code: &Code, layout: &Layout) -> u16
    requires table { IsTable layout.now code.now table.now }
    ensures { result ≡ (addresses layout.now code.now).at (length code.now.ops.items) }
{
    place_address(table, code, layout, code.ops.len())
}

/// How many packet routines are before that of an end; with them the text is within memory.
fn routines_before(table: &Table, code: &Code, layout: &Layout, end: u8) -> u16
    requires table { IsTable layout.now code.now table.now }
    ensures count { result ≡ routines code.now.ops.items end }
    ensures below { (addresses layout.now code.now).at (length code.now.ops.items)
        + (exit_bytes + slot_bytes) + packet_bytes * result < 65536 }
{
    table.preceding(usize::from(end))
}

/// The address of an end's packet routine.
fn packet_address(table: &Table, code: &Code, layout: &Layout, end: u8) -> u16
    requires table { IsTable layout.now code.now table.now }
    ensures { result ≡ (addresses layout.now code.now).packet end }
{
    let exit = exit_address(table, code, layout);
    exit + (EXIT + SLOT_ROUTINE) + PACKET_ROUTINE * routines_before(table, code, layout, end)
}

/// Appends the words of an operation that names no place and no routine: they are the same at each
/// place.
fn put_plain(
    text: &mut Vec<u8>,
    code: &Code,
    layout: &Layout,
    operation: &Ir,
) -> Result<(), OutOfMemory>
    requires plain { is_plain operation.now ≡ true }
    requires fits { OperationFits layout.now code.now operation.now }
    ensures { (a : Addresses) (place : ℕ) → OnOk result
        (PutsWords (template layout.now a place operation.now) text.old.items text.new.items) }
{
    let base = layout.priv_from;
    match *operation {
        Ir::Push(word) => put! { text; push Immediate(word); },
        Ir::Load(offset) => put! { text; push Absolute(base + offset); },
        Ir::Store(offset) => put! { text; pop Absolute(base + offset); },
        Ir::LoadAt(offset, length) => put_load_at(text, base + offset, length),
        Ir::StoreAt(offset, length) => put_store_at(text, base + offset, length),
        Ir::Op(operator) => put_operator(text, operator),
        Ir::Drop => put! { text; incd SP; },
        Ir::Emit => put! { text; pop Absolute(base); },
        Ir::Stop => put! { text; br Absolute(base + RETURN); },
        Ir::Saved(register) => put! { text; push Absolute(base + saved_at(register)); },
        Ir::Inside => put_inside(text, base + CALLER, layout.pub_from, layout.pub_to),
        Ir::Meets(register, length) => {
            let saved = base + saved_at(register);
            put_meets(text, saved, base, layout.priv_to, length)
        }
        Ir::CopyIn(count, offset) => put_copy_in(text, base + IN_WINDOW, base + offset, count),
        Ir::CopyOut(count, offset) => put_copy_out(text, base + OUT_WINDOW, base + offset, count),
        Ir::Seal(key, header, header_length, body, length) => {
            put_seal(text, base, key, header, header_length, body, length)
        }
        Ir::Open(key, header, header_length, body, length) => {
            put_open(text, base, key, header, header_length, body, length)
        }
        Ir::Sense => put! { text; push Absolute(base); },
        _ => Ok(()),
    }
}

/// Appends the words of the operation at a place of the code. The error says that memory ran out.
pub fn put_operation(
    text: &mut Vec<u8>,
    code: &Code,
    layout: &Layout,
    table: &Table,
    place: usize,
    operation: &Ir,
) -> Result<(), OutOfMemory>
    requires table { IsTable layout.now code.now table.now }
    requires place { place < length code.now.ops.items }
    requires fits { OperationFits layout.now code.now operation.now }
    ensures { OnOk result (PutsWords (template layout.now (addresses layout.now code.now) place
        operation.now) text.old.items text.new.items) }
{
    let base = layout.priv_from;
    match *operation {
        Ir::Jump(to) => {
            let to = place_address(table, code, layout, usize::from(to));
            put! { text; br Immediate(to); }
        }
        Ir::JumpZero(to) => {
            let to = place_address(table, code, layout, usize::from(to));
            let zero = Absolute(exit_address(table, code, layout) + EXIT + ZERO);
            put! { text; cmp POPPED, zero; jnz 2; br Immediate(to); }
        }
        Ir::JumpEqual(offset, word, to) => {
            let to = place_address(table, code, layout, usize::from(to));
            put! {
                text;
                cmp Immediate(word), Absolute(base + offset);
                jnz 2;
                br Immediate(to);
            }
        }
        Ir::Packet(end) => put! { text; call Immediate(packet_address(table, code, layout, end)); },
        Ir::SetEnd(end) => {
            let routine = exit_address(table, code, layout) + EXIT;
            put! { text; mov Immediate(base + end_at(end)), R12; call Immediate(routine); }
        }
        Ir::Handler(handler) => {
            let next = place_address(table, code, layout, place + 1);
            let part = usize::from(first_place(&code.parts, handler));
            put_handler(text, base, next, place_address(table, code, layout, part))
        }
        Ir::Leave => put! { text; br Immediate(exit_address(table, code, layout)); },
        _ => put_plain(text, code, layout, operation),
    }
}
