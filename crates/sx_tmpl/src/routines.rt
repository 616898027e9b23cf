//! What occurs once in a text: the entry, the exit, and the routines.

ghost use Rattle.std.specs.Prelude.{◌<◌, ◌+◌, OnOk};
ghost use Rattle.sx_mean.specs.Offsets.{end_at};
ghost use Rattle.sx_mean.specs.Working.{stack_to};
ghost use Rattle.sx_isa.specs.Standing.{words_of};
ghost use Rattle.sx_tmpl.specs.Template.{counting, entry_words, leave_words, packet_copy};
ghost use Rattle.sx_tmpl.specs.Template.{routine_words, slot_words, wrapping};
ghost use Rattle.sx_tmpl.specs.Text.{PutsWords};

use crate::put::put;
use crate::scratch::{
    BODY, CALLER, CALLER_SP, CIPHER, CONNECTION, COPIED_CONNECTION, HEADER, KIND, NUMBER,
    OUT_WINDOW, TAG, VALUE,
};
use crate::templates::put_turns;
use spec_invocation::protocol::{EVENT_KIND, EVENT_SIZE, LAST_NUMBER};
use std::alloc::AllocError as OutOfMemory;
use sx_isa::Operand::{Absolute, Const, Immediate, Increment, Indexed};
use sx_isa::assembly::{R4, R5, R6, R7, R8, R9, R10, R11, R12, R13, R14, R15, SP, SR};
use sx_mean::offsets::{
    PIECES, PLAIN, STACK_TO, end_at, end_key_at, end_number_at, end_open_at, saved_at,
};

/// The entry of a module whose private section begins at `base`. The error says that memory ran
/// out.
pub fn put_entry(text: &mut Vec<u8>, base: u16) -> Result<(), OutOfMemory>
    requires { base + stack_to < 65536 }
    ensures { OnOk result (PutsWords (entry_words base) text.old.items text.new.items) }
{
    put! {
        text;
        mov SP, Absolute(base + CALLER_SP);
        mov R12, Absolute(base + saved_at(12));
        mov R13, Absolute(base + saved_at(13));
        mov R14, Absolute(base + saved_at(14));
        mov R15, Absolute(base + saved_at(15));
        mov Immediate(base + STACK_TO), SP;
    }
}

/// The exit. The error says that memory ran out.
pub fn put_exit(text: &mut Vec<u8>, base: u16) -> Result<(), OutOfMemory>
    requires { base + stack_to < 65536 }
    ensures { OnOk result (PutsWords (leave_words base) text.old.items text.new.items) }
{
    put! {
        text;
        pop R13;
        pop R12;
        clr R4;
        clr R5;
        clr R6;
        clr R7;
        clr R8;
        clr R9;
        clr R10;
        clr R11;
        clr R14;
        clr R15;
        clr SR;
        mov Absolute(base + CALLER_SP), SP;
        br Absolute(base + CALLER);
    }
}

/// The routine that opens the slot at R12. The error says that memory ran out.
pub fn put_slots(text: &mut Vec<u8>, base: u16) -> Result<(), OutOfMemory>
    requires { base + stack_to < 65536 }
    ensures { OnOk result (PutsWords (slot_words base) text.old.items text.new.items) }
{
    put! {
        text;
        mov Absolute(base + COPIED_CONNECTION), Indexed(12, 0);
        clr Indexed(12, 2);
        mov Const(1), Indexed(12, 4);
        mov Absolute(base + PLAIN), Indexed(12, 8);
        mov Absolute(base + PLAIN + 2), Indexed(12, 10);
        mov Absolute(base + PLAIN + 4), Indexed(12, 12);
        mov Absolute(base + PLAIN + 6), Indexed(12, 14);
        mov Absolute(base + PLAIN + 8), Indexed(12, 16);
        mov Absolute(base + PLAIN + 10), Indexed(12, 18);
        mov Absolute(base + PLAIN + 12), Indexed(12, 20);
        mov Absolute(base + PLAIN + 14), Indexed(12, 22);
        ret;
    }
}

/// What wraps an end's next event.
fn put_wrapping(text: &mut Vec<u8>, base: u16, end: u8) -> Result<(), OutOfMemory>
    requires slot { base + end_at (end + 1) < 65536 }
    requires base { base + stack_to < 65536 }
    ensures { OnOk result (PutsWords (words_of (wrapping base end)) text.old.items
        text.new.items) }
{
    let number = Absolute(base + end_number_at(end));
    let (kind, body) = (base + KIND, base + BODY);
    put! {
        text;
        tst Absolute(base + end_open_at(end));
        jz 66;
        cmp Const(LAST_NUMBER), number;
        jz 63;
        mov Immediate(EVENT_KIND), Absolute(kind);
        mov Absolute(base + end_at(end)), Absolute(base + CONNECTION);
        mov number, Absolute(base + NUMBER);
        mov Indexed(1, 2), Absolute(body);
        mov Immediate(base + end_key_at(end)), R9;
        mov Immediate(kind), R10;
        mov Immediate(HEADER), R11;
        mov Immediate(body), R12;
        mov Const(VALUE), R13;
        mov Immediate(base + CIPHER), R14;
        mov Immediate(base + TAG), R15;
        wrap;
    }
}

/// What copies a packet to the out-window.
fn put_packet_copy(text: &mut Vec<u8>, base: u16) -> Result<(), OutOfMemory>
    requires { base + stack_to < 65536 }
    ensures { OnOk result (PutsWords (words_of (packet_copy base)) text.old.items text.new.items) }
{
    put! { text; mov Absolute(base + PIECES), R12; rla R12; rla R12; rla R12; }?;
    put! { text; mov R12, R14; rla R12; add R14, R12; add Absolute(base + OUT_WINDOW), R12; }?;
    put! { text; mov Immediate(base + KIND), R13; mov Immediate(EVENT_SIZE / 8), R15; }?;
    put_turns(text, EVENT_SIZE)
}

/// What counts an end's packet, and the return.
fn put_counting(text: &mut Vec<u8>, base: u16, end: u8) -> Result<(), OutOfMemory>
    requires slot { base + end_at (end + 1) < 65536 }
    requires base { base + stack_to < 65536 }
    ensures { OnOk result (PutsWords (words_of (counting base end)) text.old.items
        text.new.items) }
{
    let number = Absolute(base + end_number_at(end));
    put! { text; inc number; inc Absolute(base + PIECES); ret; }
}

/// An end's packet routine. The error says that memory ran out.
pub fn put_routine(text: &mut Vec<u8>, base: u16, end: u8) -> Result<(), OutOfMemory>
    requires slot { base + end_at (end + 1) < 65536 }
    requires base { base + stack_to < 65536 }
    ensures { OnOk result (PutsWords (routine_words base end) text.old.items text.new.items) }
{
    put_wrapping(text, base, end)?;
    put_packet_copy(text, base)?;
    put_counting(text, base, end)
}
