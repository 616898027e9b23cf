//! Input: the tests, and the opening of a packet with the key of its end.

ghost use Rattle.std.specs.Prelude.{◌≡◌, ◌+◌, ◌<◌, ◌≤◌, ◌++◌, OnOk, length};
ghost use Rattle.sx_lang.specs.View.{module_of};
ghost use Rattle.sx_stub.specs.Stub.{case_of, input_code, input_found, has_number_above};
ghost use Rattle.sx_stub.specs.Stub.{is_open_code, is_other_epoch, is_past_number, is_receiving};
ghost use Rattle.sx_stub.specs.Stub.{take_event, take_receiving, taken_code};
ghost use Rattle.sx_stub.specs.Stub.{wanted_receiving};
ghost use Rattle.sx_stub.specs.Puts.{Puts, PutsAt, PutsCase, PutsCases, RefusesUnless, RefusesWith};
ghost use Rattle.sx_stub.specs.Puts.{behind_cases, kept};

use crate::handled::{handled_len, input_handler, put_handled};
use crate::pieces::{
    CHOICE_LENGTH, FIELD, INDEX, SECOND, SLOT_WORDS, WANTED, put, put_all, put_choice, put_refuse,
    put_refuse_kind, put_refuse_unless,
};
use spec_invocation::protocol::{
    EVENT_KIND, EVENT_SIZE, HEADER_SIZE, LAST_NUMBER, NO_END, OTHER_TAG, PAST_NUMBER, VALUE_SIZE,
};
use std::alloc::AllocError;
use sx_ir::{Ir, IrOp};
use sx_lang::sides::Side;
use sx_lang::tree::Module;
use sx_mean::events::End;
use sx_mean::offsets::{EVENT, PACKET, SLOTS, end_key_at, end_number_at};

/// The number of operations of the entry of input.
pub const INPUT_LENGTH: u16 = 11;

/// The number of operations of the tests of the end that was found.
const TESTS_LENGTH: u16 = 41;

/// The number of operations that open an event's packet, before those of its handler.
const OPEN_LENGTH: u16 = 10;

fn put_wanted_receiving(code: &mut Vec<Ir>) -> Result<(), AllocError>
    ensures { OnOk result (Puts (wanted_receiving ++ kept) code.old.items code.new.items) }
{
    let ops = [
        Ir::Load(FIELD),
        Ir::Push(255),
        Ir::Op(IrOp::And),
        Ir::Push(256),
        Ir::Op(IrOp::Add),
        Ir::Store(WANTED),
    ];
    put_all(code, &ops)
}

/// Appends the entry of input, which goes on with the search for the end after it. The error says
/// that memory ran out.
pub fn put_input(code: &mut Vec<Ir>) -> Result<(), AllocError>
    requires short { length code.old.items < 60000 }
    ensures { OnOk result (PutsAt input_code code.old.items code.new.items) }
{
    put(code, Ir::CopyIn(EVENT_SIZE, PACKET))?;
    put_refuse_kind(code, EVENT_KIND)?;
    put_wanted_receiving(code)
}

fn is_receiving(e: &End) -> bool
    ensures { result ≡ is_receiving e.now }
{
    match e.side {
        Side::From => false,
        Side::To => true,
    }
}

fn put_taken(code: &mut Vec<Ir>, tree: &Module, k: u8, e: &End) -> Result<(), AllocError>
    requires few { length tree.now.handlers.items ≤ 256 }
    ensures { OnOk result (Puts (taken_code (module_of tree.now) k e.now) code.old.items
        code.new.items) }
{
    let ops = [
        Ir::Load(SECOND),
        Ir::Push(1),
        Ir::Op(IrOp::Add),
        Ir::Store(end_number_at(k)),
    ];
    put_all(code, &ops)?;
    put_handled(code, input_handler(tree, e.port))
}

fn put_take(code: &mut Vec<Ir>, tree: &Module, k: u8, e: &End) -> Result<(), AllocError>
    requires short { length code.old.items < 60000 }
    requires few { length tree.now.handlers.items ≤ 256 }
    ensures { OnOk result
        (PutsAt (λ p. take_event (module_of tree.now) p k e.now) code.old.items code.new.items) }
{
    put(
        code,
        Ir::Open(end_key_at(k), PACKET, HEADER_SIZE, EVENT, VALUE_SIZE),
    )?;
    put_refuse_unless(code, &[], OTHER_TAG)?;
    put_taken(code, tree, k, e)
}

fn take_len(tree: &Module, e: &End) -> u16
    requires few { length tree.now.handlers.items ≤ 256 }
    ensures len { result ≡ length (take_event (module_of tree.now) 0 0 e.now) }
    ensures small { result ≤ 16 }
{
    OPEN_LENGTH + handled_len(input_handler(tree, e.port))
}

fn case_len(tree: &Module, e: &End) -> u16
    requires few { length tree.now.handlers.items ≤ 256 }
    ensures len { result ≡ length (case_of (take_receiving (module_of tree.now)) 0 0 e.now) }
    ensures small { result ≤ 18 }
{
    if is_receiving(e) {
        CHOICE_LENGTH + take_len(tree, e)
    } else {
        0
    }
}

fn put_take_case(code: &mut Vec<Ir>, tree: &Module, k: u8, e: &End) -> Result<(), AllocError>
    requires short { length code.old.items < 55000 }
    requires few { length tree.now.handlers.items ≤ 256 }
    requires ends { k < 16 }
    ensures code { OnOk result
        (PutsCase (take_receiving (module_of tree.now)) k e.now code.old.items code.new.items) }
    ensures small { OnOk result (length code.new.items ≤ length code.old.items + 18) }
{
    if is_receiving(e) {
        let next = code.len() as u16 + CHOICE_LENGTH + take_len(tree, e);
        put_choice(code, INDEX, SLOT_WORDS * u16::from(k), next)?;
        put_take(code, tree, k, e)
    } else {
        Ok(())
    }
}

fn put_take_cases(code: &mut Vec<Ir>, tree: &Module, ends: &[End]) -> Result<(), AllocError>
    requires short { length code.old.items < 50000 }
    requires few { length tree.now.handlers.items ≤ 256 }
    requires ends { length ends.now ≤ 16 }
    ensures { OnOk result
        (PutsCases (take_receiving (module_of tree.now)) ends.now code.old.items code.new.items) }
{
    let mut k: u8 = 0;
    for e in ends {
        put_take_case(code, tree, k, e)?;
        k += 1;
    }
    Ok(())
}

/// The place after the cases of the receiving ends, which begin at this one.
fn behind_takes(tree: &Module, ends: &[End], place: u16) -> u16
    requires short { place < 60000 }
    requires few { length tree.now.handlers.items ≤ 256 }
    requires ends { length ends.now ≤ 16 }
    ensures place { result ≡ behind_cases (module_of tree.now) ends.now place }
    ensures small { result ≤ place + 288 }
{
    let mut at = place;
    for e in ends {
        at += case_len(tree, e);
    }
    at
}

/// The place after what input does with the end that was found, which begins at this one.
pub fn behind_input_found(tree: &Module, ends: &[End], place: u16) -> u16
    requires short { place < 59000 }
    requires few { length tree.now.handlers.items ≤ 256 }
    requires ends { length ends.now ≤ 16 }
    ensures place { result ≡ place + length (input_found (module_of tree.now) ends.now place) }
    ensures small { result ≤ place + 329 }
{
    behind_takes(tree, ends, place + TESTS_LENGTH)
}

fn put_open_test(code: &mut Vec<Ir>, ends: u16) -> Result<(), AllocError>
    requires short { length code.old.items < 60000 }
    requires few { ends ≤ 16 }
    ensures { OnOk result (RefusesUnless (is_open_code ends) 5 code.old.items code.new.items) }
{
    let test = [
        Ir::Load(INDEX),
        Ir::Push(2),
        Ir::Op(IrOp::Add),
        Ir::LoadAt(SLOTS, SLOT_WORDS * ends),
    ];
    put_refuse_unless(code, &test, NO_END)
}

fn put_epoch_test(code: &mut Vec<Ir>, ends: u16) -> Result<(), AllocError>
    requires short { length code.old.items < 60000 }
    requires few { ends ≤ 16 }
    ensures { OnOk result (RefusesWith (is_other_epoch ends) 5 code.old.items code.new.items) }
{
    let test = [
        Ir::Load(INDEX),
        Ir::Push(0),
        Ir::Op(IrOp::Add),
        Ir::LoadAt(SLOTS, SLOT_WORDS * ends),
        Ir::Push(0xFF00),
        Ir::Op(IrOp::And),
        Ir::Load(FIELD),
        Ir::Push(0xFF00),
        Ir::Op(IrOp::And),
        Ir::Op(IrOp::Sub),
    ];
    put_refuse(code, &test, NO_END)
}

fn put_past_test(code: &mut Vec<Ir>, ends: u16) -> Result<(), AllocError>
    requires short { length code.old.items < 60000 }
    requires few { ends ≤ 16 }
    ensures { OnOk result (RefusesWith (is_past_number ends) 6 code.old.items code.new.items) }
{
    let test = [
        Ir::Load(SECOND),
        Ir::Load(INDEX),
        Ir::Push(1),
        Ir::Op(IrOp::Add),
        Ir::LoadAt(SLOTS, SLOT_WORDS * ends),
        Ir::Op(IrOp::Lt),
    ];
    put_refuse(code, &test, PAST_NUMBER)
}

fn put_last_test(code: &mut Vec<Ir>) -> Result<(), AllocError>
    requires short { length code.old.items < 60000 }
    ensures { OnOk result (RefusesUnless has_number_above 6 code.old.items code.new.items) }
{
    put_refuse_unless(
        code,
        &[Ir::Load(SECOND), Ir::Push(LAST_NUMBER), Ir::Op(IrOp::Sub)],
        PAST_NUMBER,
    )
}

/// Appends what input does with the end that was found: the tests, and then the packet's opening.
/// The error says that memory ran out.
pub fn put_input_found(code: &mut Vec<Ir>, tree: &Module, ends: &[End]) -> Result<(), AllocError>
    requires short { length code.old.items < 40000 }
    requires few { length tree.now.handlers.items ≤ 256 }
    requires ends { length ends.now ≤ 16 }
    ensures { OnOk result
        (PutsAt (input_found (module_of tree.now) ends.now) code.old.items code.new.items) }
{
    let count = ends.len() as u16;
    put_open_test(code, count)?;
    put_epoch_test(code, count)?;
    put_past_test(code, count)?;
    put_last_test(code)?;
    put_take_cases(code, tree, ends)
}
