//! Set-key: the tests, and the opening of an end's slot.

ghost use Rattle.std.specs.Prelude.{◌<◌, ◌≤◌, ◌++◌, OnOk, length};
ghost use Rattle.sx_stub.specs.Puts.{Puts, PutsAt, PutsCase, PutsCases, RefusesWith, searched};
ghost use Rattle.sx_stub.specs.Stub.{is_keyed_code, key_found, open_any, set_key_code, wanted_end};

use crate::pieces::{
    FIELD, INDEX, SECOND, SLOT_WORDS, WANTED, put, put_all, put_choice, put_refuse,
    put_refuse_kind, put_refuse_unless,
};
use spec_invocation::protocol::{
    ALL_DONE, HEADER_SIZE, KEY_SIZE, NO_END, OTHER_TAG, SET_KEY_KIND, SET_KEY_SIZE,
};
use std::alloc::AllocError;
use sx_ir::{Ir, IrOp};
use sx_mean::events::End;
use sx_mean::offsets::{PACKET, PLAIN, SLOTS};

/// The number of operations of the entry of set-key.
pub const SET_KEY_LENGTH: u16 = 21;

fn put_wanted_end(code: &mut Vec<Ir>, search: u16) -> Result<(), AllocError>
    ensures { OnOk result (Puts (wanted_end ++ searched search) code.old.items code.new.items) }
{
    let ops = [
        Ir::Load(FIELD),
        Ir::Push(255),
        Ir::Op(IrOp::And),
        Ir::Load(SECOND),
        Ir::Push(256),
        Ir::Op(IrOp::Mul),
        Ir::Op(IrOp::Add),
        Ir::Store(WANTED),
        Ir::Jump(search),
    ];
    put_all(code, &ops)
}

/// Appends the entry of set-key, which goes on at the search for the end. The error says that
/// memory ran out.
pub fn put_set_key(code: &mut Vec<Ir>, search: u16) -> Result<(), AllocError>
    requires short { length code.old.items < 60000 }
    ensures { OnOk result (PutsAt (set_key_code search) code.old.items code.new.items) }
{
    put(code, Ir::CopyIn(SET_KEY_SIZE, PACKET))?;
    put_refuse_kind(code, SET_KEY_KIND)?;
    put_refuse(
        code,
        &[Ir::Push(1), Ir::Load(SECOND), Ir::Op(IrOp::Lt)],
        NO_END,
    )?;
    put_wanted_end(code, search)
}

fn put_keyed_test(code: &mut Vec<Ir>, ends: u16) -> Result<(), AllocError>
    requires short { length code.old.items < 60000 }
    requires few { ends ≤ 16 }
    ensures { OnOk result (RefusesWith (is_keyed_code ends) 5 code.old.items code.new.items) }
{
    let words = SLOT_WORDS * ends;
    let test = [
        Ir::Load(INDEX),
        Ir::Push(2),
        Ir::Op(IrOp::Add),
        Ir::LoadAt(SLOTS, words),
        Ir::Push(0),
        Ir::Op(IrOp::Eq),
        Ir::Op(IrOp::Not),
        Ir::Load(INDEX),
        Ir::Push(0),
        Ir::Op(IrOp::Add),
        Ir::LoadAt(SLOTS, words),
        Ir::Push(0xFF00),
        Ir::Op(IrOp::And),
        Ir::Load(FIELD),
        Ir::Push(0xFF00),
        Ir::Op(IrOp::And),
        Ir::Op(IrOp::Lt),
        Ir::Op(IrOp::Not),
        Ir::Op(IrOp::And),
    ];
    put_refuse(code, &test, NO_END)
}

fn put_open_case(code: &mut Vec<Ir>, k: u8, e: &End) -> Result<(), AllocError>
    requires short { length code.old.items < 60000 }
    requires few { k < 16 }
    ensures { OnOk result (PutsCase open_any k e.now code.old.items code.new.items) }
{
    let next = (code.len() + 6) as u16;
    put_choice(code, INDEX, SLOT_WORDS * u16::from(k), next)?;
    put_all(
        code,
        &[Ir::SetEnd(k), Ir::Push(ALL_DONE), Ir::Push(0), Ir::Leave],
    )
}

fn put_open_cases(code: &mut Vec<Ir>, ends: &[End]) -> Result<(), AllocError>
    requires short { length code.old.items < 50000 }
    requires few { length ends.now ≤ 16 }
    ensures { OnOk result (PutsCases open_any ends.now code.old.items code.new.items) }
{
    let mut k: u8 = 0;
    for e in ends {
        put_open_case(code, k, e)?;
        k += 1;
    }
    Ok(())
}

/// Appends what set-key does with the end that was found: the tests, and then the slot's opening.
/// The error says that memory ran out.
pub fn put_key_found(code: &mut Vec<Ir>, ends: &[End]) -> Result<(), AllocError>
    requires short { length code.old.items < 40000 }
    requires few { length ends.now ≤ 16 }
    ensures { OnOk result (PutsAt (key_found ends.now) code.old.items code.new.items) }
{
    put_keyed_test(code, ends.len() as u16)?;
    put(code, Ir::Open(0, PACKET, HEADER_SIZE, PLAIN, KEY_SIZE))?;
    put_refuse_unless(code, &[], OTHER_TAG)?;
    put_open_cases(code, ends)
}
