//! The search for the end that a packet is for, and what follows it.

ghost use Rattle.std.specs.Prelude.{◌≡◌, ◌<◌, ◌≤◌, OnOk, length};
ghost use Rattle.sx_lang.specs.View.{module_of};
ghost use Rattle.sx_stub.specs.Puts.{Puts, PutsAt, PutsCase, PutsCases, parted};
ghost use Rattle.sx_stub.specs.Stub.{find_any, found_code, named_end, search_code};

use crate::inputs::{behind_input_found, put_input_found};
use crate::keys::put_key_found;
use crate::pieces::{INDEX, RETURN_LENGTH, SLOT_WORDS, WANTED, put_all, put_choice, put_returns};
use spec_invocation::protocol::{ENTRY_REGISTER, NO_END};
use std::alloc::AllocError;
use sx_ir::Ir;
use sx_lang::sides::Side;
use sx_lang::tree::Module;
use sx_mean::events::End;

/// The number of operations that look whether an end is the one that is searched for.
const FIND_LENGTH: u16 = 4;

/// The number of operations that keep the end that was found and part set-key from input.
const KEEP_LENGTH: u16 = 3;

fn named_end(e: &End) -> u16
    ensures { result ≡ named_end 0 e.now }
{
    match e.side {
        Side::From => u16::from(e.link),
        Side::To => u16::from(e.link) + 256,
    }
}

fn put_find_case(code: &mut Vec<Ir>, k: u8, e: &End, found: u16) -> Result<(), AllocError>
    requires short { length code.old.items < 60000 }
    requires few { k < 16 }
    ensures { OnOk result (PutsCase (find_any found) k e.now code.old.items code.new.items) }
{
    let next = (code.len() + 4) as u16;
    put_choice(code, WANTED, named_end(e), next)?;
    put_all(
        code,
        &[Ir::Push(SLOT_WORDS * u16::from(k)), Ir::Jump(found)],
    )
}

fn put_find_cases(code: &mut Vec<Ir>, ends: &[End], found: u16) -> Result<(), AllocError>
    requires short { length code.old.items < 50000 }
    requires few { length ends.now ≤ 16 }
    ensures { OnOk result (PutsCases (find_any found) ends.now code.old.items code.new.items) }
{
    let mut k: u8 = 0;
    for e in ends {
        put_find_case(code, k, e, found)?;
        k += 1;
    }
    Ok(())
}

fn put_kept(code: &mut Vec<Ir>, key: u16) -> Result<(), AllocError>
    ensures { OnOk result (Puts (parted key) code.old.items code.new.items) }
{
    put_all(
        code,
        &[
            Ir::Store(INDEX),
            Ir::Saved(ENTRY_REGISTER),
            Ir::JumpZero(key),
        ],
    )
}

fn put_found(code: &mut Vec<Ir>, tree: &Module, ends: &[End]) -> Result<(), AllocError>
    requires short { length code.old.items < 30000 }
    requires few { length tree.now.handlers.items ≤ 256 }
    requires ends { length ends.now ≤ 16 }
    ensures { OnOk result
        (PutsAt (found_code (module_of tree.now) ends.now) code.old.items code.new.items) }
{
    let input = code.len() as u16 + KEEP_LENGTH;
    let key = behind_input_found(tree, ends, input);
    put_kept(code, key)?;
    put_input_found(code, tree, ends)?;
    put_key_found(code, ends)
}

/// Appends the search for the end, and what set-key and input do with the end that is found. The
/// error says that memory ran out.
pub fn put_search(code: &mut Vec<Ir>, tree: &Module, ends: &[End]) -> Result<(), AllocError>
    requires short { length code.old.items < 20000 }
    requires few { length tree.now.handlers.items ≤ 256 }
    requires ends { length ends.now ≤ 16 }
    ensures { OnOk result
        (PutsAt (search_code (module_of tree.now) ends.now) code.old.items code.new.items) }
{
    let found = code.len() as u16 + FIND_LENGTH * ends.len() as u16 + RETURN_LENGTH;
    put_find_cases(code, ends, found)?;
    put_returns(code, NO_END)?;
    put_found(code, tree, ends)
}
