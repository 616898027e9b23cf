//! Pieces of code of which the protocol's parts are made.

ghost use Rattle.std.specs.Prelude.{◌+◌, ◌<◌, ◌∷◌, [], OnOk, length};
ghost use Rattle.sx_stub.specs.Puts.{Puts, PutsAt, RefusesUnless, RefusesWith, choice};
ghost use Rattle.sx_stub.specs.Stub.{jump_on, refuse_kind, returns};

use spec_invocation::protocol::{ENTRY_REGISTER, OTHER_KIND};
use std::alloc::AllocError;
use sx_ir::Ir;
use sx_mean::offsets::{LOCALS, PACKET, SLOT_SIZE, saved_at};

/// The word by which an end is searched for.
pub const WANTED: u16 = LOCALS;

/// The word of where the slot of the end that was found begins, counted in words of the slots.
pub const INDEX: u16 = WANTED + 2;

/// The word of a copied packet's kind.
const KIND: u16 = PACKET;

/// The word of a copied packet's connection field.
pub const FIELD: u16 = KIND + 2;

/// The word of a copied packet's end field or number.
pub const SECOND: u16 = FIELD + 2;

/// The words of a slot.
pub const SLOT_WORDS: u16 = SLOT_SIZE / 2;

/// The number of operations of a return.
pub const RETURN_LENGTH: u16 = 3;

/// The number of operations of a choice.
pub const CHOICE_LENGTH: u16 = 2;

/// Appends an operation. The error says that memory ran out.
pub fn put(code: &mut Vec<Ir>, op: Ir) -> Result<(), AllocError>
    ensures { OnOk result (Puts (op ∷ []) code.old.items code.new.items) }
{
    code.push(op)?;
    Ok(())
}

/// Appends operations. The error says that memory ran out.
pub fn put_all(code: &mut Vec<Ir>, ops: &[Ir]) -> Result<(), AllocError>
    ensures { OnOk result (Puts ops.now code.old.items code.new.items) }
{
    for op in ops {
        put(code, *op)?;
    }
    Ok(())
}

/// Appends a return with this status and no pieces. The error says that memory ran out.
pub fn put_returns(code: &mut Vec<Ir>, status: u16) -> Result<(), AllocError>
    ensures { OnOk result (Puts (returns status) code.old.items code.new.items) }
{
    put_all(code, &[Ir::Push(status), Ir::Push(0), Ir::Leave])
}

/// Appends a return with this status where the test leaves a word other than 0. The error says that
/// memory ran out.
pub fn put_refuse(code: &mut Vec<Ir>, test: &[Ir], status: u16) -> Result<(), AllocError>
    requires short { length code.old.items + length test.now < 65532 }
    ensures { OnOk result (RefusesWith test.now status code.old.items code.new.items) }
{
    let next = (code.len() + test.len() + 4) as u16;
    put_all(code, test)?;
    put(code, Ir::JumpZero(next))?;
    put_returns(code, status)
}

/// Appends a return with this status where the test leaves 0. The error says that memory ran out.
pub fn put_refuse_unless(code: &mut Vec<Ir>, test: &[Ir], status: u16) -> Result<(), AllocError>
    requires short { length code.old.items + length test.now < 65531 }
    ensures { OnOk result (RefusesUnless test.now status code.old.items code.new.items) }
{
    let refused = (code.len() + test.len() + 2) as u16;
    put_all(code, test)?;
    put(code, Ir::JumpZero(refused))?;
    put(code, Ir::Jump(refused + 3))?;
    put_returns(code, status)
}

/// Appends a return with status 4 where a packet begins with another kind. The error says that
/// memory ran out.
pub fn put_refuse_kind(code: &mut Vec<Ir>, kind: u16) -> Result<(), AllocError>
    requires short { length code.old.items < 65000 }
    ensures { OnOk result (PutsAt (λ p. refuse_kind p kind) code.old.items code.new.items) }
{
    let next = (code.len() + 4) as u16;
    put(code, Ir::JumpEqual(KIND, kind, next))?;
    put_returns(code, OTHER_KIND)
}

/// Appends a jump to a place where the caller's entry is this one. The error says that memory ran
/// out.
pub fn put_jump_on(code: &mut Vec<Ir>, entry: u16, place: u16) -> Result<(), AllocError>
    ensures { OnOk result (Puts (jump_on entry place) code.old.items code.new.items) }
{
    let at = saved_at(ENTRY_REGISTER);
    put(code, Ir::JumpEqual(at, entry, place))
}

/// Appends a choice: the code goes on after these operations where the word at an offset is the
/// number, and else at the place. The error says that memory ran out.
pub fn put_choice(
    code: &mut Vec<Ir>,
    offset: u16,
    number: u16,
    otherwise: u16,
) -> Result<(), AllocError>
    requires short { length code.old.items < 65000 }
    ensures { OnOk result (PutsAt (choice offset number otherwise) code.old.items code.new.items) }
{
    let body = (code.len() + 2) as u16;
    let ops = [Ir::JumpEqual(offset, number, body), Ir::Jump(otherwise)];
    put_all(code, &ops)
}
