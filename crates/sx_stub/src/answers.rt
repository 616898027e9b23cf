//! The entry of attest: its tests, and the tag that answers an ask.

ghost use Rattle.std.specs.Prelude.{◌<◌, OnOk, length};
ghost use Rattle.sx_stub.specs.Puts.{Puts, PutsAt};
ghost use Rattle.sx_stub.specs.Stub.{answer_code, attest_code};

use crate::pieces::{put, put_all, put_refuse_kind};
use spec_invocation::protocol::{ALL_DONE, ASK_HEADER_SIZE, ASK_KIND, ASK_SIZE, TAG_SIZE};
use std::alloc::AllocError;
use sx_ir::Ir;
use sx_mean::offsets::{PACKET, PLAIN};

/// The number of operations of the entry of attest.
pub const ATTEST_LENGTH: u16 = 11;

/// The offset of the tag after an ask.
const TAG: u16 = 34;

fn put_answer(code: &mut Vec<Ir>) -> Result<(), AllocError>
    ensures { OnOk result (Puts answer_code code.old.items code.new.items) }
{
    let ops = [
        Ir::Seal(0, PACKET, ASK_HEADER_SIZE, PLAIN, 0),
        Ir::Push(0),
        Ir::CopyOut(TAG_SIZE, TAG),
        Ir::Push(ALL_DONE),
        Ir::Push(1),
        Ir::Leave,
    ];
    put_all(code, &ops)
}

/// Appends the entry of attest. The error says that memory ran out.
pub fn put_attest(code: &mut Vec<Ir>) -> Result<(), AllocError>
    requires short { length code.old.items < 60000 }
    ensures { OnOk result (PutsAt attest_code code.old.items code.new.items) }
{
    put(code, Ir::CopyIn(ASK_SIZE, PACKET))?;
    put_refuse_kind(code, ASK_KIND)?;
    put_answer(code)
}
