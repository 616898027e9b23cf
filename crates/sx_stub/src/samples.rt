//! The entry of a sample: the sensor is read, and its handler runs.

ghost use Rattle.std.specs.Prelude.{◌≡◌, ◌<◌, ◌≤◌, OnOk, length};
ghost use Rattle.sx_lang.specs.View.{module_of};
ghost use Rattle.sx_stub.specs.Puts.{Puts, PutsAt};
ghost use Rattle.sx_stub.specs.Stub.{sample_code, sample_place, sampled_code};

use crate::handled::{handled_len, put_handled, sample_handler};
use crate::pieces::{put, put_all, put_refuse_unless};
use spec_invocation::protocol::NO_SAMPLE;
use std::alloc::AllocError;
use sx_ir::{Ir, IrOp};
use sx_lang::tree::Module;
use sx_mean::offsets::EVENT;

/// The place where the entry of a sample begins, after the tests and the ways to the others.
pub const SAMPLE_PLACE: u16 = 21;

/// The number of operations of the entry of a sample, before those of its handler.
const SAMPLE_LENGTH: u16 = 12;

/// The number of operations of the entry of a sample.
pub fn sample_len(tree: &Module) -> u16
    requires few { length tree.now.handlers.items ≤ 256 }
    ensures len { result ≡ length (sample_code (module_of tree.now) sample_place) }
    ensures small { result ≤ 16 }
{
    SAMPLE_LENGTH + handled_len(sample_handler(tree))
}

fn put_sampled(code: &mut Vec<Ir>, tree: &Module) -> Result<(), AllocError>
    requires few { length tree.now.handlers.items ≤ 256 }
    ensures { OnOk result (Puts (sampled_code (module_of tree.now)) code.old.items code.new.items) }
{
    let ops = [
        Ir::Load(EVENT),
        Ir::Push(0x8000),
        Ir::Op(IrOp::Sub),
        Ir::Store(EVENT),
    ];
    put_all(code, &ops)?;
    put_handled(code, sample_handler(tree))
}

/// Appends the entry of a sample. The error says that memory ran out.
pub fn put_sample(code: &mut Vec<Ir>, tree: &Module) -> Result<(), AllocError>
    requires short { length code.old.items < 60000 }
    requires few { length tree.now.handlers.items ≤ 256 }
    ensures { OnOk result (PutsAt (sample_code (module_of tree.now)) code.old.items
        code.new.items) }
{
    put(code, Ir::Sense)?;
    put(code, Ir::Store(EVENT))?;
    put_refuse_unless(code, &[Ir::Load(EVENT)], NO_SAMPLE)?;
    put_sampled(code, tree)
}
