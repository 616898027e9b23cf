//! The code of one module's handlers, worked by hand.

ghost use Rattle.std.specs.Prelude.{◌≤◌, length};

use crate::modules::{LOGIC, NotMade, checked, end, links_of, sends_few};
use std::alloc::Global;
use std::process::Abort;
use std::test::Fail;
use sx_check::checked::Checked;
use sx_ir::{Code, Ir, IrOp};
use sx_lang::sides::Side;
use sx_lower::lower;
use sx_mean::events::End;
use sx_tag::Weak;

const LOWERED: [Ir; 16] = [
    Ir::Load(2),
    Ir::Store(72),
    Ir::Load(560),
    Ir::Push(100),
    Ir::Op(IrOp::Add),
    Ir::Load(72),
    Ir::Op(IrOp::Lt),
    Ir::JumpZero(12),
    Ir::Push(1),
    Ir::Packet(1),
    Ir::Drop,
    Ir::Jump(15),
    Ir::Push(0),
    Ir::Packet(1),
    Ir::Drop,
    Ir::Stop,
];

fn lowered_of(alloc: Global, m: &Checked, ends: &[End]) -> Result<Code, Fail>
    requires { length ends.now ≤ 16 }
{
    let links = links_of(alloc, ends)?;
    if sends_few(m, &links, ends) {
        Ok(lower(alloc, &Weak, m, ends)?)
    } else {
        Err(NotMade)?
    }
}

fn is_logic(rt: &impl Abort, code: &Code) {
    assert!(rt; code.ops.as_slice() == LOWERED.as_slice());
    assert!(rt; code.parts.as_slice() == [(0, 16)].as_slice());
}

#[test]
fn logic_is_lowered(rt: HostRuntime) -> Result<(), Fail> {
    let m = checked(rt.alloc(), LOGIC)?;
    let ends = [end(0, Side::To), end(1, Side::From)];
    is_logic(&rt, &lowered_of(rt.alloc(), &m, ends.as_slice())?);
    Ok(())
}
