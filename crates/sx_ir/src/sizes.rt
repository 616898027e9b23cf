//! How many bytes the text of stack code has, and where each operation is in it.

ghost use Rattle.std.specs.Prelude.{◌≡◌, ◌+◌, ◌*◌, ◌<◌, ◌≤◌, length};
ghost use Rattle.sx_ir.specs.Sizes.{all_routines, bytes, has_routine, is_packet, offset, op_bytes};
ghost use Rattle.sx_ir.specs.Sizes.{operator_bytes, ops_bytes, routines, turn_size};

use crate::ir::{Code, Ir, IrOp};

/// The bytes of the entry of a text.
pub const ENTRY: u16 = 24;

/// The bytes of the exit.
pub const EXIT: u16 = 34;

/// The bytes of the routine that opens a slot.
pub const SLOT_ROUTINE: u16 = 64;

/// The bytes of an end's packet routine.
pub const PACKET_ROUTINE: u16 = 140;

/// The bytes of the word of zeros in which a text ends.
const LAST: u16 = 2;

fn operator_bytes(op: IrOp) -> u16
    ensures { result ≡ operator_bytes op }
{
    match op {
        IrOp::Add | IrOp::Sub | IrOp::And | IrOp::Or | IrOp::Xor => 4,
        IrOp::Mul => 24,
        IrOp::Neg | IrOp::Inv => 8,
        IrOp::Eq | IrOp::Lt | IrOp::Not => 14,
    }
}

/// The bytes that one turn of a copy of `count` bytes moves.
pub fn turn_size(count: u16) -> u16
    ensures size { result ≡ turn_size count }
    ensures some { 1 ≤ result }
    ensures small { result ≤ 8 }
{
    if count % 8 == 0 { 8 } else { 1 }
}

/// The bytes of an operation's template, at most 52.
pub fn op_bytes(op: &Ir) -> u16
    ensures size { result ≡ op_bytes op.now }
    ensures small { result ≤ 52 }
{
    match op {
        Ir::Drop => 2,
        Ir::Push(_)
        | Ir::Load(_)
        | Ir::Store(_)
        | Ir::Jump(_)
        | Ir::Packet(_)
        | Ir::Emit
        | Ir::Stop
        | Ir::Saved(_)
        | Ir::Sense
        | Ir::Leave => 4,
        Ir::SetEnd(_) => 8,
        Ir::JumpZero(_) => 10,
        Ir::JumpEqual(_, _, _) => 12,
        Ir::Handler(_) => 14,
        Ir::StoreAt(_, _) => 16,
        Ir::LoadAt(_, _) | Ir::Inside => 18,
        Ir::CopyIn(count, _) => 18 + 4 * turn_size(*count),
        Ir::CopyOut(count, _) => 20 + 4 * turn_size(*count),
        Ir::Meets(_, _) => 28,
        Ir::Seal(_, _, _, _, _) | Ir::Open(_, _, _, _, _) => 32,
        Ir::Op(op) => operator_bytes(*op),
    }
}

fn ops_bytes(ops: &[Ir]) -> u64
    requires { length ops.now < 65536 }
    ensures size { result ≡ ops_bytes ops.now }
    ensures small { result ≤ 52 * length ops.now }
{
    let mut total: u64 = 0;
    for op in ops {
        total += u64::from(op_bytes(op));
    }
    total
}

fn is_packet(op: &Ir, end: u16) -> bool
    ensures { result ≡ is_packet end op.now }
{
    match op {
        Ir::Packet(k) => u16::from(*k) == end,
        _ => false,
    }
}

/// Whether there is a packet routine for this end: some operation makes a packet of it.
pub fn has_routine(ops: &[Ir], end: u16) -> bool
    ensures { result ≡ has_routine ops.now end }
{
    ops.iter().any(|op| is_packet(op, end))
}

#[tactic(auto, unfolding(crate::specs::Sizes::routines))]
fn all_routines(ops: &[Ir]) -> u64
    ensures count { result ≡ all_routines ops.now }
    ensures few { result ≤ 256 }
{
    let mut count: u64 = 0;
    for end in 0..256 {
        if has_routine(ops, end) {
            count += 1;
        }
    }
    count
}

/// The length in bytes of the text that is made of code: the entry, each operation's template, the
/// exit and the routines, one for each end that some operation makes a packet of.
pub fn bytes(code: &Code) -> u64
    requires { length code.now.ops.items < 65536 }
    ensures { result ≡ bytes code.now.ops.items }
{
    u64::from(ENTRY)
        + ops_bytes(&code.ops)
        + u64::from(EXIT)
        + u64::from(SLOT_ROUTINE)
        + u64::from(PACKET_ROUTINE) * all_routines(&code.ops)
        + u64::from(LAST)
}

/// Where in that text the instructions of the operation at this place begin.
pub fn offset(code: &Code, place: u16) -> u64
    requires { place < length code.now.ops.items }
    ensures { result ≡ offset code.now.ops.items place }
{
    u64::from(ENTRY) + ops_bytes(&code.ops[..usize::from(place)])
}
