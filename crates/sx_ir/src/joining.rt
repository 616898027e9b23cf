//! Joining of the entry protocol's code with the handlers'.

ghost use Rattle.std.specs.Prelude.{◌≡◌, ◌+◌, ◌<◌, ◌++◌, IfOk, OnOk, length, map};
ghost use Rattle.sx_ir.specs.Joined.{joined_ops, moved, moved_part, moved_place};

use crate::ir::{Code, Ir};
use std::alloc::{AllocError as OutOfMemory, Global};
use sx_tag::Tag;

fn moved_place(by: u16, place: u16) -> u16
    ensures { result ≡ moved_place by place }
{
    by.saturating_add(place)
}

/// Moves the place that an operation names, if it names one.
fn move_place(by: u16, op: &mut Ir)
    ensures { op.new ≡ moved by op.old }
{
    match op {
        Ir::Jump(place) => *place = moved_place(by, *place),
        Ir::JumpZero(place) => *place = moved_place(by, *place),
        Ir::JumpEqual(_, _, place) => *place = moved_place(by, *place),
        _ => {}
    }
}

fn move_places(by: u16, ops: &mut [Ir])
    ensures { ops.new ≡ map (moved by) ops.old }
{
    for op in ops.iter_mut() {
        move_place(by, op);
    }
}

fn put_moved(ops: &mut Vec<Ir>, by: u16, bodies: &[Ir]) -> Result<(), OutOfMemory>
    ensures { OnOk result (ops.new.items ≡ ops.old.items ++ map (moved by) bodies.now) }
{
    let from = ops.len();
    ops.extend_from_slice(bodies)?;
    move_places(by, &mut ops[from..]);
    Ok(())
}

fn put_moved_parts(
    parts: &mut Vec<(u16, u16)>,
    by: u16,
    bodies: &[(u16, u16)],
) -> Result<(), OutOfMemory>
    ensures { OnOk result (parts.new.items ≡ parts.old.items ++ map (moved_part by) bodies.now) }
{
    for part in bodies {
        parts.push((moved_place(by, part.0), moved_place(by, part.1)))?;
    }
    Ok(())
}

/// One code: the operations of the entry protocol, and then those of the handlers' parts, whose
/// jumps and parts are moved after them. What each `Handler` of the first does is then what its
/// part of the second does. The tag is taken as by `sx_lower::lower`. It fails only where memory
/// runs out.
pub fn join<T: Tag>(
    alloc: Global,
    _tag: &T,
    stub: &Code,
    bodies: &Code,
) -> Result<Code, OutOfMemory>
    requires short { length stub.now.ops.items + length bodies.now.ops.items < 65536 }
    ensures ops { IfOk result (λ code. code.ops.items
        ≡ joined_ops stub.now.ops.items bodies.now.ops.items) }
    ensures parts { IfOk result (λ code. code.parts.items
        ≡ map (moved_part (length stub.now.ops.items)) bodies.now.parts.items) }
{
    let by = stub.ops.len() as u16;
    let mut ops = Vec::with_capacity(alloc, stub.ops.len() + bodies.ops.len())?;
    ops.extend_from_slice(&stub.ops)?;
    put_moved(&mut ops, by, &bodies.ops)?;
    let mut parts = Vec::new(alloc);
    put_moved_parts(&mut parts, by, &bodies.parts)?;
    Ok(Code { ops, parts })
}
