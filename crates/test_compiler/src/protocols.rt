//! How many operations the entry protocol has for small modules, and that it is sound.

ghost use Rattle.std.specs.Prelude.{◌≤◌, length};

use crate::modules::{EYE, LOGIC, checked, end};
use std::alloc::Global;
use std::process::Abort;
use std::test::Fail;
use sx_ir::{Code, Ir, bytes, sound};
use sx_lang::sides::Side;
use sx_mean::events::End;
use sx_rules::Layout;
use sx_stub::stub;
use sx_tag::Hmac;

/// 2,048 bytes of text and 512 bytes of data.
const LEAST: Layout = Layout {
    pub_from: 0x4000,
    pub_to: 0x4800,
    priv_from: 0x2000,
    priv_to: 0x2200,
};

/// The entry protocol of a module with these ends.
fn protocol(alloc: Global, text: &str, ends: &[End]) -> Result<Code, Fail>
    requires { length ends.now ≤ 16 }
{
    let m = checked(alloc, text)?;
    Ok(stub(alloc, &Hmac::new(), &m, ends, &LEAST)?)
}

/// How many operations the protocol of the logic has, and some at their places: 21 before the
/// entries, 15 + 21 + 11 + 11 in them, 2 * 4 + 3 for the search, 3 after it, 41 + 16 for the
/// packet, 29 + 2 * 6 for the key, and 3.
const OF_LOGIC: (usize, &[(usize, Ir)]) = (
    194,
    &[
        (18, Ir::JumpEqual(6, 2, 68)),
        (20, Ir::JumpEqual(6, 1, 57)),
        (79, Ir::JumpEqual(72, 256, 81)),
        (83, Ir::JumpEqual(72, 1, 85)),
        (136, Ir::Open(520, 16, 6, 2, 2)),
        (146, Ir::Handler(0)),
    ],
);

/// As above, with 16 operations of a sample, 4 + 3 for the search, 41 for the packet and 29 + 6 for
/// the key.
const OF_EYE: (usize, &[(usize, Ir)]) = (
    169,
    &[(1, Ir::Push(3)), (21, Ir::Sense), (33, Ir::Handler(0))],
);

const OF_EMPTY: (usize, &[(usize, Ir)]) = (158, &[(1, Ir::Push(2))]);

/// Whether so many operations are there, with these at these places.
fn has_operations(code: &Code, want: &(usize, &[(usize, Ir)])) -> bool {
    for (at, op) in want.1 {
        if code.ops.get(*at) != Some(op) {
            return false;
        }
    }
    code.ops.len() == want.0
}

#[test]
fn a_protocol_with_an_input(rt: HostRuntime) -> Result<(), Fail> {
    let ends = [end(0, Side::To), end(1, Side::From)];
    let code = protocol(rt.alloc(), LOGIC, ends.as_slice())?;
    assert!(rt; code.parts.is_empty() && has_operations(&code, &OF_LOGIC));
    Ok(())
}

#[test]
fn a_protocol_with_a_sensor(rt: HostRuntime) -> Result<(), Fail> {
    let code = protocol(rt.alloc(), EYE, [end(0, Side::From)].as_slice())?;
    assert!(rt; has_operations(&code, &OF_EYE));
    Ok(())
}

/// The protocol alone is sound in the least sections.
fn fits_the_least_sections(rt: &impl Abort, code: &Code) {
    assert!(rt; code.ops.len() < 256 && has_operations(code, &OF_EMPTY));
    assert!(rt; bytes(code) <= 2048 && sound(code, &LEAST));
}

#[test]
fn a_protocol_alone(rt: HostRuntime) -> Result<(), Fail> {
    let code = protocol(rt.alloc(), "", &[])?;
    fits_the_least_sections(&rt, &code);
    Ok(())
}
