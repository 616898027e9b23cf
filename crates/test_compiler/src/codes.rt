//! Sizes and soundness of small codes, and the joining of two.

use crate::modules::NotMade;
use std::alloc::{AllocError, Global};
use std::process::Abort;
use std::test::Fail;
use sx_ir::{Code, Ir, bytes, join, offset, sound};
use sx_rules::Layout;
use sx_tag::Weak;

/// Two routines, for the ends 1 and 3.
fn two_packets(alloc: Global) -> Result<Code, AllocError> {
    Ok(Code {
        ops: vec![in alloc;
            Ir::Push(1),
            Ir::Packet(1),
            Ir::Packet(3),
            Ir::JumpZero(0),
            Ir::Stop,
        ]?,
        parts: vec![in alloc; (0, 5)]?,
    })
}

fn layout(public: u16, private: u16) -> Option<Layout> {
    Some(Layout {
        pub_from: 0x4000,
        pub_to: 0x4000u16.checked_add(public)?,
        priv_from: 0x2000,
        priv_to: 0x2000u16.checked_add(private)?,
    })
}

fn is_sound_in(code: &Code, public: u16, private: u16) -> bool {
    match layout(public, private) {
        Some(l) => sound(code, &l),
        None => false,
    }
}

fn has_entry_templates_exit_and_routines(rt: &impl Abort, code: &Code) {
    assert!(rt; code.ops.len() == 5);
    assert!(rt; bytes(code) == 24 + 26 + 34 + 64 + 2 * 140 + 2);
    assert!(rt; offset(code, 3) == 24 + 12);
}

#[test]
fn a_text_is_entry_templates_exit_and_routines(rt: HostRuntime) -> Result<(), Fail> {
    let code = two_packets(rt.alloc())?;
    has_entry_templates_exit_and_routines(&rt, &code);
    Ok(())
}

/// Sizes of the two sections, and whether the code is sound in them.
const ROOMS: [(u16, u16, bool); 3] = [(430, 608, true), (429, 608, false), (430, 607, false)];

fn has_room(rt: &impl Abort, code: &Code) {
    for (public, private, want) in ROOMS.as_slice() {
        assert!(rt; is_sound_in(code, *public, *private) == *want);
    }
}

#[test]
fn sound_code_has_room_for_its_text_and_slots(rt: HostRuntime) -> Result<(), Fail> {
    let code = two_packets(rt.alloc())?;
    has_room(&rt, &code);
    Ok(())
}

/// Code that writes the word at this offset.
fn storing(alloc: Global, at: u16) -> Result<Code, AllocError> {
    Ok(Code {
        ops: vec![in alloc; Ir::Push(1), Ir::Store(at)]?,
        parts: Vec::new(alloc),
    })
}

fn may_be_stored(alloc: Global, at: u16) -> Result<bool, AllocError> {
    let code = storing(alloc, at)?;
    Ok(is_sound_in(&code, 400, 512))
}

/// Offsets, and whether code that writes there is sound.
const STORES: [(u16, bool); 6] = [
    (4, true),
    (6, false),
    (12, false),
    (16, true),
    (102, true),
    (104, false),
];

#[test]
fn code_that_writes_a_saved_register_is_not_sound(rt: HostRuntime) -> Result<(), Fail> {
    for (at, want) in STORES.as_slice() {
        assert!(rt; may_be_stored(rt.alloc(), *at)? == *want);
    }
    Ok(())
}

/// A call of the handler 0, and a jump.
fn calling(alloc: Global) -> Result<Code, AllocError> {
    Ok(Code {
        ops: vec![in alloc; Ir::Handler(0), Ir::Jump(0)]?,
        parts: Vec::new(alloc),
    })
}

fn joined(alloc: Global, stub: &Code, bodies: &Code) -> Result<Code, Fail> {
    if stub.ops.len() == 2 && bodies.ops.len() == 5 {
        Ok(join(alloc, &Weak, stub, bodies)?)
    } else {
        Err(NotMade)?
    }
}

fn stands_behind_two_operations(rt: &impl Abort, code: &Code) {
    assert!(rt; code.ops.len() == 7);
    assert!(rt; code.ops.get(1) == Some(&Ir::Jump(0)));
    assert!(rt; code.ops.get(5) == Some(&Ir::JumpZero(2)));
    assert!(rt; code.parts.first() == Some(&(2, 7)));
}

#[test]
fn handlers_move_behind_the_entry_protocol(rt: HostRuntime) -> Result<(), Fail> {
    let alloc = rt.alloc();
    let code = joined(alloc, &calling(alloc)?, &two_packets(alloc)?)?;
    stands_behind_two_operations(&rt, &code);
    Ok(())
}
