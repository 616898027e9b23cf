//! Texts against words that were assembled by hand with TI's guide, and against assembly.

use crate::modules::NotMade;
use std::alloc::{AllocError, Global};
use std::process::Abort;
use std::test::Fail;
use sx_asm::assemble;
use sx_ir::{Code, Ir, IrOp, sound};
use sx_rules::Layout;
use sx_tag::Weak;
use sx_tmpl::emit;

/// PUSH #3; PUSH #9; CMP @SP+, 0(SP); CLR 0(SP); JC .+2; MOV #1, 0(SP); BR #exit
const COMPARISON: [u8; 26] = [
    0x30, 0x12, 3, 0, 0x30, 0x12, 9, 0, 0xb1, 0x91, 0, 0, 0x81, 0x43, 0, 0, 0x02, 0x2c, 0x91, 0x43,
    0, 0, 0x30, 0x40, 0x32, 0x40,
];

const LAYOUT: Layout = Layout {
    pub_from: 0x4000,
    pub_to: 0x4200,
    priv_from: 0x6000,
    priv_to: 0x6200,
};

fn comparison(alloc: Global) -> Result<Code, AllocError> {
    Ok(Code {
        ops: vec![in alloc; Ir::Push(3), Ir::Push(9), Ir::Op(IrOp::Lt), Ir::Leave]?,
        parts: vec![in alloc;]?,
    })
}

fn text_of(alloc: Global, code: &Code) -> Result<Vec<u8>, Fail> {
    if sound(code, &LAYOUT) {
        Ok(emit(alloc, &Weak, code, &LAYOUT)?)
    } else {
        Err(NotMade)?
    }
}

fn compares(rt: &impl Abort, text: &[u8]) {
    assert!(rt; text.len() == 150);
    assert!(rt; &text[24..50] == COMPARISON.as_slice());
}

#[test]
fn a_comparison(rt: HostRuntime) -> Result<(), Fail> {
    let alloc = rt.alloc();
    let text = text_of(alloc, &comparison(alloc)?)?;
    compares(&rt, &text);
    Ok(())
}

/// PUSH #3; CMP @SP+, &zero; JNZ .+2; BR #leave; leave: BR #exit
const BRANCH: [u8; 18] = [
    0x30, 0x12, 3, 0, 0xb2, 0x91, 0x50, 0x40, 0x02, 0x20, 0x30, 0x40, 0x26, 0x40, 0x30, 0x40, 0x2a,
    0x40,
];

fn branch(alloc: Global) -> Result<Code, AllocError> {
    Ok(Code {
        ops: vec![in alloc; Ir::Push(3), Ir::JumpZero(2), Ir::Leave]?,
        parts: vec![in alloc;]?,
    })
}

/// The word of zeros is the third of the routine after the exit.
fn branches(rt: &impl Abort, text: &[u8]) {
    assert!(rt; text.len() == 142);
    assert!(rt; &text[24..42] == BRANCH.as_slice() && &text[80..82] == [0, 0].as_slice());
}

#[test]
fn a_branch(rt: HostRuntime) -> Result<(), Fail> {
    let alloc = rt.alloc();
    let text = text_of(alloc, &branch(alloc)?)?;
    branches(&rt, &text);
    Ok(())
}

/// CMP #7, &0x6010; JNZ .+2; BR #leave; leave: BR #exit
const EQUAL: [u8; 16] = [
    0xb2, 0x90, 7, 0, 0x10, 0x60, 0x02, 0x20, 0x30, 0x40, 0x24, 0x40, 0x30, 0x40, 0x28, 0x40,
];

fn equal(alloc: Global) -> Result<Code, AllocError> {
    Ok(Code {
        ops: vec![in alloc; Ir::JumpEqual(16, 7, 1), Ir::Leave]?,
        parts: vec![in alloc;]?,
    })
}

fn tells_equal(rt: &impl Abort, text: &[u8]) {
    assert!(rt; text.len() == 140);
    assert!(rt; &text[24..40] == EQUAL.as_slice());
}

#[test]
fn a_branch_on_a_word_of_the_data(rt: HostRuntime) -> Result<(), Fail> {
    let alloc = rt.alloc();
    let text = text_of(alloc, &equal(alloc)?)?;
    tells_equal(&rt, &text);
    Ok(())
}

/// The text of `sending` as assembly by hand: the templates of the operations, and what occurs once
/// in a text, where the private section begins at 0x6000.
const SENDING: &str = "
// the entry: SP and the caller's R12 to R15 are kept, and the stack begins
mov sp, &0x6094
mov r12, &0x6006
mov r13, &0x6008
mov r14, &0x600a
mov r15, &0x600c
mov #0x6200, sp
// the operations
push #3
call #packet
add #2, sp
mov #exit, pc
// the exit: the results, all other registers 0, and the return
exit: mov @sp+, r13
mov @sp+, r12
mov #0, r4
mov #0, r5
mov #0, r6
mov #0, r7
mov #0, r8
mov #0, r9
mov #0, r10
mov #0, r11
mov #0, r14
mov #0, r15
mov #0, sr
mov &0x6094, sp
mov &0x600c, pc
// the slot at R12 is opened: the field of the copied packet, number 0, and the key
mov &0x6012, 0(r12)
mov #0, 2(r12)
mov #1, 4(r12)
mov &0x6038, 8(r12)
mov &0x603a, 10(r12)
mov &0x603c, 12(r12)
mov &0x603e, 14(r12)
mov &0x6040, 16(r12)
mov &0x6042, 18(r12)
mov &0x6044, 20(r12)
mov &0x6046, 22(r12)
mov @sp+, pc
// a packet of the end whose slot is at 0x6200, where it is open and not at its last number
packet: cmp #0, &0x6204
jeq done
cmp #65535, &0x6202
jeq done
// its header and its body
mov #3, &0x606a
mov &0x6200, &0x606c
mov &0x6202, &0x606e
mov 2(sp), &0x6082
// the body is wrapped under the end's key
mov #0x6208, r9
mov #0x606a, r10
mov #6, r11
mov #0x6082, r12
mov #2, r13
mov #0x6070, r14
mov #0x6072, r15
wrap
// the packet goes to the out-window, after the pieces that were made, eight bytes a turn
mov &0x6004, r12
add r12, r12
add r12, r12
add r12, r12
mov r12, r14
add r12, r12
add r14, r12
add &0x600a, r12
mov #0x606a, r13
mov #3, r15
turn: mov.b @r13+, 0(r12)
mov.b @r13+, 1(r12)
mov.b @r13+, 2(r12)
mov.b @r13+, 3(r12)
mov.b @r13+, 4(r12)
mov.b @r13+, 5(r12)
mov.b @r13+, 6(r12)
mov.b @r13+, 7(r12)
add #8, r12
sub #1, r15
jne turn
// one more number, and one more piece
add #1, &0x6202
add #1, &0x6004
done: mov @sp+, pc
.word 0
";

/// A private section with room for one slot.
const SENDER: Layout = Layout {
    pub_from: 0x4000,
    pub_to: 0x4200,
    priv_from: 0x6000,
    priv_to: 0x6218,
};

fn sending(alloc: Global) -> Result<Code, AllocError> {
    Ok(Code {
        ops: vec![in alloc; Ir::Push(3), Ir::Packet(0), Ir::Drop, Ir::Leave]?,
        parts: vec![in alloc;]?,
    })
}

fn sender_text(alloc: Global, code: &Code) -> Result<Vec<u8>, Fail> {
    if sound(code, &SENDER) {
        Ok(emit(alloc, &Weak, code, &SENDER)?)
    } else {
        Err(NotMade)?
    }
}

#[test]
fn a_listing(rt: HostRuntime) -> Result<(), Fail> {
    let alloc = rt.alloc();
    let text = sender_text(alloc, &sending(alloc)?)?;
    assert!(rt; assemble(alloc, 0x4000, SENDING)?.as_slice() == text.as_slice());
    Ok(())
}
