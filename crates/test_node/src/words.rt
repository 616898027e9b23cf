//! Words worked by hand from the format tables, and how many first words are legal.

use sx_isa::{Instr, Op1, Op2, Operand, decode, encode, length, valid, with_words};

/// What the words begin with. It has no clause, so that a test carries nothing of what the call
/// says.
fn read(words: [u16; 3]) -> Option<(Instr, u8)> {
    let [w0, w1, w2] = words;
    decode(w0, w1, w2)
}

/// Whether an instruction is written as these words, of which so many count.
fn is_written(i: &Instr, words: [u16; 3], size: u8) -> bool {
    if !valid(i) {
        return false;
    }
    let found = encode(i);
    found.w == words && found.len == size
}

/// Words that were assembled by hand from the format's tables.
const ROWS: [([u16; 3], u8, Instr); 4] = [
    (
        [0x4526, 0, 0],
        1,
        Instr::Two {
            op: Op2::Mov,
            byte: false,
            src: Operand::Indirect(5),
            dst: Operand::Reg(6),
        },
    ),
    (
        [0xe3d2, 0x306, 0],
        2,
        Instr::Two {
            op: Op2::Xor,
            byte: true,
            src: Operand::Const(1),
            dst: Operand::Absolute(0x306),
        },
    ),
    (
        [0x12b0, 0x4400, 0],
        2,
        Instr::One {
            op: Op1::Call,
            byte: false,
            arg: Operand::Immediate(0x4400),
        },
    ),
    (
        [0x5490, 2, 6],
        3,
        Instr::Two {
            op: Op2::Add,
            byte: false,
            src: Operand::Indexed(4, 2),
            dst: Operand::Symbolic(6),
        },
    ),
];

#[test]
fn worked_words(rt: HostRuntime) {
    for (words, size, i) in ROWS.as_slice() {
        assert!(rt; read(*words) == Some((*i, *size)));
        assert!(rt; is_written(i, *words, *size));
    }
    let (src, dst) = (Operand::Indexed(4, 2), Operand::Symbolic(6));
    let moved = (Operand::Indexed(4, 8), Operand::Symbolic(10));
    assert!(rt; with_words(src, dst, 8, 10) == moved);
    let (cond, offset) = (7, 512);
    assert!(rt; !valid(&Instr::Jump { cond, offset }));
}

/// The first word of an instruction.
fn first_of(i: &Instr) -> Option<u16> {
    if valid(i) { Some(encode(i).w[0]) } else { None }
}

/// Whether a word is the first of what it begins with, which has so many words, or none.
fn is_first(w0: u16, size: u8) -> bool {
    match read([w0, 0x1234, 0x5678]) {
        Some((i, len)) => len == size && first_of(&i) == Some(w0),
        None => size == 0,
    }
}

/// Of all first words: how many are legal, by length, counted apart from this program.
#[test]
fn all_first_words(rt: HostRuntime) {
    let mut counts = [0u16; 4];
    for w0 in 0..=u16::MAX {
        let size = length(w0).unwrap_or(0);
        assert!(rt; is_first(w0, size));
        let count = &mut counts[usize::from(size.min(3))];
        *count = count.wrapping_add(1);
    }
    assert!(rt; counts == [13_154, 25_492, 21_610, 5_280]);
}
