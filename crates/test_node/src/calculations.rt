//! Rows of the calculation table worked by hand, and flags in status registers.

ghost use Rattle.std.specs.Prelude.{◌≡◌};
ghost use Rattle.sx_alu.specs.Widths.{has_width};

use sx_alu::{Calc, StatusBits, calc};

/// A calculation, whether it is on words, its operands and the status register before it, and the
/// result and the flags after it, as a status register has them.
type Row = (Calc, bool, [u16; 3], [u16; 2]);

/// Rows of TI's tables, worked by hand: one at least for each calculation.
const ROWS: [Row; 14] = [
    (Calc::Add, true, [0x7fff, 1, 0], [0x8000, 0x104]),
    (Calc::Add, false, [0xff, 0x1201, 0], [0, 3]),
    (Calc::AddCarry, true, [0xffff, 0, 1], [0, 3]),
    (Calc::Sub, true, [3, 3, 0], [0, 3]),
    (Calc::Sub, true, [1, 0x8000, 0], [0x7fff, 0x101]),
    (Calc::SubCarry, true, [0, 0, 0], [0xffff, 4]),
    (Calc::And, true, [0xff00, 0x8180, 1], [0x8100, 5]),
    (Calc::AndNot, false, [0x0f, 0x3ff, 1], [0xf0, 1]),
    (Calc::Or, true, [0x0f, 0xf0, 1], [0xff, 1]),
    (Calc::Xor, true, [0x8001, 0x8001, 0], [0, 0x102]),
    (Calc::Rrc, true, [1, 0, 1], [0x8000, 5]),
    (Calc::Rra, false, [0x81, 0, 0], [0xc0, 5]),
    (Calc::Swap, true, [0x1234, 0, 0], [0x3412, 0]),
    (Calc::Extend, true, [0x1280, 0, 0], [0xff80, 5]),
];

fn has_width(kind: Calc, wide: bool) -> bool
    ensures { result ≡ has_width kind wide }
{
    match kind {
        Calc::Swap | Calc::Extend => wide,
        _ => true,
    }
}

/// Whether a row's calculation gives what the row says.
fn is_given(row: &Row) -> bool {
    let (kind, wide, [src, dst, before], want) = *row;
    if !has_width(kind, wide) {
        return false;
    }
    let (result, flags) = calc(kind, wide, src, dst, StatusBits::of_status(before).flags());
    [result, StatusBits::of_flags(flags).in_status(0)] == want
}

#[test]
fn worked_rows(rt: HostRuntime) {
    for row in ROWS.as_slice() {
        assert!(rt; is_given(row));
    }
}

// C is bit 0, Z bit 1, N bit 2 and V bit 8 of the status register.
#[test]
fn status_bits(rt: HostRuntime) {
    let flags = StatusBits::of_status(0x0109).flags();
    assert!(rt; flags.c && !flags.z && !flags.n && flags.v);
    let bits = StatusBits::of_flags(flags);
    assert!(rt; [bits.in_status(0x02f6), bits.in_status(0)] == [0x03f1, 0x101]);
    assert!(rt; StatusBits::of_status(0).in_status(0xffff) == 0xfef8);
}
