//! The result and the flags of each calculation.

ghost use Rattle.std.specs.Prelude.{◌≡◌, ◌+◌, ◌*◌, ◌%◌, ◌<◌, ◌&&◌, IsTrue, true, not, nat_le};
ghost use Rattle.std.specs.Prelude.{if◌then◌else◌};
ghost use Rattle.sx_alu.specs.Table.{limit, half, is_negative, row, sum_row};
ghost use Rattle.sx_alu.specs.Widths.{has_width};
ghost use Rattle.sx_alu.specs.Table.{difference_row, carried, differ, tested, shifted, extended};
ghost use Rattle.sx_alu.specs.Table.{with_flags};
ghost use Rattle.lemmas.specs.Truth.{truth};

use crate::calculation::Calc;
use crate::flags::Flags;
use crate::status::StatusBits;

fn limit(wide: bool) -> u32
    ensures { result ≡ limit wide }
{
    if wide { 0x10000 } else { 0x100 }
}

fn cut(wide: bool, x: u16) -> u16
    ensures { result ≡ x % limit wide }
{
    if wide { x } else { x & 0xff }
}

fn half(wide: bool) -> u16
    ensures { result ≡ half wide }
{
    if wide { 0x8000 } else { 0x80 }
}

fn is_negative(wide: bool, x: u16) -> bool
    ensures { result ≡ is_negative wide x }
{
    half(wide) <= x
}

#[inline(always)]
fn with_flags(wide: bool, r: u16, c: bool, v: bool) -> (u16, StatusBits)
    ensures { result ≡ with_flags wide r c v }
{
    (r, StatusBits::new(c, r == 0, is_negative(wide, r), v))
}

/// A sum cut to its width, with the carry out of it. V is set where the result's sign isn't the
/// destination's, if the operands' signs let it overflow.
#[inline(always)]
fn carried(wide: bool, sum: u32, d: u16, can_overflow: bool) -> (u16, StatusBits)
    ensures { result
        ≡ carried wide sum
        (can_overflow && differ (is_negative wide (sum % limit wide)) (is_negative wide d)) }
{
    let r = (sum % limit(wide)) as u16;
    let v = can_overflow && is_negative(wide, r) != is_negative(wide, d);
    with_flags(wide, r, limit(wide) <= sum, v)
}

#[inline(always)]
fn sum(wide: bool, s: u16, d: u16, carry: bool) -> (u16, StatusBits)
    requires s { s < limit wide }
    requires d { d < limit wide }
    ensures { result ≡ sum_row wide s d (truth carry) }
{
    let sum = u32::from(d) + u32::from(s) + u32::from(carry);
    carried(wide, sum, d, is_negative(wide, d) == is_negative(wide, s))
}

#[inline(always)]
fn difference(wide: bool, s: u16, d: u16, carry: bool) -> (u16, StatusBits)
    requires s { s < limit wide }
    requires d { d < limit wide }
    ensures { result ≡ difference_row wide s d (truth carry) }
{
    let sum = u32::from(d) + (limit(wide) - 1 - u32::from(s)) + u32::from(carry);
    carried(wide, sum, d, is_negative(wide, d) != is_negative(wide, s))
}

/// A word with its sign in all bits above it.
fn sign_extended(x: u16) -> u32
    ensures { result ≡ x + truth (is_negative true x) * 0xffff0000 }
{
    u32::from(x.wrapping_add(0x8000)).wrapping_sub(0x8000)
}

/// Whether a sum of words is wrong as a signed number.
fn sum_overflows(s: u16, d: u16) -> bool
    ensures { result ≡ (not (differ (is_negative true d) (is_negative true s))
        && differ (is_negative true ((d + s) % 65536)) (is_negative true d)) }
{
    let sum = sign_extended(d).wrapping_add(sign_extended(s));
    sum.wrapping_add(0x8000) > 0xffff
}

/// Whether a word is below another as a signed number.
fn is_less(d: u16, s: u16) -> bool
    ensures { result ≡ if differ (is_negative true d) (is_negative true s) then is_negative true d
        else nat_le (d + 1) s }
{
    d.wrapping_add(0x8000) < s.wrapping_add(0x8000)
}

/// The sum of two words, in a form of which the compiler makes one addition and takes its flags.
#[inline(always)]
fn word_sum(s: u16, d: u16) -> (u16, StatusBits)
    ensures { result ≡ sum_row true s d 0 }
{
    let r = d.wrapping_add(s);
    with_flags(true, r, r < d, sum_overflows(s, d))
}

/// The difference of two words, in such a form. V is set where N doesn't say whether the
/// destination is below the source as a signed number. Both are numbers, since of booleans the
/// compiler finds N twice.
#[inline(always)]
fn word_difference(s: u16, d: u16) -> (u16, StatusBits)
    ensures { result ≡ difference_row true s d 1 }
{
    let r = d.wrapping_sub(s);
    let n = r >> 15;
    let v = n ^ u16::from(is_less(d, s));
    (r, StatusBits::of_numbers(s <= d, r == 0, n, v))
}

/// A sum without a carry. Bytes have the flags of the words whose high bytes they are.
#[inline(always)]
fn plain_sum(wide: bool, s: u16, d: u16) -> (u16, StatusBits)
    requires s { s < limit wide }
    requires d { d < limit wide }
    ensures { result ≡ sum_row wide s d 0 }
{
    if wide {
        return word_sum(s, d);
    }
    let (r, flags) = word_sum(s * 256, d * 256);
    (r / 256, flags)
}

/// The same of a difference.
#[inline(always)]
fn plain_difference(wide: bool, s: u16, d: u16) -> (u16, StatusBits)
    requires s { s < limit wide }
    requires d { d < limit wide }
    ensures { result ≡ difference_row wide s d 1 }
{
    if wide {
        return word_difference(s, d);
    }
    let (r, flags) = word_difference(s * 256, d * 256);
    (r / 256, flags)
}

fn tested(wide: bool, r: u16, v: bool) -> (u16, StatusBits)
    ensures { result ≡ tested wide r v }
{
    with_flags(wide, r, r != 0, v)
}

fn shifted(wide: bool, s: u16, top: bool) -> (u16, StatusBits)
    requires { s < limit wide }
    ensures { result ≡ shifted wide s top }
{
    let entered = if top { half(wide) } else { 0 };
    with_flags(wide, s / 2 + entered, s % 2 == 1, false)
}

fn extended(s: u16) -> u16
    ensures { result ≡ extended s }
{
    let low = s & 0xff;
    if is_negative(false, low) {
        low | 0xff00
    } else {
        low
    }
}

/// The result of a calculation, and the flags after it. `wide` says that it is on words; on bytes
/// the high bytes of `src` and `dst` don't matter, and the result is below 256. `Swap` and `Extend`
/// are on words alone. The calculations on one operand ignore `dst`. The rows are those of TI's
/// MSP430x2xx Family User's Guide, "Instruction Set". It is for programs that keep flags apart; a
/// node takes `calc_status`.
pub fn calc(kind: Calc, wide: bool, src: u16, dst: u16, flags: Flags) -> (u16, Flags)
    requires { IsTrue (has_width kind wide) }
    ensures row { result ≡ row kind wide (src % limit wide) (dst % limit wide) flags }
    ensures below { result.0 < limit wide }
{
    let (value, flags) = calc_status(kind, wide, src, dst, StatusBits::of_flags(flags));
    (value, flags.flags())
}

/// The same on the flags as bits of the status register.
#[inline(always)]
pub fn calc_status(
    kind: Calc,
    wide: bool,
    src: u16,
    dst: u16,
    flags: StatusBits,
) -> (u16, StatusBits)
    requires { IsTrue (has_width kind wide) }
    ensures row { result ≡ row kind wide (src % limit wide) (dst % limit wide) flags }
    ensures below { result.0 < limit wide }
{
    let s = cut(wide, src);
    let d = cut(wide, dst);
    match kind {
        Calc::Add => plain_sum(wide, s, d),
        Calc::AddCarry => sum(wide, s, d, flags.c()),
        Calc::Sub => plain_difference(wide, s, d),
        Calc::SubCarry => difference(wide, s, d, flags.c()),
        Calc::And => tested(wide, d & s, false),
        Calc::AndNot => (d & cut(wide, !s), flags),
        Calc::Or => (d | s, flags),
        Calc::Xor => tested(wide, d ^ s, is_negative(wide, d) && is_negative(wide, s)),
        Calc::Rrc => shifted(wide, s, flags.c()),
        Calc::Rra => shifted(wide, s, is_negative(wide, s)),
        Calc::Swap => (s.swap_bytes(), flags),
        Calc::Extend => tested(wide, extended(s), false),
    }
}
