//! Operators on intervals.

ghost use Rattle.std.specs.Prelude.{◌≡◌};
ghost use Rattle.sx_span.specs.Operators.{apply_range, at_most, combine_range, equal, less};

use crate::intervals::{Interval, between, decided, most_of_bits, only, wrapped};
use sx_lang::tree::{BinOp, UnOp};

fn less(a: Interval, b: Interval) -> Interval
    ensures { result ≡ less a b }
{
    decided(a.high < b.low, b.high <= a.low)
}

fn at_most(a: Interval, b: Interval) -> Interval
    ensures { result ≡ at_most a b }
{
    decided(a.high <= b.low, b.high < a.low)
}

fn equal(a: Interval, b: Interval) -> Interval
    ensures { result ≡ equal a b }
{
    decided(
        a.high <= b.low && b.high <= a.low,
        a.high < b.low || b.high < a.low,
    )
}

/// A unary operator.
pub fn apply_range(op: UnOp, a: Interval) -> Interval
    ensures { result ≡ apply_range op a }
{
    match op {
        UnOp::Neg => wrapped(65536 - u32::from(a.high), 65536 - u32::from(a.low)),
        UnOp::Inv => between(65535 - a.high, 65535 - a.low),
        UnOp::Not => decided(a.high == 0, 0 < a.low),
    }
}

/// A binary operator.
pub fn combine_range(op: BinOp, a: Interval, b: Interval) -> Interval
    ensures { result ≡ combine_range op a b }
{
    match op {
        BinOp::Add => wrapped(
            u32::from(a.low) + u32::from(b.low),
            u32::from(a.high) + u32::from(b.high),
        ),
        BinOp::Sub => wrapped(
            u32::from(a.low) + (65536 - u32::from(b.high)),
            u32::from(a.high) + (65536 - u32::from(b.low)),
        ),
        BinOp::Or => {
            if a.low == a.high && b.low == b.high {
                only(a.low | b.low)
            } else {
                between(a.low.max(b.low), most_of_bits(a.high, b.high))
            }
        }
        BinOp::Xor => {
            if a.low == a.high && b.low == b.high {
                only(a.low ^ b.low)
            } else {
                between(0, most_of_bits(a.high, b.high))
            }
        }
        BinOp::Mul => wrapped(
            u32::from(a.low) * u32::from(b.low),
            u32::from(a.high) * u32::from(b.high),
        ),
        BinOp::And => {
            if a.low == a.high && b.low == b.high {
                only(a.low & b.low)
            } else {
                between(0, a.high.min(b.high))
            }
        }
        BinOp::Eq => equal(a, b),
        BinOp::Ne => apply_range(UnOp::Not, equal(a, b)),
        BinOp::Lt => less(a, b),
        BinOp::Le => at_most(a, b),
        BinOp::Gt => less(b, a),
        BinOp::Ge => at_most(b, a),
    }
}
