//! Where the values of expressions lie.

ghost use Rattle.std.specs.Prelude.{◌≡◌, ◌+◌, ◌≤◌};
ghost use Rattle.sx_lang.specs.View.{expression_of};
ghost use Rattle.sx_mean.specs.Sized.{AreSizedDecls};
ghost use Rattle.sx_span.specs.Ranges.{cell_range, element_range, look_up_range, range_of};
ghost use Rattle.sx_span.specs.Ranges.{spread, word_range};
ghost use Rattle.sx_span.specs.View.{path_of};

use crate::intervals::{Interval, hull, only};
use crate::operators::{apply_range, combine_range};
use crate::pieces::{LocalRange, Trail};
use sx_lang::names::Name;
use sx_lang::tree::{Decl, Expr};
use sx_mean::places::{array_length, place};

/// The interval of a local, if there is one of this name.
pub fn look_up_range(locals: &[LocalRange], x: &Name) -> Option<Interval>
    ensures { result ≡ look_up_range locals.now x.now }
{
    for l in locals {
        if *x == l.name {
            return Some(l.range);
        }
    }
    None
}

fn cell_range(cells: &[Interval], at: usize) -> Interval
    ensures { result ≡ cell_range cells.now at }
{
    if at < cells.len() { cells[at] } else { only(0) }
}

fn word_range(decls: &[Decl], trail: &Trail, x: &Name) -> Interval
    requires { AreSizedDecls decls.now }
    ensures { result ≡ word_range decls.now (path_of trail.now) x.now }
{
    match look_up_range(&trail.locals, x) {
        Some(range) => range,
        None => cell_range(&trail.cells, place(decls, x)),
    }
}

fn spread(cells: &[Interval], from: usize, more: u16) -> Interval
    requires { from ≤ 70000 }
    ensures { result ≡ spread cells.now from more }
{
    let mut all = cell_range(cells, from + usize::from(more));
    for k in 0..more {
        all = hull(cell_range(cells, from + usize::from(more - (k + 1))), all);
    }
    all
}

fn element_range(decls: &[Decl], trail: &Trail, x: &Name, i: Interval) -> Interval
    requires { AreSizedDecls decls.now }
    ensures { result ≡ element_range decls.now (path_of trail.now) x.now i }
{
    let length = array_length(decls, x);
    let first = place(decls, x);
    if i.high < length {
        spread(
            &trail.cells,
            first + usize::from(i.low),
            i.high.saturating_sub(i.low),
        )
    } else if i.low < length {
        hull(
            only(0),
            spread(
                &trail.cells,
                first + usize::from(i.low),
                length - (i.low + 1),
            ),
        )
    } else {
        only(0)
    }
}

/// Where an expression's value lies.
pub fn range_of(decls: &[Decl], trail: &Trail, e: &Expr) -> Interval
    requires { AreSizedDecls decls.now }
    ensures { result ≡ range_of decls.now (path_of trail.now) (expression_of e.now) }
{
    match e {
        Expr::Number(n) => only(*n),
        Expr::Read(x) => word_range(decls, trail, x),
        Expr::At(x, index) => {
            let index = range_of(decls, trail, index);
            element_range(decls, trail, x, index)
        }
        Expr::Unary(op, operand) => {
            let operand = range_of(decls, trail, operand);
            apply_range(*op, operand)
        }
        Expr::Binary(op, left, right) => {
            let left = range_of(decls, trail, left);
            let right = range_of(decls, trail, right);
            combine_range(*op, left, right)
        }
    }
}
