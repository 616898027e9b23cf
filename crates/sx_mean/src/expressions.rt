//! The values of expressions.

ghost use Rattle.std.specs.Prelude.{◌≡◌, slice_index};
ghost use Rattle.sx_lang.specs.View.{expression_of};
ghost use Rattle.sx_mean.specs.Meaning.{apply, combine, element, look_up, value, word};
ghost use Rattle.sx_mean.specs.Sized.{AreSizedDecls};
ghost use Rattle.sx_mean.specs.View.{state_of};
ghost use Rattle.lemmas.specs.Truth.{truth};

use crate::moments::{Local, Moment};
use crate::places::{array_length, place};
use sx_lang::names::Name;
use sx_lang::tree::{BinOp, Decl, Expr, UnOp};

fn truth(b: bool) -> u16
    ensures { result ≡ truth b }
{
    u16::from(b)
}

fn apply(op: UnOp, a: u16) -> u16
    ensures { result ≡ apply op a }
{
    match op {
        UnOp::Neg => 0u16.wrapping_sub(a),
        UnOp::Inv => !a,
        UnOp::Not => truth(a == 0),
    }
}

fn combine(op: BinOp, a: u16, b: u16) -> u16
    ensures { result ≡ combine op a b }
{
    match op {
        BinOp::Add => a.wrapping_add(b),
        BinOp::Sub => a.wrapping_sub(b),
        BinOp::Or => a | b,
        BinOp::Xor => a ^ b,
        BinOp::Mul => a.wrapping_mul(b),
        BinOp::And => a & b,
        BinOp::Eq => truth(a == b),
        BinOp::Ne => truth(a != b),
        BinOp::Lt => truth(a < b),
        BinOp::Le => truth(a <= b),
        BinOp::Gt => truth(a > b),
        BinOp::Ge => truth(a >= b),
    }
}

fn look_up(locals: &[Local], x: &Name) -> Option<u16>
    ensures { result ≡ look_up locals.now x.now }
{
    for l in locals {
        if *x == l.name {
            return Some(l.value);
        }
    }
    None
}

fn cell(cells: &[u16], at: usize) -> u16
    ensures { result ≡ slice_index cells.now at }
{
    if at < cells.len() { cells[at] } else { 0 }
}

fn word(decls: &[Decl], moment: &Moment, x: &Name) -> u16
    requires { AreSizedDecls decls.now }
    ensures { result ≡ word decls.now (state_of moment.now) x.now }
{
    match look_up(&moment.locals, x) {
        Some(value) => value,
        None => cell(&moment.cells, place(decls, x)),
    }
}

fn element(decls: &[Decl], moment: &Moment, x: &Name, index: u16) -> u16
    requires { AreSizedDecls decls.now }
    ensures { result ≡ element decls.now (state_of moment.now) x.now index }
{
    if index < array_length(decls, x) {
        cell(&moment.cells, place(decls, x) + usize::from(index))
    } else {
        0
    }
}

/// The word that an expression is worth.
pub fn evaluate(decls: &[Decl], moment: &Moment, e: &Expr) -> u16
    requires { AreSizedDecls decls.now }
    ensures { result ≡ value decls.now (state_of moment.now) (expression_of e.now) }
{
    match e {
        Expr::Number(n) => *n,
        Expr::Read(x) => word(decls, moment, x),
        Expr::At(x, index) => {
            let index = evaluate(decls, moment, index);
            element(decls, moment, x, index)
        }
        Expr::Unary(op, operand) => {
            let operand = evaluate(decls, moment, operand);
            apply(*op, operand)
        }
        Expr::Binary(op, left, right) => {
            let left = evaluate(decls, moment, left);
            let right = evaluate(decls, moment, right);
            combine(*op, left, right)
        }
    }
}
