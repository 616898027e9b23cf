//! Parsing of expressions.

ghost use Rattle.std.specs.Prelude.{◌≡◌, ◌+◌, ◌<◌, ◌≤◌, ◌∷◌, length, IfOk};
ghost use Rattle.sx_lang.specs.Tree.{Indexed, Applied, Combined};
ghost use Rattle.sx_lang.specs.View.{expression_of};
ghost use Rattle.spec_grammar.specs.Machine.{Operand, Factors, Index_of, An_expression};
ghost use Rattle.spec_grammar.specs.Machine.{Of_expression};
ghost use Rattle.sx_parse.specs.Wanted.{sum_wanted, value_wanted};
ghost use Rattle.sx_parse.specs.Reading.{ReadsOr};

use crate::operator::{addend_operator, comparison_operator, factor_operator, unary_operator};
use crate::sign::{Sign, take};
use crate::stop::{Front, Stop};
use std::alloc::{AllocError, Global};
use sx_lang::names::Name;
use sx_lang::tree::{BinOp, Expr, UnOp};
use sx_lex::tokens::{Kind, Placed};

/// The most of `(`, `[`, `{` and unary operators that may be open at a time.
pub const MOST_OPEN: u8 = 48;

/// The most operators in one sum, and in one term.
const MOST_OPERATORS: u8 = 48;

fn combined(alloc: Global, op: BinOp, left: Expr, right: Expr) -> Result<Expr, AllocError>
    ensures { IfOk result (λ e. expression_of e ≡ Combined op (expression_of left)
        (expression_of right)) }
{
    Ok(Expr::Binary(op, Box::new(alloc, left)?, Box::new(alloc, right)?))
}

fn indexed(alloc: Global, name: Name, index: Expr) -> Result<Expr, AllocError>
    ensures { IfOk result (λ e. expression_of e ≡ Indexed name (expression_of index)) }
{
    Ok(Expr::At(name, Box::new(alloc, index)?))
}

fn applied(alloc: Global, op: UnOp, operand: Expr) -> Result<Expr, AllocError>
    ensures { IfOk result (λ e. expression_of e ≡ Applied op (expression_of operand)) }
{
    Ok(Expr::Unary(op, Box::new(alloc, operand)?))
}

/// A unary operator and its operand, or what an expression's smallest parts are.
#[cycle(expression)]
#[tactic(auto, using(crate::proofs::Expressions::unary_operand))]
fn operand<'a>(alloc: Global, tokens: &'a [Placed], depth: u8) -> Front<'a, Expr>
    requires { depth ≤ MOST_OPEN }
    ensures reads { ReadsOr result (λ st. Operand ∷ st) depth tokens.now
        (λ p. Of_expression (expression_of p.0)) (λ p. p.1.now) }
    ensures shorter { IfOk result (λ p. length p.1.now < length tokens.now) }
{
    let Some((first, rest)) = tokens.split_first() else {
        return Err(Stop::Fault(None));
    };
    if let Some(op) = unary_operator(first.kind) {
        if depth >= MOST_OPEN {
            return Err(Stop::Fault(Some(*first)));
        }
        let (inner, rest) = operand(alloc, rest, depth + 1)?;
        let found = applied(alloc, op, inner)?;
        return Ok((found, rest));
    }
    match first.kind {
        Kind::Number(n) => Ok((Expr::Number(n), rest)),
        Kind::Name(name) => variable(alloc, name, rest, depth),
        Kind::Open => {
            if depth >= MOST_OPEN {
                return Err(Stop::Fault(Some(*first)));
            }
            let (inner, rest) = expression(alloc, rest, depth + 1)?;
            let rest = take(rest, Sign::Close)?;
            Ok((inner, rest))
        }
        _ => Err(Stop::Fault(Some(*first))),
    }
}

/// A name that was read, and the index that may follow it.
#[cycle(expression)]
#[tactic(auto, using(crate::proofs::Expressions::name_indexed))]
fn variable<'a>(alloc: Global, name: Name, tokens: &'a [Placed], depth: u8) -> Front<'a, Expr>
    requires { depth ≤ MOST_OPEN }
    ensures reads { ReadsOr result (λ st. Index_of name ∷ st) depth tokens.now
        (λ p. Of_expression (expression_of p.0)) (λ p. p.1.now) }
    ensures shorter { IfOk result (λ p. length p.1.now ≤ length tokens.now) }
{
    let Some((first, rest)) = tokens.split_first() else {
        return Ok((Expr::Read(name), tokens));
    };
    match first.kind {
        Kind::OpenSquare => {
            if depth >= MOST_OPEN {
                return Err(Stop::Fault(Some(*first)));
            }
            let (inner, rest) = expression(alloc, rest, depth + 1)?;
            let rest = take(rest, Sign::CloseSquare)?;
            let found = indexed(alloc, name, inner)?;
            Ok((found, rest))
        }
        _ => Ok((Expr::Read(name), tokens)),
    }
}

#[cycle(expression)]
#[tactic(auto, using(crate::proofs::Expressions::one_factor))]
fn term<'a>(alloc: Global, tokens: &'a [Placed], depth: u8) -> Front<'a, Expr>
    requires { depth ≤ MOST_OPEN }
    ensures reads { ReadsOr result (λ st. Operand ∷ Factors 0 ∷ st) depth tokens.now
        (λ p. Of_expression (expression_of p.0)) (λ p. p.1.now) }
    ensures shorter { IfOk result (λ p. length p.1.now < length tokens.now) }
{
    let (mut left, mut rest) = operand(alloc, tokens, depth)?;
    let mut count: u8 = 0;
    while let Some((first, after)) = rest.split_first() {
        let Some(op) = factor_operator(first.kind) else {
            break;
        };
        if count >= MOST_OPERATORS {
            return Err(Stop::Fault(Some(*first)));
        }
        let (right, more) = operand(alloc, after, depth)?;
        left = combined(alloc, op, left, right)?;
        rest = more;
        count += 1;
    }
    Ok((left, rest))
}

#[cycle(expression)]
#[tactic(auto, using(crate::proofs::Expressions::one_addend))]
fn sum<'a>(alloc: Global, tokens: &'a [Placed], depth: u8) -> Front<'a, Expr>
    requires { depth ≤ MOST_OPEN }
    ensures reads { ReadsOr result sum_wanted depth tokens.now
        (λ p. Of_expression (expression_of p.0)) (λ p. p.1.now) }
    ensures shorter { IfOk result (λ p. length p.1.now < length tokens.now) }
{
    let (mut left, mut rest) = term(alloc, tokens, depth)?;
    let mut count: u8 = 0;
    while let Some((first, after)) = rest.split_first() {
        let Some(op) = addend_operator(first.kind) else {
            break;
        };
        if count >= MOST_OPERATORS {
            return Err(Stop::Fault(Some(*first)));
        }
        let (right, more) = term(alloc, after, depth)?;
        left = combined(alloc, op, left, right)?;
        rest = more;
        count += 1;
    }
    Ok((left, rest))
}

/// An expression, inside `depth` open brackets and unary operators. It stops at the first token
/// that can't follow those before it, or where memory runs out.
#[cycle(expression)]
#[tactic(auto, using(crate::proofs::Expressions::expression_stops, crate::proofs::Expressions::expression_ends, crate::proofs::Expressions::expression_alone, crate::proofs::Expressions::expression_compares, crate::proofs::Expressions::expression_breaks))]
pub fn expression<'a>(alloc: Global, tokens: &'a [Placed], depth: u8) -> Front<'a, Expr>
    requires { depth ≤ MOST_OPEN }
    ensures reads { ReadsOr result (λ st. An_expression ∷ st) depth tokens.now
        (λ p. Of_expression (expression_of p.0)) (λ p. p.1.now) }
    ensures shorter { IfOk result (λ p. length p.1.now < length tokens.now) }
{
    let (left, rest) = sum(alloc, tokens, depth)?;
    let Some((first, after)) = rest.split_first() else {
        return Ok((left, rest));
    };
    let Some(op) = comparison_operator(first.kind) else {
        return Ok((left, rest));
    };
    let (right, rest) = sum(alloc, after, depth)?;
    let found = combined(alloc, op, left, right)?;
    Ok((found, rest))
}

/// An expression and the `;` after it. It stops at the first token that can't follow those before
/// it, or where memory runs out.
#[tactic(auto, using(crate::proofs::Expressions::value_ends, crate::proofs::Expressions::value_breaks))]
pub fn value<'a>(alloc: Global, tokens: &'a [Placed], depth: u8) -> Front<'a, Expr>
    requires { depth ≤ MOST_OPEN }
    ensures reads { ReadsOr result value_wanted depth tokens.now
        (λ p. Of_expression (expression_of p.0)) (λ p. p.1.now) }
    ensures shorter { IfOk result (λ p. length p.1.now < length tokens.now) }
{
    let (found, rest) = expression(alloc, tokens, depth)?;
    let rest = take(rest, Sign::Semicolon)?;
    Ok((found, rest))
}
