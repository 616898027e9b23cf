//! Parsing of statements and blocks.

ghost use Rattle.std.specs.Prelude.{◌≡◌, ◌<◌, ◌≤◌, ◌∷◌, length, MatchResult, IfOk, MatchOption};
ghost use Rattle.sx_lang.specs.Tree.{Chooses, Repeats};
ghost use Rattle.sx_lang.specs.View.{expression_of, statement_of, block_of};
ghost use Rattle.spec_grammar.specs.Machine.{A_block, Otherwise, A_name, After_let, After_send};
ghost use Rattle.spec_grammar.specs.Machine.{A_number, For_repeat, Target_of, Argument_of, Of_block};
ghost use Rattle.sx_parse.specs.Wanted.{choice_wanted, element_wanted};
ghost use Rattle.sx_parse.specs.Reading.{ReadsOr, done};
ghost use Rattle.sx_parse.specs.Adding.{AddsStatement, AddsOr, FailsAs, Closes};

use crate::expression::{MOST_OPEN, expression, value};
use crate::sign::{Sign, identifier, number, take};
use crate::stop::{Front, Stop};
use std::alloc::Global;
use sx_lang::names::Name;
use sx_lang::tree::{Expr, Stmt};
use sx_lex::tokens::{Kind, Placed};

#[tactic(auto, using(sx_lang::proofs::Rows::if_is))]
fn choice(test: Expr, then: Vec<Stmt>, otherwise: Vec<Stmt>) -> Stmt
    ensures { statement_of result ≡ Chooses (expression_of test) (block_of then.items)
        (block_of otherwise.items) }
{
    Stmt::If(test, then, otherwise)
}

#[tactic(auto, using(sx_lang::proofs::Rows::repeat_is))]
fn repeated(turns: u16, body: Vec<Stmt>) -> Stmt
    ensures { statement_of result ≡ Repeats turns (block_of body.items) }
{
    Stmt::Repeat(turns, body)
}

/// What follows `let`.
#[tactic(auto, using(crate::proofs::Statements::defines))]
fn definition<'a>(alloc: Global, tokens: &'a [Placed], depth: u8) -> Front<'a, Stmt>
    requires { depth ≤ MOST_OPEN }
    ensures adds { AddsOr result (λ st. A_name After_let ∷ st) depth tokens.now
        (λ p. statement_of p.0) (λ p. p.1.now) }
    ensures shorter { IfOk result (λ p. length p.1.now < length tokens.now) }
{
    let (name, rest) = identifier(tokens)?;
    let rest = take(rest, Sign::Equals)?;
    let (first, rest) = value(alloc, rest, depth)?;
    Ok((Stmt::Let(*name, first), rest))
}

/// What follows the name that is assigned to.
#[tactic(auto, using(crate::proofs::Statements::assigns, crate::proofs::Statements::assigns_element, crate::proofs::Statements::fails_element))]
fn assignment<'a>(alloc: Global, name: Name, tokens: &'a [Placed], depth: u8) -> Front<'a, Stmt>
    requires { depth ≤ MOST_OPEN }
    ensures adds { AddsOr result (λ st. Target_of name ∷ st) depth tokens.now
        (λ p. statement_of p.0) (λ p. p.1.now) }
    ensures shorter { IfOk result (λ p. length p.1.now < length tokens.now) }
{
    let Some((first, rest)) = tokens.split_first() else {
        return Err(Stop::Fault(None));
    };
    match first.kind {
        Kind::Equals => {
            let (new, rest) = value(alloc, rest, depth)?;
            Ok((Stmt::Assign(name, new), rest))
        }
        Kind::OpenSquare => {
            if depth >= MOST_OPEN {
                return Err(Stop::Fault(Some(*first)));
            }
            element(alloc, name, rest, depth)
        }
        _ => Err(Stop::Fault(Some(*first))),
    }
}

/// What follows the name of an array and the `[` after it.
#[tactic(auto, using(crate::proofs::Statements::stores))]
fn element<'a>(alloc: Global, name: Name, tokens: &'a [Placed], depth: u8) -> Front<'a, Stmt>
    requires { depth < MOST_OPEN }
    ensures adds { AddsOr result (element_wanted name) depth tokens.now (λ p. statement_of p.0)
        (λ p. p.1.now) }
    ensures shorter { IfOk result (λ p. length p.1.now < length tokens.now) }
{
    let (index, rest) = expression(alloc, tokens, depth + 1)?;
    let rest = take(rest, Sign::CloseSquare)?;
    let rest = take(rest, Sign::Equals)?;
    let (new, rest) = value(alloc, rest, depth)?;
    Ok((Stmt::Element(name, index, new), rest))
}

/// What follows `send`.
#[tactic(auto, using(crate::proofs::Statements::sends, crate::proofs::Statements::fails_sending))]
fn sending<'a>(alloc: Global, tokens: &'a [Placed], depth: u8) -> Front<'a, Stmt>
    requires { depth ≤ MOST_OPEN }
    ensures adds { AddsOr result (λ st. A_name After_send ∷ st) depth tokens.now
        (λ p. statement_of p.0) (λ p. p.1.now) }
    ensures shorter { IfOk result (λ p. length p.1.now < length tokens.now) }
{
    let (output, rest) = identifier(tokens)?;
    sent(alloc, *output, rest, depth)
}

/// What follows the output that a value is sent to.
#[tactic(auto, using(crate::proofs::Statements::argument))]
fn sent<'a>(alloc: Global, output: Name, tokens: &'a [Placed], depth: u8) -> Front<'a, Stmt>
    requires { depth ≤ MOST_OPEN }
    ensures adds { AddsOr result (λ st. Argument_of output ∷ st) depth tokens.now
        (λ p. statement_of p.0) (λ p. p.1.now) }
    ensures shorter { IfOk result (λ p. length p.1.now < length tokens.now) }
{
    let Some((first, rest)) = tokens.split_first() else {
        return Err(Stop::Fault(None));
    };
    let Kind::Open = first.kind else {
        return Err(Stop::Fault(Some(*first)));
    };
    if depth >= MOST_OPEN {
        return Err(Stop::Fault(Some(*first)));
    }
    let (sent, rest) = expression(alloc, rest, depth + 1)?;
    let rest = take(rest, Sign::Close)?;
    let rest = take(rest, Sign::Semicolon)?;
    Ok((Stmt::Send(output, sent), rest))
}

/// A block with its braces. It stops at the first token that can't follow those before it, or where
/// memory runs out.
#[cycle(statement)]
#[tactic(auto, using(crate::proofs::Statements::opens_block, crate::proofs::Statements::goes_on, crate::proofs::Statements::ends_block, crate::proofs::Statements::breaks_block))]
pub fn block<'a>(alloc: Global, tokens: &'a [Placed], depth: u8) -> Front<'a, Vec<Stmt>>
    requires { depth ≤ MOST_OPEN }
    ensures reads { ReadsOr result (λ st. A_block ∷ st) depth tokens.now
        (λ p. Of_block (block_of p.0.items)) (λ p. p.1.now) }
    ensures shorter { IfOk result (λ p. length p.1.now < length tokens.now) }
{
    let Some((first, after)) = tokens.split_first() else {
        return Err(Stop::Fault(None));
    };
    let Kind::OpenBrace = first.kind else {
        return Err(Stop::Fault(Some(*first)));
    };
    if depth >= MOST_OPEN {
        return Err(Stop::Fault(Some(*first)));
    }
    let mut body = Vec::new(alloc);
    let mut rest = after;
    loop {
        let (found, more) = statement(alloc, rest, depth + 1)?;
        rest = more;
        let Some(found) = found else {
            break;
        };
        body.push(found)?;
    }
    Ok((body, rest))
}

/// A statement of a block, or none where the block's closing brace is.
#[cycle(statement)]
#[tactic(auto, using(crate::proofs::Statements::emits))]
fn statement<'a>(alloc: Global, tokens: &'a [Placed], depth: u8) -> Front<'a, Option<Stmt>>
    requires { depth ≤ MOST_OPEN }
    ensures adds { MatchResult result (λ p. MatchOption p.0 (Closes tokens.now p.1.now)
        (λ s. AddsStatement done depth tokens.now (statement_of s) p.1.now))
        (λ e. FailsAs done depth tokens.now e) }
    ensures shorter { IfOk result (λ p. length p.1.now < length tokens.now) }
{
    let Some((first, rest)) = tokens.split_first() else {
        return Err(Stop::Fault(None));
    };
    match first.kind {
        Kind::CloseBrace => Ok((None, rest)),
        Kind::Let => {
            let (found, rest) = definition(alloc, rest, depth)?;
            Ok((Some(found), rest))
        }
        Kind::Name(name) => {
            let (found, rest) = assignment(alloc, name, rest, depth)?;
            Ok((Some(found), rest))
        }
        Kind::If => {
            let (found, rest) = condition(alloc, rest, depth)?;
            Ok((Some(found), rest))
        }
        Kind::Repeat => {
            let (found, rest) = repetition(alloc, rest, depth)?;
            Ok((Some(found), rest))
        }
        Kind::Send => {
            let (found, rest) = sending(alloc, rest, depth)?;
            Ok((Some(found), rest))
        }
        Kind::Emit => {
            let (emitted, rest) = value(alloc, rest, depth)?;
            Ok((Some(Stmt::Emit(emitted)), rest))
        }
        _ => Err(Stop::Fault(Some(*first))),
    }
}

/// What follows `if`.
#[cycle(statement)]
#[tactic(auto, using(crate::proofs::Statements::chooses))]
fn condition<'a>(alloc: Global, tokens: &'a [Placed], depth: u8) -> Front<'a, Stmt>
    requires { depth ≤ MOST_OPEN }
    ensures adds { AddsOr result choice_wanted depth tokens.now (λ p. statement_of p.0)
        (λ p. p.1.now) }
    ensures shorter { IfOk result (λ p. length p.1.now < length tokens.now) }
{
    let (test, rest) = expression(alloc, tokens, depth)?;
    let (then, rest) = block(alloc, rest, depth)?;
    let (otherwise, rest) = otherwise(alloc, rest, depth)?;
    Ok((choice(test, then, otherwise), rest))
}

/// The `else` and its block, where they are.
#[cycle(statement)]
#[tactic(auto, using(crate::proofs::Statements::no_else_end, crate::proofs::Statements::no_else, crate::proofs::Statements::with_else))]
fn otherwise<'a>(alloc: Global, tokens: &'a [Placed], depth: u8) -> Front<'a, Vec<Stmt>>
    requires { depth ≤ MOST_OPEN }
    ensures reads { ReadsOr result (λ st. Otherwise ∷ st) depth tokens.now
        (λ p. Of_block (block_of p.0.items)) (λ p. p.1.now) }
    ensures shorter { IfOk result (λ p. length p.1.now ≤ length tokens.now) }
{
    let Some((first, after)) = tokens.split_first() else {
        return Ok((Vec::new(alloc), tokens));
    };
    let Kind::Else = first.kind else {
        return Ok((Vec::new(alloc), tokens));
    };
    let (found, rest) = block(alloc, after, depth)?;
    Ok((found, rest))
}

/// What follows `repeat`.
#[cycle(statement)]
#[tactic(auto, using(crate::proofs::Statements::repeats))]
fn repetition<'a>(alloc: Global, tokens: &'a [Placed], depth: u8) -> Front<'a, Stmt>
    requires { depth ≤ MOST_OPEN }
    ensures adds { AddsOr result (λ st. A_number For_repeat ∷ st) depth tokens.now
        (λ p. statement_of p.0) (λ p. p.1.now) }
    ensures shorter { IfOk result (λ p. length p.1.now < length tokens.now) }
{
    let (turns, rest) = number(tokens)?;
    let (body, rest) = block(alloc, rest, depth)?;
    Ok((repeated(turns, body), rest))
}
