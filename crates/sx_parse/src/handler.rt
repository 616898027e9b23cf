//! Parsing of handlers.

ghost use Rattle.std.specs.Prelude.{◌<◌, length, map, MatchResult, IfOk, IfSome};
ghost use Rattle.sx_lang.specs.View.{handler_of};
ghost use Rattle.sx_parse.specs.Wanted.{parameter_wanted};
ghost use Rattle.sx_parse.specs.Declaring.{HandlesOr, HandlesNext, HandlersEnd, HandlersBreakAs};

use crate::sign::{Sign, identifier, take};
use crate::statement::block;
use crate::stop::Stop;
use std::alloc::Global;
use sx_lang::names::Name;
use sx_lang::tree::Handler;
use sx_lex::tokens::{Kind, Placed};

/// Adds the handler of this input, or of samples, from its parameter on.
#[tactic(auto, using(crate::proofs::Handlers::reads))]
fn body<'a>(
    alloc: Global,
    all: &mut Vec<Handler>,
    input: Option<Name>,
    tokens: &'a [Placed],
) -> Result<&'a [Placed], Stop>
    ensures handles { HandlesOr result (parameter_wanted input) all.old.items tokens.now
        all.new.items (λ rest. rest.now) }
    ensures shorter { IfOk result (λ rest. length rest.now < length tokens.now) }
{
    let rest = take(tokens, Sign::Open)?;
    let (param, rest) = identifier(rest)?;
    let rest = take(rest, Sign::Close)?;
    let (body, rest) = block(alloc, rest, 0)?;
    all.push(Handler {
        input,
        param: *param,
        body,
    })?;
    Ok(rest)
}

/// Adds the handler that is here, and gives what follows it; none at the text's end.
#[tactic(auto, using(crate::proofs::Handlers::on_input, crate::proofs::Handlers::on_sample, crate::proofs::Handlers::no_handler))]
fn handler<'a>(
    alloc: Global,
    all: &mut Vec<Handler>,
    tokens: &'a [Placed],
) -> Result<Option<&'a [Placed]>, Stop>
    ensures handles { HandlesNext result all.old.items tokens.now all.new.items (λ rest. rest.now) }
    ensures shorter { IfOk result (λ p. IfSome p (λ rest. length rest.now < length tokens.now)) }
{
    let Some((first, rest)) = tokens.split_first() else {
        return Ok(None);
    };
    match first.kind {
        Kind::On => {
            let (input, rest) = identifier(rest)?;
            let rest = body(alloc, all, Some(*input), rest)?;
            Ok(Some(rest))
        }
        Kind::Sample => {
            let rest = body(alloc, all, None, rest)?;
            Ok(Some(rest))
        }
        _ => Err(Stop::Fault(Some(*first))),
    }
}

/// The handlers, up to the text's end. It stops at the first token that can't follow those before
/// it, or where memory runs out.
#[tactic(auto, using(crate::proofs::Handlers::begins, crate::proofs::Handlers::goes_on, crate::proofs::Handlers::ends, crate::proofs::Handlers::breaks))]
pub fn handlers(alloc: Global, tokens: &[Placed]) -> Result<Vec<Handler>, Stop>
    ensures { MatchResult result (λ hs. HandlersEnd tokens.now (map handler_of hs.items))
        (λ e. HandlersBreakAs tokens.now e) }
{
    let mut all = Vec::new(alloc);
    let mut rest = tokens;
    loop {
        let found = handler(alloc, &mut all, rest)?;
        let Some(more) = found else {
            break;
        };
        rest = more;
    }
    Ok(all)
}
