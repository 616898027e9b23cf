//! Parsing of declarations.

ghost use Rattle.std.specs.Prelude.{◌<◌, ◌∷◌, length, MatchResult, IfOk, IfSome};
ghost use Rattle.spec_grammar.specs.Machine.{Initial_of, A_name, After_input, After_output};
ghost use Rattle.spec_grammar.specs.Machine.{After_var, After_array, Declarations, Handlers};
ghost use Rattle.sx_parse.specs.Wanted.{end_wanted, length_wanted};
ghost use Rattle.sx_parse.specs.Declaring.{DeclaresOr, DeclaresNext, Declared, RefusesText};

use crate::sign::{Sign, identifier, number, take};
use crate::stop::{Front, Stop};
use std::alloc::Global;
use sx_lang::names::Name;
use sx_lang::tree::{Decl, DeviceKind};
use sx_lex::tokens::{Kind, Placed};

/// Adds a declaration that was read up to its `;`.
#[tactic(auto, using(crate::proofs::Declarations::ended))]
fn ended<'a>(all: &mut Vec<Decl>, found: Decl, tokens: &'a [Placed]) -> Result<&'a [Placed], Stop>
    ensures declares { DeclaresOr result (end_wanted found) all.old.items tokens.now all.new.items
        (λ rest. rest.now) }
    ensures shorter { IfOk result (λ rest. length rest.now < length tokens.now) }
{
    let rest = take(tokens, Sign::Semicolon)?;
    all.push(found)?;
    Ok(rest)
}

/// Adds a variable whose name was read.
#[tactic(auto, using(crate::proofs::Declarations::initial_none, crate::proofs::Declarations::initial_number, crate::proofs::Declarations::initial_breaks))]
fn initial<'a>(all: &mut Vec<Decl>, name: Name, tokens: &'a [Placed]) -> Result<&'a [Placed], Stop>
    ensures declares { DeclaresOr result (λ st. Initial_of name ∷ st) all.old.items tokens.now
        all.new.items (λ rest. rest.now) }
    ensures shorter { IfOk result (λ rest. length rest.now < length tokens.now) }
{
    let Some((first, rest)) = tokens.split_first() else {
        return Err(Stop::Fault(None));
    };
    match first.kind {
        Kind::Semicolon => {
            all.push(Decl::Var(name, 0))?;
            Ok(rest)
        }
        Kind::Equals => {
            let (initial, rest) = number(rest)?;
            ended(all, Decl::Var(name, initial), rest)
        }
        _ => Err(Stop::Fault(Some(*first))),
    }
}

/// Adds an array whose name was read.
#[tactic(auto, using(crate::proofs::Declarations::array, crate::proofs::Declarations::array_breaks))]
fn length<'a>(all: &mut Vec<Decl>, name: Name, tokens: &'a [Placed]) -> Result<&'a [Placed], Stop>
    ensures declares { DeclaresOr result (length_wanted name) all.old.items tokens.now all.new.items
        (λ rest. rest.now) }
    ensures shorter { IfOk result (λ rest. length rest.now < length tokens.now) }
{
    let rest = take(tokens, Sign::OpenSquare)?;
    let (length, rest) = number(rest)?;
    let rest = take(rest, Sign::CloseSquare)?;
    ended(all, Decl::Array(name, length), rest)
}

/// Adds an input.
fn input<'a>(all: &mut Vec<Decl>, tokens: &'a [Placed]) -> Result<&'a [Placed], Stop>
    ensures declares { DeclaresOr result (λ st. A_name After_input ∷ st) all.old.items tokens.now
        all.new.items (λ rest. rest.now) }
    ensures shorter { IfOk result (λ rest. length rest.now < length tokens.now) }
{
    let (name, rest) = identifier(tokens)?;
    ended(all, Decl::Input(*name), rest)
}

/// Adds an output.
fn output<'a>(all: &mut Vec<Decl>, tokens: &'a [Placed]) -> Result<&'a [Placed], Stop>
    ensures declares { DeclaresOr result (λ st. A_name After_output ∷ st) all.old.items tokens.now
        all.new.items (λ rest. rest.now) }
    ensures shorter { IfOk result (λ rest. length rest.now < length tokens.now) }
{
    let (name, rest) = identifier(tokens)?;
    ended(all, Decl::Output(*name), rest)
}

/// Adds a variable.
fn variable<'a>(all: &mut Vec<Decl>, tokens: &'a [Placed]) -> Result<&'a [Placed], Stop>
    ensures declares { DeclaresOr result (λ st. A_name After_var ∷ st) all.old.items tokens.now
        all.new.items (λ rest. rest.now) }
    ensures shorter { IfOk result (λ rest. length rest.now < length tokens.now) }
{
    let (name, rest) = identifier(tokens)?;
    initial(all, *name, rest)
}

/// Adds an array.
fn array<'a>(all: &mut Vec<Decl>, tokens: &'a [Placed]) -> Result<&'a [Placed], Stop>
    ensures declares { DeclaresOr result (λ st. A_name After_array ∷ st) all.old.items tokens.now
        all.new.items (λ rest. rest.now) }
    ensures shorter { IfOk result (λ rest. length rest.now < length tokens.now) }
{
    let (name, rest) = identifier(tokens)?;
    length(all, *name, rest)
}

/// Adds the declaration that is here, and gives what follows it; none where another token
/// is.
#[tactic(auto, using(crate::proofs::Declarations::passes, crate::proofs::Declarations::passes_end))]
fn declaration<'a>(all: &mut Vec<Decl>, tokens: &'a [Placed]) -> Option<Result<&'a [Placed], Stop>>
    ensures declares { DeclaresNext result all.old.items tokens.now all.new.items
        (λ rest. rest.now) }
    ensures shorter { IfSome result (λ p. IfOk p (λ rest. length rest.now < length tokens.now)) }
{
    let (first, rest) = tokens.split_first()?;
    match first.kind {
        Kind::Sensor => Some(ended(all, Decl::Device(DeviceKind::Sensor), rest)),
        Kind::Actuator => Some(ended(all, Decl::Device(DeviceKind::Actuator), rest)),
        Kind::Input => Some(input(all, rest)),
        Kind::Output => Some(output(all, rest)),
        Kind::Var => Some(variable(all, rest)),
        Kind::Array => Some(array(all, rest)),
        _ => None,
    }
}

/// The declarations before the handlers. It stops at the first token that can't follow those before
/// it, or where memory runs out.
#[tactic(auto, using(crate::proofs::Declarations::begins, crate::proofs::Declarations::goes_on, crate::proofs::Declarations::ends, crate::proofs::Declarations::breaks))]
pub fn declarations<'a>(alloc: Global, tokens: &'a [Placed]) -> Front<'a, Vec<Decl>>
    ensures { MatchResult result (λ p. Declared tokens.now p.0.items Handlers p.1.now)
        (λ e. RefusesText tokens.now e) }
{
    let mut all = Vec::new(alloc);
    let mut rest = tokens;
    while let Some(found) = declaration(&mut all, rest) {
        rest = found?;
    }
    Ok((all, rest))
}
