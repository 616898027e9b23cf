//! From the text of a module to its tree.

ghost use Rattle.std.specs.Prelude.{◌≡◌, MatchResult, IfOk, IfErr};
ghost use Rattle.sx_lang.specs.Tree.{ModuleTree};
ghost use Rattle.sx_lang.specs.View.{module_of};
ghost use Rattle.spec_grammar.specs.Tokens.{given_tokens};
ghost use Rattle.spec_grammar.specs.Grammar.{IsModule};
ghost use Rattle.spec_grammar.specs.Text.{Spells, place_of};
ghost use Rattle.sx_parse.specs.Declaring.{ReachesModule, RefusesText};
ghost use Rattle.sx_parse.specs.Parsed.{IsError, IsErrorIn, ParseTold, TokensTold};
ghost use Rattle.sx_parse.specs.declared.error.ParseError.TheVariants.{OutOfMemory};

use crate::declaration::declarations;
use crate::error::{ParseError, ParseFault};
use crate::handler::handlers;
use crate::stop::Stop;
use std::alloc::Global;
use sx_lang::tree::Module;
use sx_lex::reading::tokens_of;
use sx_lex::tokens::{Place, Placed};

/// The module that the tokens are.
#[tactic(auto, using(crate::proofs::Modules::joins, crate::proofs::Modules::joins_break))]
fn module_of_tokens(alloc: Global, tokens: &[Placed]) -> Result<Module, Stop>
    ensures { MatchResult result (λ m. ReachesModule tokens.now m) (λ e. RefusesText tokens.now e) }
{
    let (decls, rest) = declarations(alloc, tokens)?;
    let handlers = handlers(alloc, rest)?;
    Ok(Module { decls, handlers })
}

/// The place of the token at which reading stopped.
fn fault_at(token: Option<Placed>, end: Place) -> ParseFault
    ensures line { result.line ≡ (place_of end token).line }
    ensures column { result.column ≡ (place_of end token).column }
{
    let place = match token {
        Some(token) => token.place,
        None => end,
    };
    ParseFault {
        line: place.line,
        column: place.column,
    }
}

fn read_tokens(alloc: Global, tokens: &[Placed], end: Place) -> Result<Module, ParseError>
    ensures { TokensTold tokens.now end result }
{
    match module_of_tokens(alloc, tokens) {
        Ok(module) => Ok(module),
        Err(Stop::Fault(token)) => Err(ParseError::Fault(fault_at(token, end))),
        Err(Stop::Memory) => Err(ParseError::OutOfMemory),
    }
}

fn module_of_text(alloc: Global, text: &str) -> Result<Module, ParseError>
    ensures { ParseTold text.now result }
{
    let tokens = tokens_of(alloc, text.as_bytes())?;
    read_tokens(alloc, &tokens.list, tokens.end)
}

/// The module that a text spells.
///
/// The error `Fault` has the place of the first token that can't follow the tokens before it by the
/// grammar, or that breaks a bound; the end of the text is a token at the place after its last
/// byte. `OutOfMemory` says that memory ran out.
pub fn parse(alloc: Global, text: &str) -> Result<Module, ParseError>
    // what is read is in the grammar
    ensures found { IfOk result (λ m. Spells text.now (module_of m)) }
    // what is in the grammar is read, unless memory runs out
    ensures only { (m : ModuleTree) → Spells text.now m
        → MatchResult result (λ n. module_of n ≡ m) (λ e. e ≡ OutOfMemory) }
    // a fault is at the first token that can't follow those before it
    ensures fault { IfErr result (λ e. IsError text.now e) }
{
    module_of_text(alloc, text)
}

/// The module that these tokens are, whatever text they are from, and whose text ends at `end`.
///
/// The errors are those of `parse`.
pub fn parse_tokens(alloc: Global, tokens: &[Placed], end: Place) -> Result<Module, ParseError>
    // what is read is in the grammar
    ensures found { IfOk result (λ m. IsModule (given_tokens tokens.now) (module_of m)) }
    // what is in the grammar is read, unless memory runs out
    ensures only { (m : ModuleTree) → IsModule (given_tokens tokens.now) m
        → MatchResult result (λ n. module_of n ≡ m) (λ e. e ≡ OutOfMemory) }
    // a fault is at the first token that can't follow those before it
    ensures fault { IfErr result (λ e. IsErrorIn tokens.now end e) }
{
    read_tokens(alloc, tokens, end)
}
