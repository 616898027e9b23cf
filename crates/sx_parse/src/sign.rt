//! Single tokens that must be somewhere.

ghost use Rattle.std.specs.Prelude.{◌≡◌, ◌<◌, length, MatchResult, IfOk};
ghost use Rattle.spec_grammar.specs.Machine.{is_sign};
ghost use Rattle.sx_parse.specs.Reading.{sign_of, TakesSign, Lacks, Named, NameLacks, Numbered};
ghost use Rattle.sx_parse.specs.Reading.{NumberLacks};

use crate::stop::{Front, Stop};
use sx_lang::names::Name;
use sx_lex::tokens::{Kind, Placed};

/// A sign that must be somewhere.
#[derive(Clone, Copy)]
pub enum Sign {
    /// `(`
    Open,
    /// `)`
    Close,
    /// `[`
    OpenSquare,
    /// `]`
    CloseSquare,
    /// `;`
    Semicolon,
    /// `=`
    Equals,
}

impl Sign {
    fn is(self, kind: Kind) -> bool
        ensures { result ≡ is_sign (sign_of self) kind }
    {
        match self {
            Sign::Open => matches!(kind, Kind::Open),
            Sign::Close => matches!(kind, Kind::Close),
            Sign::OpenSquare => matches!(kind, Kind::OpenSquare),
            Sign::CloseSquare => matches!(kind, Kind::CloseSquare),
            Sign::Semicolon => matches!(kind, Kind::Semicolon),
            Sign::Equals => matches!(kind, Kind::Equals),
        }
    }
}

/// What follows the sign that must be here. It stops at another token.
#[tactic(auto, using(crate::proofs::Signs::takes, crate::proofs::Signs::misses))]
pub fn take<'a>(tokens: &'a [Placed], sign: Sign) -> Result<&'a [Placed], Stop>
    ensures takes { MatchResult result (λ rest. TakesSign (sign_of sign) tokens.now rest.now)
        (λ e. Lacks (sign_of sign) tokens.now e) }
    ensures shorter { IfOk result (λ rest. length rest.now < length tokens.now) }
{
    let Some((first, rest)) = tokens.split_first() else {
        return Err(Stop::Fault(None));
    };
    if !sign.is(first.kind) {
        return Err(Stop::Fault(Some(*first)));
    }
    Ok(rest)
}

/// The name that must be here. It stops at another token.
pub fn identifier<'a>(tokens: &'a [Placed]) -> Front<'a, &'a Name>
    ensures named { MatchResult result (λ p. Named tokens.now p.0.now p.1.now)
        (λ e. NameLacks tokens.now e) }
    ensures shorter { IfOk result (λ p. length p.1.now < length tokens.now) }
{
    let Some((first, rest)) = tokens.split_first() else {
        return Err(Stop::Fault(None));
    };
    let Kind::Name(name) = &first.kind else {
        return Err(Stop::Fault(Some(*first)));
    };
    Ok((name, rest))
}

/// The number that must be here. It stops at another token.
pub fn number<'a>(tokens: &'a [Placed]) -> Front<'a, u16>
    ensures numbered { MatchResult result (λ p. Numbered tokens.now p.0 p.1.now)
        (λ e. NumberLacks tokens.now e) }
    ensures shorter { IfOk result (λ p. length p.1.now < length tokens.now) }
{
    let Some((first, rest)) = tokens.split_first() else {
        return Err(Stop::Fault(None));
    };
    let Kind::Number(n) = first.kind else {
        return Err(Stop::Fault(Some(*first)));
    };
    Ok((n, rest))
}
