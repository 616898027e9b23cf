//! Which operators tokens are.

ghost use Rattle.std.specs.Prelude.{◌≡◌};
ghost use Rattle.spec_grammar.specs.Tokens as tokens;

use sx_lang::tree::{BinOp, UnOp};
use sx_lex::tokens::Kind;

/// The unary operator that a token is.
pub fn unary_operator(kind: Kind) -> Option<UnOp>
    ensures { result ≡ tokens.unary_operator kind }
{
    match kind {
        Kind::Minus => Some(UnOp::Neg),
        Kind::Tilde => Some(UnOp::Inv),
        Kind::Bang => Some(UnOp::Not),
        _ => None,
    }
}

/// The operator between factors that a token is: `*` or `&`.
pub fn factor_operator(kind: Kind) -> Option<BinOp>
    ensures { result ≡ tokens.factor_operator kind }
{
    match kind {
        Kind::Star => Some(BinOp::Mul),
        Kind::Ampersand => Some(BinOp::And),
        _ => None,
    }
}

/// The operator between addends that a token is: `+`, `-`, `|` or `^`.
pub fn addend_operator(kind: Kind) -> Option<BinOp>
    ensures { result ≡ tokens.addend_operator kind }
{
    match kind {
        Kind::Plus => Some(BinOp::Add),
        Kind::Minus => Some(BinOp::Sub),
        Kind::Bar => Some(BinOp::Or),
        Kind::Caret => Some(BinOp::Xor),
        _ => None,
    }
}

/// The comparison that a token is.
pub fn comparison_operator(kind: Kind) -> Option<BinOp>
    ensures { result ≡ tokens.comparison_operator kind }
{
    match kind {
        Kind::EqualsEquals => Some(BinOp::Eq),
        Kind::NotEquals => Some(BinOp::Ne),
        Kind::Less => Some(BinOp::Lt),
        Kind::LessEquals => Some(BinOp::Le),
        Kind::Greater => Some(BinOp::Gt),
        Kind::GreaterEquals => Some(BinOp::Ge),
        _ => None,
    }
}
