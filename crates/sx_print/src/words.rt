//! The words of a text, which are written one after the other, each with what follows it.

ghost use Rattle.std.specs.Prelude.{◌≡◌, ◌∷◌, OnOk};
ghost use Rattle.sx_lang.specs.declared.tree.BinOp.{BinOp};
ghost use Rattle.sx_print.specs.Pieces.{binary_sign, deeper, gap_bytes, margin, name, number};
ghost use Rattle.sx_print.specs.Pieces.{quoted, spelling, unary_sign};
ghost use Rattle.sx_print.specs.Written.{Wrote};

use itoa::Buffer;
use std::alloc::AllocError as OutOfMemory;
use sx_lang::names::Name;
use sx_lang::tree::{BinOp, UnOp};
use sx_lex::tokens::Kind;

/// What follows a word.
#[derive(Clone, Copy)]
pub enum Gap {
    /// Nothing: the next word follows at once.
    Nothing,
    /// A space.
    Space,
    /// A newline.
    Line,
}

impl Gap {
    fn bytes(self) -> &'static [u8]
        ensures { result.now ≡ gap_bytes self }
    {
        match self {
            Gap::Nothing => b"",
            Gap::Space => b" ",
            Gap::Line => b"\n",
        }
    }
}

/// The text of one of the language's own words or signs.
fn spelling(kind: Kind) -> &'static [u8]
    ensures { result.now ≡ spelling kind }
{
    match kind {
        Kind::Number(_) | Kind::Name(_) | Kind::Bad => b"",
        Kind::Sensor => b"sensor",
        Kind::Actuator => b"actuator",
        Kind::Input => b"input",
        Kind::Output => b"output",
        Kind::Var => b"var",
        Kind::Array => b"array",
        Kind::On => b"on",
        Kind::Sample => b"sample",
        Kind::Let => b"let",
        Kind::If => b"if",
        Kind::Else => b"else",
        Kind::Repeat => b"repeat",
        Kind::Send => b"send",
        Kind::Emit => b"emit",
        Kind::Semicolon => b";",
        Kind::Equals => b"=",
        Kind::Open => b"(",
        Kind::Close => b")",
        Kind::OpenSquare => b"[",
        Kind::CloseSquare => b"]",
        Kind::OpenBrace => b"{",
        Kind::CloseBrace => b"}",
        Kind::EqualsEquals => b"==",
        Kind::NotEquals => b"!=",
        Kind::Less => b"<",
        Kind::LessEquals => b"<=",
        Kind::Greater => b">",
        Kind::GreaterEquals => b">=",
        Kind::Plus => b"+",
        Kind::Minus => b"-",
        Kind::Bar => b"|",
        Kind::Caret => b"^",
        Kind::Star => b"*",
        Kind::Ampersand => b"&",
        Kind::Tilde => b"~",
        Kind::Bang => b"!",
    }
}

/// Writes a word or sign of the language's own. The error says that memory ran out.
#[tactic(auto, using(crate::proofs::Parts::quoted_written))]
pub fn put(out: &mut Vec<u8>, kind: Kind, gap: Gap) -> Result<(), OutOfMemory>
    ensures { OnOk result (Wrote out.old.items (λ rest. quoted kind gap ∷ rest) out.new.items) }
{
    out.extend_from_slice(spelling(kind))?;
    out.extend_from_slice(gap.bytes())
}

/// Writes a name. The error says that memory ran out.
#[tactic(auto, using(crate::proofs::Parts::name_written))]
pub fn put_name(out: &mut Vec<u8>, x: &Name, gap: Gap) -> Result<(), OutOfMemory>
    ensures { OnOk result (Wrote out.old.items (λ rest. name x.now gap ∷ rest) out.new.items) }
{
    out.extend_from_slice(x.bytes())?;
    out.extend_from_slice(gap.bytes())
}

/// Writes a number in decimal digits. The error says that memory ran out.
#[tactic(auto, using(crate::proofs::Parts::number_written))]
pub fn put_number(out: &mut Vec<u8>, n: u16, gap: Gap) -> Result<(), OutOfMemory>
    ensures { OnOk result (Wrote out.old.items (λ rest. number n gap ∷ rest) out.new.items) }
{
    let mut buffer = Buffer::new();
    out.extend_from_slice(buffer.format(n).as_bytes())?;
    out.extend_from_slice(gap.bytes())
}

/// Writes the margin of a line that is in `depth` blocks. The error says that memory ran out.
#[tactic(auto, using(crate::proofs::Parts::no_margin, crate::proofs::Parts::margin_written))]
pub fn put_margin(out: &mut Vec<u8>, depth: u8) -> Result<(), OutOfMemory>
    ensures { OnOk result (Wrote out.old.items (margin depth) out.new.items) }
{
    if depth == 0 {
        return Ok(());
    }
    out.extend_from_slice(b"    ")?;
    put_margin(out, depth - 1)
}

/// One block deeper; no more than 48 are ever open.
pub fn deeper(depth: u8) -> u8
    ensures { result ≡ deeper depth }
{
    if depth < 48 { depth + 1 } else { 48 }
}

/// The token of a unary operator.
pub fn unary_sign(op: UnOp) -> Kind
    ensures { result ≡ unary_sign op }
{
    match op {
        UnOp::Neg => Kind::Minus,
        UnOp::Inv => Kind::Tilde,
        UnOp::Not => Kind::Bang,
    }
}

/// The token of an operator between two operands.
pub fn binary_sign(op: BinOp) -> Kind
    ensures { result ≡ binary_sign op }
{
    match op {
        BinOp::Add => Kind::Plus,
        BinOp::Sub => Kind::Minus,
        BinOp::Or => Kind::Bar,
        BinOp::Xor => Kind::Caret,
        BinOp::Mul => Kind::Star,
        BinOp::And => Kind::Ampersand,
        BinOp::Eq => Kind::EqualsEquals,
        BinOp::Ne => Kind::NotEquals,
        BinOp::Lt => Kind::Less,
        BinOp::Le => Kind::LessEquals,
        BinOp::Gt => Kind::Greater,
        BinOp::Ge => Kind::GreaterEquals,
    }
}
