//! What tokens say: values, operands and instructions.

ghost use Rattle.std.specs.Prelude.{◌≡◌, ◌≤◌, length, option_map, Some};
ghost use Rattle.sx_asm.specs.Grammar.{value, alone, value_of, in_brackets, indirect, memory};
ghost use Rattle.sx_asm.specs.Grammar.{operand_from, operand_of, is_comma, is_semicolon, is_colon};
ghost use Rattle.sx_asm.specs.Grammar.{parted, two_of, instruction_from};
ghost use Rattle.sx_asm.specs.Fronts.{cut};
ghost use Rattle.sx_asm.specs.declared.written.Item.TheVariants.{One, Jump};

use crate::written::{Item, Token, Value, Written};
use sx_isa::{Op1, Op2};

/// The value that a token is.
pub fn value(token: &Token) -> Option<Value>
    ensures { result ≡ value token.now }
{
    match *token {
        Token::Number(n) => Some(Value::Number(n)),
        Token::Name(name) => Some(Value::Name(name)),
        _ => None,
    }
}

/// The value that the tokens are.
pub fn value_of(tokens: &[Token]) -> Option<Value>
    ensures { result ≡ value_of tokens.now }
{
    let (first, rest) = tokens.split_first()?;
    if !rest.is_empty() {
        return None;
    }
    value(first)
}

/// The register in brackets.
fn in_brackets(tokens: &[Token]) -> Option<u8>
    ensures { result ≡ in_brackets tokens.now }
{
    match tokens {
        [Token::Open, Token::Reg(r), Token::Close] => Some(*r),
        _ => None,
    }
}

/// What follows `@`.
fn indirect(tokens: &[Token]) -> Option<Written>
    ensures { result ≡ indirect tokens.now }
{
    match tokens {
        [Token::Reg(r)] => Some(Written::Indirect(*r)),
        [Token::Reg(r), Token::Plus] => Some(Written::Increment(*r)),
        _ => None,
    }
}

/// A value, and what follows it.
fn memory(value: Value, tokens: &[Token]) -> Option<Written>
    ensures { result ≡ memory tokens.now value }
{
    if tokens.is_empty() {
        return Some(Written::Symbolic(value));
    }
    Some(Written::Indexed(value, in_brackets(tokens)?))
}

fn operand_from(first: &Token, rest: &[Token]) -> Option<Written>
    ensures { result ≡ operand_from first.now rest.now }
{
    match *first {
        Token::Reg(r) => {
            if rest.is_empty() {
                Some(Written::Reg(r))
            } else {
                None
            }
        }
        Token::At => indirect(rest),
        Token::Hash => Some(Written::Hash(value_of(rest)?)),
        Token::HashHash => Some(Written::Immediate(value_of(rest)?)),
        Token::Ampersand => Some(Written::Absolute(value_of(rest)?)),
        _ => memory(value(first)?, rest),
    }
}

/// The operand that the tokens are.
pub fn operand_of(tokens: &[Token]) -> Option<Written>
    ensures { result ≡ operand_of tokens.now }
{
    let (first, rest) = tokens.split_first()?;
    operand_from(first, rest)
}

/// Whether the token is a comma.
pub fn is_comma(token: &Token) -> bool
    ensures { result ≡ is_comma token.now }
{
    match *token {
        Token::Comma => true,
        _ => false,
    }
}

/// Whether the token is a semicolon.
pub fn is_semicolon(token: &Token) -> bool
    ensures { result ≡ is_semicolon token.now }
{
    match *token {
        Token::Semicolon => true,
        _ => false,
    }
}

/// Whether the token is a colon.
pub fn is_colon(token: &Token) -> bool
    ensures { result ≡ is_colon token.now }
{
    match *token {
        Token::Colon => true,
        _ => false,
    }
}

/// Where the first comma is, or the number of tokens.
fn comma_at(tokens: &[Token]) -> usize
    ensures within { result ≤ length tokens.now }
    ensures cut { parted tokens.now ≡ cut result tokens.now }
{
    for (i, token) in tokens.iter().enumerate() {
        if is_comma(token) {
            return i;
        }
    }
    tokens.len()
}

fn two(op: Op2, byte: bool, tokens: &[Token]) -> Option<Item>
    ensures { result ≡ two_of op byte (parted tokens.now) }
{
    let (first, rest) = tokens.split_at(comma_at(tokens));
    let (_, second) = rest.split_first()?;
    let src = operand_of(first)?;
    let dst = operand_of(second)?;
    Some(Item::Two { op, byte, src, dst })
}

fn one(op: Op1, byte: bool, tokens: &[Token]) -> Option<Item>
    ensures { result ≡ option_map (One op byte) (operand_of tokens.now) }
{
    let arg = operand_of(tokens)?;
    Some(Item::One { op, byte, arg })
}

fn jump(cond: u8, tokens: &[Token]) -> Option<Item>
    ensures { result ≡ option_map (Jump cond) (value_of tokens.now) }
{
    let target = value_of(tokens)?;
    Some(Item::Jump { cond, target })
}

/// An item that has no operand.
fn alone(item: Item, tokens: &[Token]) -> Option<Item>
    ensures { result ≡ alone (Some item) tokens.now }
{
    if tokens.is_empty() { Some(item) } else { None }
}

/// The instruction that the tokens are.
pub fn instruction_from(first: &Token, rest: &[Token]) -> Option<Item>
    ensures { result ≡ instruction_from first.now rest.now }
{
    match *first {
        Token::Two(op, byte) => two(op, byte, rest),
        Token::One(op, byte) => one(op, byte, rest),
        Token::Jump(cond) => jump(cond, rest),
        Token::Reti => alone(Item::Reti, rest),
        Token::Sancus(code) => alone(Item::Sancus(code), rest),
        _ => None,
    }
}
