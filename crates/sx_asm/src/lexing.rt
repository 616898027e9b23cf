//! The tokens of a line.

ghost use Rattle.std.specs.Prelude.{◌≡◌, ◌+◌, true, ◌<◌, ◌≤◌, [], ◌∷◌, length, map, IfOk};
ghost use Rattle.std.specs.Prelude.{IfSome, MatchOption, Some, None};
ghost use Rattle.sx_lex.specs.Words.{kind_of};
ghost use Rattle.sx_lang.specs.Form.{is_name};
ghost use Rattle.sx_asm.specs.Fronts.{run_front, digit_of, with_digit, digits_from, numeral_of};
ghost use Rattle.sx_asm.specs.Fronts.{number_of};
ghost use Rattle.sx_lex.specs.Lexed.{begins_comment};
ghost use Rattle.sx_asm.specs.Words.{signs, registers, names_with_two, names_with_one, other_names};
ghost use Rattle.sx_asm.specs.Words.{instructions};
ghost use Rattle.sx_asm.specs.Tokens.{is_word_byte, joins, runs, found_in, value_token, token_of};
ghost use Rattle.sx_asm.specs.Tokens.{is_gap, tokens_of};
ghost use Rattle.sx_asm.specs.Entries.{entry_of};

use crate::written::Token;
use std::alloc::{AllocError, Global};
use sx_isa::{Op1, Op2};
use sx_lang::names::{Name, has_form, is_name_byte};
use sx_lex::quoted::keyword;

const SIGNS: [(&[u8], Token); 10] = [
    (b":", Token::Colon),
    (b",", Token::Comma),
    (b";", Token::Semicolon),
    (b"(", Token::Open),
    (b")", Token::Close),
    (b"@", Token::At),
    (b"+", Token::Plus),
    (b"#", Token::Hash),
    (b"##", Token::HashHash),
    (b"&", Token::Ampersand),
];

const REGISTERS: [(&[u8], Token); 19] = [
    (b"pc", Token::Reg(0)),
    (b"sp", Token::Reg(1)),
    (b"sr", Token::Reg(2)),
    (b"r0", Token::Reg(0)),
    (b"r1", Token::Reg(1)),
    (b"r2", Token::Reg(2)),
    (b"r3", Token::Reg(3)),
    (b"r4", Token::Reg(4)),
    (b"r5", Token::Reg(5)),
    (b"r6", Token::Reg(6)),
    (b"r7", Token::Reg(7)),
    (b"r8", Token::Reg(8)),
    (b"r9", Token::Reg(9)),
    (b"r10", Token::Reg(10)),
    (b"r11", Token::Reg(11)),
    (b"r12", Token::Reg(12)),
    (b"r13", Token::Reg(13)),
    (b"r14", Token::Reg(14)),
    (b"r15", Token::Reg(15)),
];

const WITH_TWO_OPERANDS: [(&[u8], Token); 22] = [
    (b"mov", Token::Two(Op2::Mov, false)),
    (b"mov.b", Token::Two(Op2::Mov, true)),
    (b"add", Token::Two(Op2::Add, false)),
    (b"add.b", Token::Two(Op2::Add, true)),
    (b"addc", Token::Two(Op2::Addc, false)),
    (b"addc.b", Token::Two(Op2::Addc, true)),
    (b"subc", Token::Two(Op2::Subc, false)),
    (b"subc.b", Token::Two(Op2::Subc, true)),
    (b"sub", Token::Two(Op2::Sub, false)),
    (b"sub.b", Token::Two(Op2::Sub, true)),
    (b"cmp", Token::Two(Op2::Cmp, false)),
    (b"cmp.b", Token::Two(Op2::Cmp, true)),
    (b"bit", Token::Two(Op2::Bit, false)),
    (b"bit.b", Token::Two(Op2::Bit, true)),
    (b"bic", Token::Two(Op2::Bic, false)),
    (b"bic.b", Token::Two(Op2::Bic, true)),
    (b"bis", Token::Two(Op2::Bis, false)),
    (b"bis.b", Token::Two(Op2::Bis, true)),
    (b"xor", Token::Two(Op2::Xor, false)),
    (b"xor.b", Token::Two(Op2::Xor, true)),
    (b"and", Token::Two(Op2::And, false)),
    (b"and.b", Token::Two(Op2::And, true)),
];

const WITH_ONE_OPERAND: [(&[u8], Token); 12] = [
    (b"rrc", Token::One(Op1::Rrc, false)),
    (b"rrc.b", Token::One(Op1::Rrc, true)),
    (b"rra", Token::One(Op1::Rra, false)),
    (b"rra.b", Token::One(Op1::Rra, true)),
    (b"push", Token::One(Op1::Push, false)),
    (b"push.b", Token::One(Op1::Push, true)),
    (b"swpb", Token::One(Op1::Swpb, false)),
    (b"swpb.b", Token::One(Op1::Swpb, true)),
    (b"sxt", Token::One(Op1::Sxt, false)),
    (b"sxt.b", Token::One(Op1::Sxt, true)),
    (b"call", Token::One(Op1::Call, false)),
    (b"call.b", Token::One(Op1::Call, true)),
];

const OTHERS: [(&[u8], Token); 17] = [
    (b"jne", Token::Jump(0)),
    (b"jeq", Token::Jump(1)),
    (b"jnc", Token::Jump(2)),
    (b"jc", Token::Jump(3)),
    (b"jn", Token::Jump(4)),
    (b"jge", Token::Jump(5)),
    (b"jl", Token::Jump(6)),
    (b"jmp", Token::Jump(7)),
    (b"unprotect", Token::Sancus(0)),
    (b"protect", Token::Sancus(1)),
    (b"attest", Token::Sancus(2)),
    (b"wrap", Token::Sancus(4)),
    (b"unwrap", Token::Sancus(5)),
    (b"getid", Token::Sancus(6)),
    (b"getcaller", Token::Sancus(7)),
    (b"reti", Token::Reti),
    (b".word", Token::Word),
];

/// The token of a word in a table.
fn found_in(table: &[(&[u8], Token)], word: &[u8]) -> Option<Token>
    ensures { result ≡ found_in (map entry_of table.now) word.now }
{
    for (name, token) in table {
        if word == *name {
            return Some(*token);
        }
    }
    None
}

fn sign(word: &[u8]) -> Option<Token>
    ensures { result ≡ found_in signs word.now }
{
    found_in(&SIGNS, word)
}

fn register(word: &[u8]) -> Option<Token>
    ensures { result ≡ found_in registers word.now }
{
    found_in(&REGISTERS, word)
}

fn with_two_operands(word: &[u8]) -> Option<Token>
    ensures { result ≡ found_in names_with_two word.now }
{
    found_in(&WITH_TWO_OPERANDS, word)
}

fn with_one_operand(word: &[u8]) -> Option<Token>
    ensures { result ≡ found_in names_with_one word.now }
{
    found_in(&WITH_ONE_OPERAND, word)
}

fn other_instruction(word: &[u8]) -> Option<Token>
    ensures { result ≡ found_in other_names word.now }
{
    found_in(&OTHERS, word)
}

fn instruction(word: &[u8]) -> Option<Token>
    ensures { result ≡ found_in instructions word.now }
{
    if let Some(token) = with_two_operands(word) {
        return Some(token);
    }
    if let Some(token) = with_one_operand(word) {
        return Some(token);
    }
    other_instruction(word)
}

/// Whether a byte can be in a word.
fn is_word_byte(byte: u8) -> bool
    ensures { result ≡ is_word_byte byte }
{
    is_name_byte(byte) || byte.is_ascii_uppercase() || byte == b'.'
}

/// Whether neighbouring bytes are of one token.
fn joins(a: u8, b: u8) -> bool
    ensures { result ≡ joins a b }
{
    is_word_byte(a) && is_word_byte(b) || a == b && (a == b'#' || a == b'/')
}

/// How many bytes at the start continue the run of the byte before them.
fn run_length(before: u8, text: &[u8]) -> usize
    ensures front { result ≡ run_front before text.now }
    ensures within { result ≤ length text.now }
{
    let mut last = before;
    for (i, byte) in text.iter().enumerate() {
        if !joins(last, *byte) {
            return i;
        }
        last = *byte;
    }
    text.len()
}

/// The first run and what follows it; None exactly where there is no run.
fn split_run(text: &[u8]) -> Option<(&[u8], &[u8])>
    ensures runs { MatchOption result (runs text.now ≡ [])
        (λ s. runs text.now ≡ s.0.now ∷ runs s.1.now) }
    ensures shorter { IfSome result (λ s. length s.1.now < length text.now) }
{
    let (first, rest) = text.split_first()?;
    let length = 1 + run_length(*first, rest);
    Some(text.split_at(length))
}

/// What a byte counts as a digit in this base.
fn digit(base: u32, byte: u8) -> Option<u32>
    requires { base ≤ 16 }
    ensures digit { result ≡ digit_of base byte }
    ensures low { IfSome result (λ d. d < 16) }
{
    let value = match byte {
        b'0'..=b'9' => byte - b'0',
        b'a'..=b'f' => byte - b'a' + 10,
        b'A'..=b'F' => byte - b'A' + 10,
        _ => 16,
    };
    let value = u32::from(value);
    if value < base { Some(value) } else { None }
}

/// The number with one more digit, at most 65,535.
fn with_digit(base: u32, number: u16, byte: u8) -> Option<u16>
    requires { base ≤ 16 }
    ensures { result ≡ with_digit base number byte }
{
    let next = u32::from(number) * base + digit(base, byte)?;
    if next > 65535 {
        return None;
    }
    Some(next as u16)
}

/// The number that digits write after a number, at most 65,535.
fn digits(base: u32, text: &[u8]) -> Option<u16>
    requires { base ≤ 16 }
    ensures { result ≡ digits_from base 0 text.now }
{
    let mut number = 0;
    for byte in text {
        number = with_digit(base, number, *byte)?;
    }
    Some(number)
}

/// The number that one digit or more write.
#[tactic(auto, using(crate::proofs::Numbers::numeral_number))]
fn numeral(base: u32, text: &[u8]) -> Option<u16>
    requires { base ≤ 16 }
    ensures { result ≡ numeral_of base text.now }
{
    if text.is_empty() {
        return None;
    }
    digits(base, text)
}

fn number(word: &[u8]) -> Option<u16>
    ensures { result ≡ number_of word.now }
{
    match word {
        [b'0', b'x', digits @ ..] => numeral(16, digits),
        _ => numeral(10, word),
    }
}

/// A word of the handler language is no name.
#[tactic(auto, using(crate::proofs::WordKinds::no_keyword, crate::proofs::WordKinds::any_keyword))]
fn name(word: &[u8]) -> Token
    requires form { is_name word.now ≡ true }
    requires some { 0 < length word.now }
    requires short { length word.now ≤ 16 }
    ensures { result ≡ value_token (kind_of word.now) }
{
    match keyword(word) {
        Some(_) => Token::Bad,
        None => Token::Name(Name::new(word).unwrap()),
    }
}

#[tactic(auto, using(crate::proofs::WordKinds::some_name, crate::proofs::WordKinds::short_name, crate::proofs::WordKinds::number_kind))]
fn value(word: &[u8]) -> Token
    ensures { result ≡ value_token (kind_of word.now) }
{
    if has_form(word) {
        return name(word);
    }
    match number(word) {
        Some(n) => Token::Number(n),
        None => Token::Bad,
    }
}

fn token_of(run: &[u8]) -> Token
    ensures { result ≡ token_of run.now }
{
    if let Some(token) = sign(run) {
        return token;
    }
    if let Some(token) = register(run) {
        return token;
    }
    match instruction(run) {
        Some(token) => token,
        None => value(run),
    }
}

fn is_comment(run: &[u8]) -> bool
    ensures { result ≡ begins_comment run.now }
{
    match run {
        [b'/', b'/', ..] => true,
        _ => false,
    }
}

fn is_gap(run: &[u8]) -> bool
    ensures { result ≡ is_gap run.now }
{
    match run {
        [byte, ..] => *byte == b' ' || *byte == b'\t',
        [] => false,
    }
}

/// The tokens of a line, up to a comment. The error says that memory ran out.
#[tactic(auto, unfolding(crate::specs::Tokens::tokens_of))]
pub fn tokens_of(alloc: Global, line: &[u8]) -> Result<Vec<Token>, AllocError>
    ensures { IfOk result (λ tokens. tokens.items ≡ tokens_of line.now) }
{
    let mut tokens = Vec::new(alloc);
    let mut rest = line;
    while let Some((run, more)) = split_run(rest) {
        if is_comment(run) {
            return Ok(tokens);
        }
        if !is_gap(run) {
            tokens.push(token_of(run))?;
        }
        rest = more;
    }
    Ok(tokens)
}
