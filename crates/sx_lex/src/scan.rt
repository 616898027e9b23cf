//! The longest token at the start of a text.

ghost use Rattle.std.specs.Prelude.{◌≡◌, ◌+◌, ◌*◌, ◌<◌, ◌≤◌, ◌&&◌, true, false, length};
ghost use Rattle.std.specs.Prelude.{take, IfSome, IfNone, nat_le};
ghost use Rattle.sx_lex.specs.Words.{is_lower, digit_value, is_digit, value};
ghost use Rattle.sx_lex.specs.Progress.{name_front, number_front, first_is, NoHexadecimal, NoPair};
ghost use Rattle.sx_lex.specs.Words.{found_in, keywords, or_else};
ghost use Rattle.sx_lex.specs.Words.{IsLongest, NoToken};

use crate::quoted::{keyword, sign, sign_of_two};
use crate::tokens::Kind;
use sx_lang::names::{Name, is_name_byte};

/// A token at the start of a text, and how many bytes it has.
#[derive(Clone, Copy)]
pub struct Word {
    /// What the token is.
    pub kind: Kind,
    /// How many bytes it has.
    pub count: usize,
}

/// Digits at the start of a text: how many, and the number that they stand for.
#[derive(Clone, Copy)]
struct Digits {
    count: usize,
    number: u16,
}

/// How many bytes at the start may belong to a name, at most `most`.
fn name_run(text: &[u8], most: u8) -> u8
    ensures front { result ≡ name_front most text.now }
    ensures within { result ≤ most }
    ensures inside { result ≤ length text.now }
{
    let Some((first, rest)) = text.split_first() else {
        return 0;
    };
    if most == 0 || !is_name_byte(*first) {
        return 0;
    }
    let more = name_run(rest, most - 1);
    1 + more
}

/// A word of the language is no name.
fn keyword_or_name(word: &[u8]) -> Kind
    requires some { 0 < length word.now }
    requires short { length word.now ≤ 16 }
    ensures { result ≡ or_else (found_in keywords word.now) (Kind.Name word.now) }
{
    match keyword(word) {
        Some(kind) => kind,
        None => Kind::Name(Name::new(word).unwrap()),
    }
}

#[tactic(auto, using(crate::proofs::Names::longest_name))]
fn name_at(text: &[u8]) -> Option<Word>
    ensures found { IfSome result (λ w. IsLongest text.now w.count w.kind) }
    ensures inside { IfSome result (λ w. (0 < w.count) × (w.count ≤ length text.now)) }
    ensures none { IfNone result (first_is is_lower text.now ≡ false) }
{
    let Some((first, rest)) = text.split_first() else {
        return None;
    };
    if !first.is_ascii_lowercase() {
        return None;
    }
    let count = 1 + name_run(rest, 15) as usize;
    let kind = keyword_or_name(&text[..count]);
    Some(Word { kind, count })
}

/// What a byte counts as a digit in this base.
fn digit(byte: u8, base: u32) -> Option<u32>
    requires { base ≤ 16 }
    ensures found { IfSome result (λ d. (is_digit base byte ≡ true) × (d ≡ digit_value byte)
        × (d < 16)) }
    ensures none { IfNone result (is_digit base byte ≡ false) }
{
    let value = match byte {
        b'0'..=b'9' => byte - b'0',
        b'a'..=b'f' => byte - b'a' + 10,
        b'A'..=b'F' => byte - b'A' + 10,
        _ => 16,
    };
    let value = value as u32;
    if value < base { Some(value) } else { None }
}

/// The number with one more digit; `None` where the byte is no digit or the number passes 65,535.
#[tactic(auto, using(crate::proofs::Numbers::product_fits, crate::proofs::Numbers::both, crate::proofs::Numbers::not_first, crate::proofs::Numbers::not_second))]
fn appended(number: u16, byte: u8, base: u32) -> Option<u16>
    requires { base ≤ 16 }
    ensures found { IfSome result (λ n. ((is_digit base byte
        && nat_le (number * base + digit_value byte) 65535) ≡ true)
        × (n ≡ number * base + digit_value byte)) }
    ensures none { IfNone result ((is_digit base byte
        && nat_le (number * base + digit_value byte) 65535) ≡ false) }
{
    let Some(digit) = digit(byte, base) else {
        return None;
    };
    let next = number as u32 * base + digit;
    if next > 65535 {
        return None;
    }
    Some(next as u16)
}

/// The digits at the start that belong to one number.
#[tactic(auto, using(crate::proofs::Numbers::begins, crate::proofs::Numbers::counts, crate::proofs::Numbers::stops_count, crate::proofs::Numbers::stops_value, crate::proofs::Numbers::ends_count, crate::proofs::Numbers::ends_value))]
fn digits_at(text: &[u8], base: u32) -> Digits
    requires { base ≤ 16 }
    ensures count { result.count ≡ number_front base 0 text.now }
    ensures number { result.number ≡ value base 0 (take (number_front base 0 text.now) text.now) }
    ensures inside { result.count ≤ length text.now }
{
    let mut rest = text;
    let mut count: usize = 0;
    let mut number: u16 = 0;
    while let Some((first, after)) = rest.split_first() {
        let Some(next) = appended(number, *first, base) else {
            return Digits { count, number };
        };
        number = next;
        count += 1;
        rest = after;
    }
    Digits { count, number }
}

#[tactic(auto, using(crate::proofs::Numbers::no_hexadecimal, crate::proofs::Numbers::no_second, crate::proofs::Numbers::other_first, crate::proofs::Numbers::other_second, crate::proofs::Numbers::no_digits, crate::proofs::Numbers::longest_hexadecimal))]
fn hexadecimal_at(text: &[u8]) -> Option<Word>
    ensures found { IfSome result (λ w. IsLongest text.now w.count w.kind) }
    ensures inside { IfSome result (λ w. (0 < w.count) × (w.count ≤ length text.now)) }
    ensures none { IfNone result (NoHexadecimal text.now) }
{
    let Some((first, behind)) = text.split_first() else {
        return None;
    };
    let Some((second, rest)) = behind.split_first() else {
        return None;
    };
    if *first != b'0' {
        return None;
    }
    if *second != b'x' {
        return None;
    }
    let digits = digits_at(rest, 16);
    if digits.count == 0 {
        return None;
    }
    let kind = Kind::Number(digits.number);
    Some(Word {
        kind,
        count: 2 + digits.count,
    })
}

#[tactic(auto, using(crate::proofs::Numbers::no_decimal, crate::proofs::Numbers::longest_decimal))]
fn number_at(text: &[u8]) -> Option<Word>
    ensures found { IfSome result (λ w. IsLongest text.now w.count w.kind) }
    ensures inside { IfSome result (λ w. (0 < w.count) × (w.count ≤ length text.now)) }
    ensures none { IfNone result (first_is (is_digit 10) text.now ≡ false) }
{
    if let Some(word) = hexadecimal_at(text) {
        return Some(word);
    }
    let digits = digits_at(text, 10);
    if digits.count == 0 {
        return None;
    }
    let kind = Kind::Number(digits.number);
    Some(Word {
        kind,
        count: digits.count,
    })
}

#[tactic(auto, using(crate::proofs::Signs::pair_of_none, crate::proofs::Signs::pair_of_one, crate::proofs::Signs::no_pair, crate::proofs::Signs::longest_pair))]
fn pair_at(text: &[u8]) -> Option<Word>
    requires lower { first_is is_lower text.now ≡ false }
    requires digit { first_is (is_digit 10) text.now ≡ false }
    ensures found { IfSome result (λ w. IsLongest text.now w.count w.kind) }
    ensures inside { IfSome result (λ w. (0 < w.count) × (w.count ≤ length text.now)) }
    ensures none { IfNone result (NoPair text.now) }
{
    let Some((first, behind)) = text.split_first() else {
        return None;
    };
    let Some((second, _)) = behind.split_first() else {
        return None;
    };
    let Some(kind) = sign_of_two(*first, *second) else {
        return None;
    };
    Some(Word { kind, count: 2 })
}

#[tactic(auto, using(crate::proofs::Signs::none_of_none, crate::proofs::Signs::no_sign, crate::proofs::Signs::longest_sign))]
fn sign_at(text: &[u8]) -> Option<Word>
    requires lower { first_is is_lower text.now ≡ false }
    requires digit { first_is (is_digit 10) text.now ≡ false }
    requires pair { NoPair text.now }
    ensures found { IfSome result (λ w. IsLongest text.now w.count w.kind) }
    ensures inside { IfSome result (λ w. (0 < w.count) × (w.count ≤ length text.now)) }
    ensures none { IfNone result (NoToken text.now) }
{
    let Some((first, _)) = text.split_first() else {
        return None;
    };
    let Some(kind) = sign(*first) else {
        return None;
    };
    Some(Word { kind, count: 1 })
}

/// The longest token at the start of a text.
pub fn word_at(text: &[u8]) -> Option<Word>
    ensures found { IfSome result (λ w. IsLongest text.now w.count w.kind) }
    ensures inside { IfSome result (λ w. (0 < w.count) × (w.count ≤ length text.now)) }
    ensures none { IfNone result (NoToken text.now) }
{
    if let Some(word) = name_at(text) {
        return Some(word);
    }
    if let Some(word) = number_at(text) {
        return Some(word);
    }
    if let Some(word) = pair_at(text) {
        return Some(word);
    }
    sign_at(text)
}
