//! The language's own words and signs.

ghost use Rattle.std.specs.Prelude.{◌≡◌, [], ◌∷◌};
ghost use Rattle.sx_lex.specs.Words.{found_in, beginning_words, statement_words, keywords, signs};

use crate::tokens::Kind;

fn beginning_word(word: &[u8]) -> Option<Kind>
    ensures { result ≡ found_in beginning_words word.now }
{
    if word == b"sensor".as_slice() {
        Some(Kind::Sensor)
    } else if word == b"actuator".as_slice() {
        Some(Kind::Actuator)
    } else if word == b"input".as_slice() {
        Some(Kind::Input)
    } else if word == b"output".as_slice() {
        Some(Kind::Output)
    } else if word == b"var".as_slice() {
        Some(Kind::Var)
    } else if word == b"array".as_slice() {
        Some(Kind::Array)
    } else if word == b"on".as_slice() {
        Some(Kind::On)
    } else if word == b"sample".as_slice() {
        Some(Kind::Sample)
    } else {
        None
    }
}

fn statement_word(word: &[u8]) -> Option<Kind>
    ensures { result ≡ found_in statement_words word.now }
{
    if word == b"let".as_slice() {
        Some(Kind::Let)
    } else if word == b"if".as_slice() {
        Some(Kind::If)
    } else if word == b"else".as_slice() {
        Some(Kind::Else)
    } else if word == b"repeat".as_slice() {
        Some(Kind::Repeat)
    } else if word == b"send".as_slice() {
        Some(Kind::Send)
    } else if word == b"emit".as_slice() {
        Some(Kind::Emit)
    } else {
        None
    }
}

/// The token of these bytes, if they are one of the language's own words.
pub fn keyword(word: &[u8]) -> Option<Kind>
    ensures { result ≡ found_in keywords word.now }
{
    if let Some(kind) = beginning_word(word) {
        return Some(kind);
    }
    statement_word(word)
}

/// The token of this byte, if it is a sign.
pub fn sign(byte: u8) -> Option<Kind>
    ensures { result ≡ found_in signs (byte ∷ []) }
{
    match byte {
        b';' => Some(Kind::Semicolon),
        b'=' => Some(Kind::Equals),
        b'(' => Some(Kind::Open),
        b')' => Some(Kind::Close),
        b'[' => Some(Kind::OpenSquare),
        b']' => Some(Kind::CloseSquare),
        b'{' => Some(Kind::OpenBrace),
        b'}' => Some(Kind::CloseBrace),
        b'<' => Some(Kind::Less),
        b'>' => Some(Kind::Greater),
        b'+' => Some(Kind::Plus),
        b'-' => Some(Kind::Minus),
        b'|' => Some(Kind::Bar),
        b'^' => Some(Kind::Caret),
        b'*' => Some(Kind::Star),
        b'&' => Some(Kind::Ampersand),
        b'~' => Some(Kind::Tilde),
        b'!' => Some(Kind::Bang),
        _ => None,
    }
}

/// The token of these two bytes, if they are a sign.
#[tactic(auto, using(crate::proofs::Signs::other_second))]
pub fn sign_of_two(first: u8, second: u8) -> Option<Kind>
    ensures { result ≡ found_in signs (first ∷ second ∷ []) }
{
    if second != b'=' {
        return None;
    }
    match first {
        b'=' => Some(Kind::EqualsEquals),
        b'!' => Some(Kind::NotEquals),
        b'<' => Some(Kind::LessEquals),
        b'>' => Some(Kind::GreaterEquals),
        _ => None,
    }
}
