//! The tokens of a whole text, with their places.

ghost use Rattle.std.specs.Prelude.{◌≡◌, ◌≤◌, length, IfOk, true, false};
ghost use Rattle.sx_lex.specs.Lexed.{Lexed, along, below, begins_comment, is_space, start, up};
ghost use Rattle.sx_lex.specs.Words.{line_length};

use crate::scan::word_at;
use crate::tokens::{Kind, Place, Placed, Tokens};
use memchr::memchr;
use std::alloc::{AllocError, Global};

fn is_gap(byte: u8) -> bool
    ensures { result ≡ is_space byte }
{
    byte == b' ' || byte == b'\t'
}

fn further(number: u32, by: usize) -> u32
    ensures { result ≡ up number by }
{
    let most = u32::MAX - number;
    if by > most as usize {
        u32::MAX
    } else {
        number + by as u32
    }
}

impl Place {
    fn along(self, by: usize) -> Place
        ensures { result ≡ along self by }
    {
        Place {
            line: self.line,
            column: further(self.column, by),
        }
    }

    fn below(self) -> Place
        ensures { result ≡ below self }
    {
        Place {
            line: further(self.line, 1),
            column: 1,
        }
    }
}

fn is_comment(text: &[u8]) -> bool
    ensures { result ≡ begins_comment text.now }
{
    match text {
        [b'/', b'/', ..] => true,
        _ => false,
    }
}

/// How many bytes are before the first newline.
fn line_end(text: &[u8]) -> usize
    ensures count { result ≡ line_length text.now }
    ensures inside { result ≤ length text.now }
{
    memchr(b'\n', text).unwrap_or(text.len())
}

/// The tokens of a text, each the longest possible, and the place where their reading ended.
///
/// Spaces, tabs, newlines and `//` to the line's end are between tokens. Where no token can
/// begin, the reading ends with the token `Bad` at that place, else after the text's last byte. The
/// error says that memory ran out.
#[tactic(auto, using(crate::proofs::Turns::begins, crate::proofs::Turns::passes_space, crate::proofs::Turns::passes_line, crate::proofs::Turns::passes_comment, crate::proofs::Turns::adds_token, crate::proofs::Turns::adds_bad, crate::proofs::Turns::ends_here))]
pub fn tokens_of(alloc: Global, text: &[u8]) -> Result<Tokens, AllocError>
    ensures { IfOk result (λ t. Lexed start text.now t.list.items t.end) }
{
    let mut list = Vec::new(alloc);
    let mut rest = text;
    let mut place = Place { line: 1, column: 1 };
    while let Some((first, after)) = rest.split_first() {
        if *first == b'\n' {
            place = place.below();
            rest = after;
            continue;
        }
        if is_gap(*first) {
            place = place.along(1);
            rest = after;
            continue;
        }
        if is_comment(rest) {
            let count = line_end(rest);
            place = place.along(count);
            rest = rest.split_at(count).1;
            continue;
        }
        let Some(word) = word_at(rest) else {
            list.push(Placed {
                kind: Kind::Bad,
                place,
            })?;
            return Ok(Tokens { list, end: place });
        };
        list.push(Placed {
            kind: word.kind,
            place,
        })?;
        place = place.along(word.count);
        rest = rest.split_at(word.count).1;
    }
    Ok(Tokens { list, end: place })
}
