//! The places of the tokens of a dozen texts, and the values of numbers.

use std::alloc::{AllocError, Global};
use std::test::Fail;
use sx_lang::names::Name;
use sx_lex::reading::tokens_of;
use sx_lex::tokens::{Kind, Placed};

/// A token's line and column, and its value if it is a number.
type Token = (u32, u32, Option<u16>);

/// Texts, their tokens, and the line and column of their end.
const TEXTS: [(&str, &[Token], (u32, u32)); 12] = [
    ("", &[], (1, 1)),
    (
        "let x = 0x1F;",
        &[
            (1, 1, None),
            (1, 5, None),
            (1, 7, None),
            (1, 9, Some(31)),
            (1, 13, None),
        ],
        (1, 14),
    ),
    ("65536", &[(1, 1, Some(6553)), (1, 5, Some(6))], (1, 6)),
    ("0x10000", &[(1, 1, Some(4096)), (1, 7, Some(0))], (1, 8)),
    ("0x", &[(1, 1, Some(0)), (1, 2, None)], (1, 3)),
    ("00000000065535", &[(1, 1, Some(65_535))], (1, 15)),
    ("seventeen_letters", &[(1, 1, None), (1, 17, None)], (1, 18)),
    (
        "a<=b// c\r\n!",
        &[(1, 1, None), (1, 2, None), (1, 4, None), (2, 1, None)],
        (2, 2),
    ),
    ("===", &[(1, 1, None), (1, 3, None)], (1, 4)),
    ("//", &[], (1, 3)),
    ("\t/ x", &[(1, 2, None)], (1, 2)),
    ("\n a\r", &[(2, 2, None), (2, 3, None)], (2, 3)),
];

fn number(kind: &Kind) -> Option<u16> {
    match kind {
        Kind::Number(value) => Some(*value),
        _ => None,
    }
}

/// Whether a list has these tokens.
fn are_tokens(list: &[Placed], want: &[Token]) -> bool {
    for (token, expected) in list.iter().zip(want.iter()) {
        if (token.place.line, token.place.column, number(&token.kind)) != *expected {
            return false;
        }
    }
    list.len() == want.len()
}

/// Whether a text has these tokens, and ends there.
fn is_read(alloc: Global, text: &str, want: &[Token], end: (u32, u32)) -> Result<bool, AllocError> {
    let tokens = tokens_of(alloc, text.as_bytes())?;
    Ok((tokens.end.line, tokens.end.column) == end && are_tokens(&tokens.list, want))
}

#[test]
fn tokens_of_texts(rt: HostRuntime) -> Result<(), Fail> {
    for (text, want, end) in TEXTS.as_slice() {
        assert!(rt; is_read(rt.alloc(), text, want, *end)?);
    }
    Ok(())
}

/// What the tokens are, where a name is cut at sixteen bytes and where a sign is none.
#[test]
fn kinds(rt: HostRuntime) -> Result<(), Fail> {
    let tokens = tokens_of(rt.alloc(), b"seventeen_letters/")?;
    let first = tokens.list.first().map(|token| token.kind);
    assert!(rt; first == Name::new(b"seventeen_letter").map(Kind::Name));
    assert!(rt; tokens.list.last().map(|token| token.kind) == Some(Kind::Bad));
    Ok(())
}
