//! The module that a property's tokens stand for. Each token becomes others at its own place.

ghost use Rattle.std.specs.Prelude.{◌≡◌, ◌++◌, [], ◌∷◌, IfOk, OnOk};
ghost use Rattle.sx_watch.specs.Rewriting.{assume_ends, fail_begins, head_at, input_for};
ghost use Rattle.sx_watch.specs.Rewriting.{module_tokens, placed, plain, read, read_as};
ghost use Rattle.sx_watch.specs.Parts.{assumed, fail_end, front, head_word, inputs_from};
ghost use Rattle.sx_watch.specs.Parts.{is_reserved, named, other};

use crate::topics::TopicKind;
use crate::words::{
    ended, has_no_value, input_name, is_assume, is_fail, is_left_out, kind_of, unnamed,
};
use std::alloc::{AllocError, Global};
use sx_lang::names::Name;
use sx_lex::tokens::{Kind, Place, Placed};

/// How a token of a property is read.
#[derive(Clone, Copy, PartialEq, Eq, Debug)]
pub enum Mode {
    /// As one of the language, or of a property's own words.
    Plain,
    /// As the first word of a head.
    Head,
    /// As the name after the head's first word.
    Item(TopicKind),
    /// As the end of `fail`.
    Failing,
    /// As one of an assumption.
    Assuming,
}

/// What a handler of a property hears of.
#[derive(Clone, Copy)]
pub struct Head {
    /// The kind of its items.
    pub kind: TopicKind,
    /// The name of what these items are about.
    pub name: Name,
    /// Where the name is.
    pub place: Place,
}

/// What the tokens of a property become.
#[derive(Drop)]
pub(crate) struct Rewritten {
    /// What its handlers hear of, in order.
    pub(crate) heads: Vec<Head>,
    /// Tokens of the language.
    pub(crate) tokens: Vec<Placed>,
}

/// Appends tokens at this place. The error says that memory ran out.
fn put(list: &mut Vec<Placed>, place: Place, kinds: &[Kind]) -> Result<(), AllocError>
    ensures { OnOk result (list.new.items ≡ list.old.items ++ placed place kinds.now) }
{
    for kind in kinds {
        list.push(Placed { kind: *kind, place })?;
    }
    Ok(())
}

fn put_fail(list: &mut Vec<Placed>, place: Place) -> Result<(), AllocError>
    ensures { OnOk result (list.new.items ≡ list.old.items ++ placed place fail_begins) }
{
    put(
        list,
        place,
        &[
            Kind::If,
            Kind::Name(ended()),
            Kind::OpenBrace,
            Kind::CloseBrace,
            Kind::Else,
            Kind::OpenBrace,
            Kind::Emit,
            Kind::Number(1),
        ],
    )
}

fn put_assume_end(list: &mut Vec<Placed>, place: Place) -> Result<(), AllocError>
    ensures { OnOk result (list.new.items ≡ list.old.items ++ placed place assume_ends) }
{
    put(
        list,
        place,
        &[
            Kind::OpenBrace,
            Kind::CloseBrace,
            Kind::Else,
            Kind::OpenBrace,
            Kind::Name(ended()),
            Kind::Equals,
            Kind::Number(1),
            Kind::Semicolon,
            Kind::CloseBrace,
        ],
    )
}

/// Whether a name is the word of a statement of properties.
fn is_reserved(word: &Name) -> bool
    ensures { result ≡ is_reserved word.now }
{
    is_fail(word) || is_assume(word)
}

fn put_name(list: &mut Vec<Placed>, place: Place, word: Name) -> Result<Mode, AllocError>
    ensures tokens { OnOk result (list.new.items
        ≡ list.old.items ++ placed place (plain (Kind.Name word)).0) }
    ensures mode { IfOk result (λ mode. mode ≡ (plain (Kind.Name word)).1) }
{
    if is_fail(&word) {
        put_fail(list, place)?;
        Ok(Mode::Failing)
    } else if is_assume(&word) {
        put(list, place, &[Kind::If])?;
        Ok(Mode::Assuming)
    } else {
        put(list, place, &[Kind::Name(word)])?;
        Ok(Mode::Plain)
    }
}

fn put_other(list: &mut Vec<Placed>, place: Place, kind: Kind) -> Result<(), AllocError>
    ensures { OnOk result (list.new.items ≡ list.old.items ++ placed place (other kind)) }
{
    if is_left_out(&kind) {
        put(list, place, &[Kind::Bad])
    } else {
        put(list, place, &[kind])
    }
}

/// Appends what a token becomes among the language's own, and tells how the next one is read.
fn put_plain(list: &mut Vec<Placed>, place: Place, kind: Kind) -> Result<Mode, AllocError>
    ensures tokens { OnOk result (list.new.items ≡ list.old.items ++ placed place (plain kind).0) }
    ensures mode { IfOk result (λ mode. mode ≡ (plain kind).1) }
{
    match kind {
        Kind::On => {
            put(list, place, &[Kind::On])?;
            Ok(Mode::Head)
        }
        Kind::Name(word) => put_name(list, place, word),
        _ => {
            put_other(list, place, kind)?;
            Ok(Mode::Plain)
        }
    }
}

fn put_bad(list: &mut Vec<Placed>, place: Place) -> Result<Mode, AllocError>
    ensures tokens { OnOk result (list.new.items
        ≡ list.old.items ++ placed place (Kind.Bad ∷ [])) }
    ensures mode { IfOk result (λ mode. mode ≡ Mode.Plain) }
{
    put(list, place, &[Kind::Bad])?;
    Ok(Mode::Plain)
}

/// The same of the first word of a head.
fn put_head_word(list: &mut Vec<Placed>, place: Place, kind: Kind) -> Result<Mode, AllocError>
    ensures tokens { OnOk result (list.new.items
        ≡ list.old.items ++ placed place (head_word kind).0) }
    ensures mode { IfOk result (λ mode. mode ≡ (head_word kind).1) }
{
    match kind {
        Kind::Name(word) => match kind_of(word.bytes()) {
            Some(item) => Ok(Mode::Item(item)),
            None => put_bad(list, place),
        },
        _ => put_bad(list, place),
    }
}

fn put_input(
    list: &mut Vec<Placed>,
    place: Place,
    bare: bool,
    input: Name,
) -> Result<(), AllocError>
    ensures { OnOk result (list.new.items ≡ list.old.items ++ placed place (named bare input)) }
{
    let name = Kind::Name(input);
    if bare {
        let parameter = Kind::Name(unnamed());
        put(list, place, &[name, Kind::Open, parameter, Kind::Close])
    } else {
        put(list, place, &[name])
    }
}

/// Appends what the name in a head becomes.
fn put_item(
    list: &mut Vec<Placed>,
    place: Place,
    item: TopicKind,
    input: Name,
    word: Name,
) -> Result<(), AllocError>
    ensures { OnOk result (list.new.items
        ≡ list.old.items ++ placed place (input_for item input word)) }
{
    if is_reserved(&word) {
        put(list, place, &[Kind::Bad])
    } else {
        put_input(list, place, has_no_value(item), input)
    }
}

/// The same of a token after `fail`.
fn put_fail_end(list: &mut Vec<Placed>, place: Place, kind: Kind) -> Result<Mode, AllocError>
    ensures tokens { OnOk result (list.new.items
        ≡ list.old.items ++ placed place (fail_end kind).0) }
    ensures mode { IfOk result (λ mode. mode ≡ (fail_end kind).1) }
{
    match kind {
        Kind::Semicolon => {
            put(list, place, &[Kind::Semicolon, Kind::CloseBrace])?;
            Ok(Mode::Plain)
        }
        _ => put_bad(list, place),
    }
}

/// The same of a token after `assume`, up to its end.
fn put_assumed(list: &mut Vec<Placed>, place: Place, kind: Kind) -> Result<Mode, AllocError>
    ensures tokens { OnOk result (list.new.items
        ≡ list.old.items ++ placed place (assumed kind).0) }
    ensures mode { IfOk result (λ mode. mode ≡ (assumed kind).1) }
{
    match kind {
        Kind::Semicolon => {
            put_assume_end(list, place)?;
            Ok(Mode::Plain)
        }
        Kind::OpenBrace => put_bad(list, place),
        _ => {
            put_plain(list, place, kind)?;
            Ok(Mode::Assuming)
        }
    }
}

/// Appends what a token becomes that is read so, where this is the next head's input, and tells how
/// the token after it is read. The error says that memory ran out.
fn put_token(
    list: &mut Vec<Placed>,
    mode: Mode,
    input: Name,
    token: &Placed,
) -> Result<Mode, AllocError>
    ensures tokens { OnOk result (list.new.items
        ≡ list.old.items ++ placed token.now.place (read_as mode input token.now.kind).0) }
    ensures mode { IfOk result (λ next. next ≡ (read_as mode input token.now.kind).1) }
{
    match mode {
        Mode::Plain => put_plain(list, token.place, token.kind),
        Mode::Head => put_head_word(list, token.place, token.kind),
        Mode::Item(item) => match token.kind {
            Kind::Name(word) => {
                put_item(list, token.place, item, input, word)?;
                Ok(Mode::Plain)
            }
            _ => put_bad(list, token.place),
        },
        Mode::Failing => put_fail_end(list, token.place, token.kind),
        Mode::Assuming => put_assumed(list, token.place, token.kind),
    }
}

fn put_head(heads: &mut Vec<Head>, mode: Mode, token: &Placed) -> Result<(), AllocError>
    ensures { OnOk result (heads.new.items ≡ heads.old.items
        ++ head_at mode token.now.kind token.now.place) }
{
    match (mode, token.kind) {
        (Mode::Item(kind), Kind::Name(name)) => {
            heads.push(Head {
                kind,
                name,
                place: token.place,
            })?;
            Ok(())
        }
        _ => Ok(()),
    }
}

/// What a property's own tokens become. The error says that memory ran out.
fn read(alloc: Global, tokens: &[Placed]) -> Result<Rewritten, AllocError>
    ensures heads { IfOk result (λ r. r.heads.items ≡ (read Mode.Plain 0 tokens.now).0) }
    ensures tokens { IfOk result (λ r. r.tokens.items ≡ (read Mode.Plain 0 tokens.now).1) }
{
    let mut heads = Vec::new(alloc);
    let mut list = Vec::new(alloc);
    let mut mode = Mode::Plain;
    for token in tokens {
        let input = input_name(heads.len());
        let next = put_token(&mut list, mode, input, token)?;
        put_head(&mut heads, mode, token)?;
        mode = next;
    }
    Ok(Rewritten {
        heads,
        tokens: list,
    })
}

/// Appends an input for each head. The error says that memory ran out.
fn put_inputs(list: &mut Vec<Placed>, heads: &[Head]) -> Result<(), AllocError>
    ensures { OnOk result (list.new.items ≡ list.old.items ++ inputs_from 0 heads.now) }
{
    let mut number: usize = 0;
    for head in heads {
        let name = Kind::Name(input_name(number));
        put(list, head.place, &[Kind::Input, name, Kind::Semicolon])?;
        number += 1;
    }
    Ok(())
}

/// Appends what is declared before a property's own tokens. The error says that memory ran out.
fn put_front(list: &mut Vec<Placed>, heads: &[Head]) -> Result<(), AllocError>
    ensures { OnOk result (list.new.items ≡ list.old.items ++ front heads.now) }
{
    let place = Place { line: 1, column: 1 };
    let name = Kind::Name(ended());
    let begin = [
        Kind::Actuator,
        Kind::Semicolon,
        Kind::Var,
        name,
        Kind::Semicolon,
    ];
    put(list, place, &begin)?;
    put_inputs(list, heads)
}

/// The module of a property with these tokens. The error says that memory ran out.
pub(crate) fn rewrite(alloc: Global, tokens: &[Placed]) -> Result<Rewritten, AllocError>
    ensures heads { IfOk result (λ r. r.heads.items ≡ (read Mode.Plain 0 tokens.now).0) }
    ensures tokens { IfOk result (λ r. r.tokens.items ≡ module_tokens tokens.now) }
{
    let own = read(alloc, tokens)?;
    let mut list = Vec::new(alloc);
    put_front(&mut list, &own.heads)?;
    list.extend_from_slice(&own.tokens)?;
    Ok(Rewritten {
        heads: own.heads,
        tokens: list,
    })
}
