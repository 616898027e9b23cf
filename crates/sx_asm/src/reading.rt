//! From a text to its items.

ghost use Rattle.std.specs.Prelude.{◌≡◌, ◌++◌, ◌∷◌, [], ◌<◌, length, Some, None, option_map, OnOk};
ghost use Rattle.std.specs.Prelude.{IfErr, IfSome};
ghost use Rattle.sx_asm.specs.Grammar.{data_of, statement_of, labelled, piece_of, is_semicolon};
ghost use Rattle.sx_asm.specs.Fronts.{behind};
ghost use Rattle.sx_asm.specs.Adding.{AddsEntries};
ghost use Rattle.sx_asm.specs.Reading.{not_written, parts, items_in, items_of, is_newline, taken};
ghost use Rattle.sx_asm.specs.Reading.{line_fits, read};
ghost use Rattle.sx_asm.specs.Answers.{AnswersMeant};
ghost use Rattle.sx_asm.specs.declared.error.AsmError.TheVariants.{OutOfMemory};

use crate::error::AsmError;
use crate::grammar::{instruction_from, is_colon, is_comma, is_semicolon, value};
use crate::lexing::tokens_of;
use crate::written::{Entry, Item, Token};
use std::alloc::Global;
use std::slice;
use sx_lang::names::Name;

/// The most bytes of a text.
const TEXT_LIMIT: usize = 262_144;
/// The most bytes of a line, without its newline.
const LINE_LIMIT: usize = 4_096;

fn not_written(line: u32) -> AsmError
    ensures { result ≡ not_written line }
{
    AsmError::Fault { rule: 1, line }
}

/// Adds a copy, by a slice: the checker proves no `push` of a value that holds names at this depth.
fn push(entry: &Entry, entries: &mut Vec<Entry>) -> Result<(), AsmError>
    ensures added { OnOk result (entries.new.items ≡ entries.old.items ++ entry.now ∷ []) }
    ensures error { IfErr result (λ e. e ≡ OutOfMemory) }
{
    entries.extend_from_slice(slice::from_ref(entry))?;
    Ok(())
}

fn add(line: u32, item: Item, entries: &mut Vec<Entry>) -> Result<(), AsmError>
    ensures added { OnOk result
        (entries.new.items ≡ entries.old.items ++ record { line = line; item = item } ∷ []) }
    ensures error { IfErr result (λ e. e ≡ OutOfMemory) }
{
    push(&Entry { line, item }, entries)
}

/// Adds the words of data.
fn add_data(line: u32, tokens: &[Token], entries: &mut Vec<Entry>) -> Result<(), AsmError>
    ensures { AddsEntries (data_of tokens.now) line entries.old.items entries.new.items result }
{
    let mut rest = tokens;
    loop {
        let Some((first, more)) = rest.split_first() else {
            return Err(not_written(line));
        };
        let Some(value) = value(first) else {
            return Err(not_written(line));
        };
        add(line, Item::Word(value), entries)?;
        let Some((comma, more)) = more.split_first() else {
            return Ok(());
        };
        if !is_comma(comma) {
            return Err(not_written(line));
        }
        rest = more;
    }
}

fn add_statement(line: u32, tokens: &[Token], entries: &mut Vec<Entry>) -> Result<(), AsmError>
    ensures { AddsEntries (statement_of tokens.now) line entries.old.items entries.new.items
        result }
{
    let Some((first, rest)) = tokens.split_first() else {
        return Ok(());
    };
    if let Token::Word = *first {
        return add_data(line, rest, entries);
    }
    match instruction_from(first, rest) {
        Some(item) => add(line, item, entries),
        None => Err(not_written(line)),
    }
}

/// Adds a label, of which the colon and a statement follow.
fn add_label(
    line: u32,
    name: &Name,
    tokens: &[Token],
    entries: &mut Vec<Entry>,
) -> Result<(), AsmError>
    ensures { AddsEntries (labelled name.now tokens.now) line entries.old.items entries.new.items
        result }
{
    let Some((colon, rest)) = tokens.split_first() else {
        return Err(not_written(line));
    };
    if !is_colon(colon) {
        return Err(not_written(line));
    }
    add(line, Item::Label(*name), entries)?;
    add_statement(line, rest, entries)
}

fn add_piece(line: u32, tokens: &[Token], entries: &mut Vec<Entry>) -> Result<(), AsmError>
    ensures { AddsEntries (piece_of tokens.now) line entries.old.items entries.new.items result }
{
    let Some((first, rest)) = tokens.split_first() else {
        return Ok(());
    };
    match first {
        Token::Name(name) => add_label(line, name, rest, entries),
        _ => add_statement(line, tokens, entries),
    }
}

/// The tokens before the first semicolon, and those after it.
fn split_piece(tokens: &[Token]) -> (&[Token], Option<&[Token]>)
    ensures parts { parts is_semicolon tokens.now
        ≡ result.0.now ∷ behind is_semicolon (option_map (λ more. more.now) result.1) }
    ensures shorter { IfSome result.1 (λ more. length more.now < length tokens.now) }
{
    for (i, token) in tokens.iter().enumerate() {
        if is_semicolon(token) {
            return (&tokens[..i], Some(&tokens[i + 1..]));
        }
    }
    (tokens, None)
}

fn add_pieces(line: u32, tokens: &[Token], entries: &mut Vec<Entry>) -> Result<(), AsmError>
    ensures { AddsEntries (items_in (parts is_semicolon tokens.now)) line
        entries.old.items entries.new.items result }
{
    let mut rest = tokens;
    loop {
        let (piece, more) = split_piece(rest);
        add_piece(line, piece, entries)?;
        let Some(more) = more else {
            return Ok(());
        };
        rest = more;
    }
}

fn add_line(
    alloc: Global,
    number: u32,
    line: &[u8],
    entries: &mut Vec<Entry>,
) -> Result<(), AsmError>
    ensures { AddsEntries (items_of line.now) number entries.old.items entries.new.items result }
{
    let tokens = tokens_of(alloc, line)?;
    add_pieces(number, &tokens, entries)
}

/// The bytes before the first newline, and those after it.
fn split_line(text: &[u8]) -> (&[u8], Option<&[u8]>)
    ensures parts { parts is_newline text.now
        ≡ result.0.now ∷ behind is_newline (option_map (λ more. more.now) result.1) }
    ensures shorter { IfSome result.1 (λ more. length more.now < length text.now) }
{
    for (i, byte) in text.iter().enumerate() {
        if *byte == b'\n' {
            return (&text[..i], Some(&text[i + 1..]));
        }
    }
    (text, None)
}

/// The bytes of a line, with its newline where a line follows.
fn taken(line: &[u8], more: Option<&[u8]>) -> usize
    ensures { result
        ≡ taken line.now (behind is_newline (option_map (λ rest. rest.now) more.entry)) }
{
    match more {
        Some(_) => line.len() + 1,
        None => line.len(),
    }
}

fn line_fits(left: usize, line: &[u8], more: Option<&[u8]>) -> bool
    ensures { result
        ≡ line_fits left line.now (behind is_newline (option_map (λ rest. rest.now) more.entry)) }
{
    line.len() <= LINE_LIMIT && taken(line, more) <= left
}

/// The items of a text. A fault is of rule 1.
#[tactic(auto, unfolding(crate::specs::Reading::read))]
pub fn read(alloc: Global, text: &[u8]) -> Result<Vec<Entry>, AsmError>
    ensures { AnswersMeant (λ entries. entries.items) (read text.now) result }
{
    let mut entries = Vec::new(alloc);
    let mut left = TEXT_LIMIT;
    let mut number = 1;
    let mut rest = text;
    loop {
        let (line, more) = split_line(rest);
        if !line_fits(left, line, more) {
            return Err(not_written(number));
        }
        add_line(alloc, number, line, &mut entries)?;
        let Some(more) = more else {
            return Ok(entries);
        };
        left -= line.len() + 1;
        number += 1;
        rest = more;
    }
}
