//! What a table holds at a key, as a value of a type.
ghost use Rattle.std.specs.Prelude.{◌≡◌, map, is_some, option_map};
ghost use Rattle.std.specs.Option.{option_copied};
ghost use Rattle.toml.specs.Data.{get_member};
ghost use Rattle.toml.specs.View.{view, table_view};
ghost use Rattle.sx_entries.specs.Fields.{has_only, key_at, knows, name_at, name_of, text_at};
ghost use Rattle.sx_entries.specs.Fields.{word_at};

use hex::FromHex;
use std::marker::Model;
use sx_lang::names::{Name, has_form};
use toml::{Table, Value};

/// The value at a key.
pub fn value_at<'a>(table: &'a Table, key: &str) -> Option<&'a Value>
    ensures { option_map (λ v. view v.now) result ≡ get_member key.now (table_view table.now) }
{
    table.get(key)
}

/// Whether the table has a key.
pub fn has_key(table: &Table, key: &str) -> bool
    ensures { result ≡ is_some (get_member key.now (table_view table.now)) }
{
    value_at(table, key).is_some()
}

/// The text at a key.
pub fn text_at<'a>(table: &'a Table, key: &str) -> Option<&'a str>
    ensures { option_copied result ≡ text_at key.now (table_view table.now) }
{
    match value_at(table, key) {
        Some(value) => value.as_str(),
        None => None,
    }
}

/// A text that a document holds.
#[derive(Drop)]
pub struct Source<'a> {
    text: &'a str,
}

impl<'a> Model for Source<'a> {
    ghost use Rattle.std.specs.Prelude.{ℕ, List};

    ghost Value = { List ℕ };

    ghost view = { λ s. s.text.now };
}

impl<'a> Source<'a> {
    /// The text itself.
    pub fn text(&self) -> &str
        ensures { result.now ≡ self.now }
    {
        self.text
    }
}

/// The text at a key, to be kept.
pub fn source_at<'a>(table: &'a Table, key: &str) -> Option<Source<'a>>
    ensures { result ≡ text_at key.now (table_view table.now) }
{
    match text_at(table, key) {
        Some(text) => Some(Source { text }),
        None => None,
    }
}

/// The name that a text is.
#[tactic(auto, using(sx_lang::proofs::Form::name_size))]
pub fn name_of(text: &[u8]) -> Option<Name>
    ensures { result ≡ name_of text.now }
{
    if has_form(text) {
        Name::new(text)
    } else {
        None
    }
}

/// The name at a key, which holds a text: `Some(None)` where the text isn't a name.
pub fn name_at(table: &Table, key: &str) -> Option<Option<Name>>
    ensures { result ≡ name_at key.now (table_view table.now) }
{
    match text_at(table, key) {
        Some(text) => Some(name_of(text.as_bytes())),
        None => None,
    }
}

/// The number from 0 to 65535 at a key.
pub fn word_at(table: &Table, key: &str) -> Option<u16>
    ensures { result ≡ word_at key.now (table_view table.now) }
{
    match value_at(table, key) {
        Some(value) => match value.as_integer() {
            Some(number) => u16::try_from(number).ok(),
            None => None,
        },
        None => None,
    }
}

/// The sixteen bytes whose 32 digits are at a key.
pub fn key_at(table: &Table, key: &str) -> Option<[u8; 16]>
    ensures { result ≡ key_at key.now (table_view table.now) }
{
    match text_at(table, key) {
        Some(text) => <[u8; 16] as FromHex>::from_hex(text).ok(),
        None => None,
    }
}

fn knows(keys: &[&str], key: &str) -> bool
    ensures { result ≡ knows (map (λ k. k.now) keys.now) key.now }
{
    keys.contains(&key)
}

/// Whether a table has no key but these.
pub fn has_only(table: &Table, keys: &[&str]) -> bool
    ensures { result ≡ has_only (map (λ k. k.now) keys.now) (table_view table.now) }
{
    for key in table.keys() {
        if !knows(keys, key.as_str()) {
            return false;
        }
    }
    true
}
