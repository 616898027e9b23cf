//! Names of the handler language: their form, and how they are stored.

ghost use Rattle.std.specs.Prelude.{◌≡◌, ℕ, ◌<◌, ◌≤◌, length, nat_eq, SomeIff};
ghost use Rattle.std.specs.List.{list_all};
ghost use Rattle.std.specs.Cmp.{partial_equiv_from_equiv};
ghost use Rattle.std.specs.Cmp.Lexicographic.{nat_list_eq_equiv, pointwise};
ghost use Rattle.sx_lang.specs.Form.{is_name, is_name_byte};

use std::marker::Model;

/// The most bytes that a name has.
pub const LONGEST: usize = 16;

/// Whether a byte can be in a name: a lower-case letter, a digit or `_`.
pub fn is_name_byte(byte: u8) -> bool
    ensures { result ≡ is_name_byte byte }
{
    byte.is_ascii_lowercase() || byte.is_ascii_digit() || byte == b'_'
}

fn are_name_bytes(bytes: &[u8]) -> bool
    ensures { result ≡ list_all is_name_byte bytes.now }
{
    for byte in bytes {
        if !is_name_byte(*byte) {
            return false;
        }
    }
    true
}

/// Whether a text has the form of a name: a lower-case letter and up to 15 lower-case letters,
/// digits or `_`.
pub fn has_form(text: &[u8]) -> bool
    ensures { result ≡ is_name text.now }
{
    let Some((first, rest)) = text.split_first() else {
        return false;
    };
    first.is_ascii_lowercase() && are_name_bytes(rest) && rest.len() <= 15
}

/// A name: 1 to 16 bytes. Contracts see it as the list of its bytes.
#[derive(Clone, Copy)]
pub struct Name {
    // the bytes past the length are 0, so that a name is stored in one way
    field: [u8; 16],
    count: u8,
}

impl Model for Name {
    ghost use Rattle.std.specs.Prelude.{◌≡◌, ℕ, List, length, take};
    ghost use Rattle.sx_lang.specs.Padded.{padded_name, IsStored};

    ghost Value = { List ℕ };

    ghost view = { λ a. take a.count a.field };

    ghost invariant = { λ a. IsStored a.field a.count };

    ghost inverse = { λ bytes. record { field = padded_name bytes; count = length bytes } };
}

impl PartialEq for Name {
    ghost eq = { pointwise nat_eq };

    ghost laws = { partial_equiv_from_equiv nat_list_eq_equiv };

    fn eq(&self, other: &Name) -> bool {
        self.bytes() == other.bytes()
    }
}

impl Eq for Name {
    ghost laws = { nat_list_eq_equiv };
}

impl Name {
    /// The name of these bytes; `None` exactly where there are none, or more than 16.
    pub fn new(bytes: &[u8]) -> Option<Name>
        ensures { SomeIff result ((0 < length bytes.now) × (length bytes.now ≤ LONGEST)) bytes.now }
    {
        if bytes.is_empty() || bytes.len() > LONGEST {
            return None;
        }
        let mut field = [0; 16];
        let (front, _) = field.split_at_mut(bytes.len());
        front.copy_from_slice(bytes);
        Some(Name {
            field,
            count: bytes.len() as u8,
        })
    }

    /// The bytes of the name.
    pub fn bytes(&self) -> &[u8]
        ensures bytes { result.now ≡ self.now }
        ensures some { 0 < length self.now }
        ensures short { length self.now ≤ LONGEST }
    {
        &self.field[..self.count as usize]
    }
}
