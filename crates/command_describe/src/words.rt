//! Words of a line, each after what comes before it.

ghost use Rattle.std.specs.Prelude.{◌≡◌, ◌++◌, OnOk};
ghost use Rattle.command_text.specs.Address.{address};
ghost use Rattle.command_describe.specs.Output.{number_at};

use command_text::address::address;
use itoa::{Buffer, Integer};
use std::alloc::AllocError;

/// Appends a word after these bytes.
pub(crate) fn put(text: &mut Vec<u8>, before: &[u8], word: &[u8]) -> Result<(), AllocError>
    ensures { OnOk result (text.new.items ≡ text.old.items ++ before.now ++ word.now) }
{
    text.extend_from_slice(before)?;
    text.extend_from_slice(word)
}

/// Appends a number after these bytes.
pub(crate) fn put_number<N: Integer>(
    text: &mut Vec<u8>,
    before: &[u8],
    number: N,
) -> Result<(), AllocError>
    ensures { OnOk result (text.new.items ≡ text.old.items ++ before.now ++ N.text number) }
{
    let mut digits = Buffer::new();
    put(text, before, digits.format(number).as_bytes())
}

/// Appends an address after these bytes.
pub(crate) fn put_address(text: &mut Vec<u8>, before: &[u8], at: u16) -> Result<(), AllocError>
    ensures { OnOk result (text.new.items ≡ text.old.items ++ before.now ++ address at) }
{
    put(text, before, &address(at))
}

/// The number at an index of its list, 0 if the list has none.
pub(crate) fn number_at(numbers: &[u16], index: u8) -> u16
    ensures { result ≡ number_at numbers.now index }
{
    match numbers.get(usize::from(index)) {
        Some(number) => *number,
        None => 0,
    }
}
