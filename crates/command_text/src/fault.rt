//! The last line of a command that names a rule and the line that breaks it.

ghost use Rattle.std.specs.Prelude.{◌≡◌, ◌∷◌, [], ◌++◌, codes, decimal};
ghost use Rattle.command_promise.specs.declared.status.Status.TheVariants.{WriteFailed};
ghost use Rattle.command_promise.specs.Told.{CommandEnds};
ghost use Rattle.command_text.specs.Refusals.{fault_output};

use crate::text::{Text, put};
use command_promise::{Status, finish};
use itoa::Buffer;
use sx_io::{Sink, put_all};

/// What a fault's line ends with: a rule's number, a space, a line's number and the newline.
fn places(rule: u8, number: u32) -> Text
    ensures { result.items ≡ decimal rule ++ codes " " ++ decimal number ++ 10 ∷ [] }
{
    let mut digits = Buffer::new();
    let mut text = Text::new();
    put(&mut text, digits.format(rule).as_bytes());
    put(&mut text, b" ");
    put(&mut text, digits.format(number).as_bytes());
    put(&mut text, b"\n");
    text
}

/// Ends a command with the line of a fault: these words, a rule's number, a space and a line's
/// number.
pub fn finish_fault<K: Sink>(
    output: &mut K,
    words: &[u8],
    rule: u8,
    number: u32,
    status: Status,
) -> Status
    requires { status ≡ WriteFailed → ⊥ }
    ensures ends { CommandEnds K.tells (K.at output.old) (K.at output.new) result
        (fault_output words.now rule number status) }
    ensures status { (result ≡ WriteFailed → ⊥) → result ≡ status }
{
    match put_all(output, words) {
        Ok(()) => finish(output, places(rule, number).as_slice(), status),
        Err(_) => Status::WriteFailed,
    }
}
