//! What is written of an input that isn't read to its end: which rule its deployment breaks, or why
//! it has no head. None of it takes memory.

ghost use Rattle.std.specs.Prelude.{◌≡◌, ◌+◌, ◌≤◌, ◌++◌, codes, decimal, length};
ghost use Rattle.sx_entries.specs.Text.{place_text, sort_text};
ghost use Rattle.command_head.specs.Refused.{fault_line};
ghost use Rattle.command_head.specs.Headless.{EndsHeadless};
ghost use Rattle.command_head.specs.Ends.{EndsRefused};

use command_promise::{HeadFault, Status, finish};
use command_text::text::{Text, put};
use itoa::Buffer;
use sx_deploy::{DeployError, DeployFault, Place, Sort};
use sx_io::Sink;

/// The word of a sort of entry.
fn sort_word(sort: Sort) -> &'static [u8]
    ensures word { result.now ≡ sort_text sort }
    ensures short { length result.now ≤ 10 }
{
    match sort {
        Sort::Top => b"top",
        Sort::Node => b"node",
        Sort::Device => b"device",
        Sort::Module => b"module",
        Sort::Connection => b"connection",
    }
}

/// Appends a space and a number.
fn put_number(text: &mut Text, number: u32)
    requires { length text.old.items + 11 ≤ 96 }
    ensures added { text.new.items ≡ text.old.items ++ (codes " " ++ decimal number) }
    ensures short { length text.new.items ≤ length text.old.items + 11 }
{
    let mut digits = Buffer::new();
    put(text, b" ");
    put(text, digits.format(number).as_bytes());
}

/// Appends the words of a place.
fn put_place(text: &mut Text, place: Place)
    requires { length text.old.items + 39 ≤ 96 }
    ensures added { text.new.items ≡ text.old.items ++ place_text place }
    ensures short { length text.new.items ≤ length text.old.items + 39 }
{
    match place {
        Place::Nowhere => put(text, b"-"),
        Place::Kind(sort) => put(text, sort_word(sort)),
        Place::Entry(sort, n) => {
            put(text, sort_word(sort));
            put_number(text, n);
        }
        Place::Source(n, line, column) => {
            put(text, b"module");
            put_number(text, n);
            put_number(text, line);
            put_number(text, column);
        }
        Place::Broken(n, rule) => {
            put(text, b"module");
            put_number(text, n);
            put_number(text, u32::from(rule));
        }
    }
}

/// The line of a broken rule.
#[tactic(auto, unfolding(crate::specs::Refused::fault_line))]
fn fault_line(fault: DeployFault) -> Text
    ensures { result.items ≡ fault_line fault }
{
    let mut digits = Buffer::new();
    let mut text = Text::new();
    put(&mut text, b"fault deployment D");
    put(&mut text, digits.format(fault.rule).as_bytes());
    put(&mut text, b" ");
    put_place(&mut text, fault.place);
    put(&mut text, b"\n");
    text
}

/// Writes why a text gives no deployment: which rule is broken, and where. Nothing is written if
/// memory ran out for a deployment.
pub fn refuse<K: Sink>(error: DeployError, output: &mut K) -> Status
    ensures { EndsRefused K.tells (K.at output.old) (K.at output.new) result error }
{
    match error {
        DeployError::Fault(fault) => finish(output, fault_line(fault).as_slice(), Status::Refused),
        DeployError::OutOfMemory => Status::OutOfMemory,
    }
}

/// Writes why an input has no head. Nothing is written if memory ran out for a head.
pub fn refuse_head<K: Sink>(fault: HeadFault, output: &mut K) -> Status
    ensures { EndsHeadless K.tells (K.at output.old) (K.at output.new) result fault }
{
    match fault {
        HeadFault::TooLong => finish(output, b"fault deployment D1 -\n", Status::Refused),
        HeadFault::NoMark => finish(output, b"fault deployment D2 -\n", Status::Refused),
        HeadFault::Failed => finish(output, b"fault read\n", Status::ReadFailed),
        HeadFault::OutOfMemory => Status::OutOfMemory,
    }
}
