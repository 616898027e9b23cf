//! What is written of a property that breaks a rule. None of it takes memory.

ghost use Rattle.std.specs.Prelude.{◌≡◌, ◌+◌, ◌≤◌, ◌++◌, length};
ghost use Rattle.command_promise.specs.declared.status.Status.TheVariants.{OutOfMemory};
ghost use Rattle.command_promise.specs.Told.{CommandEnds};
ghost use Rattle.sx_deploy.specs.Checks.{number};
ghost use Rattle.command_property.specs.Refused.{fault_words, no_property_output, place_words};
ghost use Rattle.command_property.specs.Refused.{property_line, refused_output};

use command_promise::{Status, finish};
use command_text::text::{Text, put};
use itoa::Buffer;
use sx_check::rules::Rule;
use sx_io::Sink;
use sx_lex::tokens::Place;
use sx_watch::reading::PropertyFault;

/// The number under which a rule of the language is printed.
fn number(rule: Rule) -> u8
    ensures { result ≡ number rule }
{
    match rule {
        Rule::Duplicate => 1,
        Rule::Unknown => 2,
        Rule::Kind => 3,
        Rule::Depth => 4,
        Rule::Locals => 5,
        Rule::Repeat => 6,
        Rule::Packets => 7,
        Rule::Cost => 8,
        Rule::Nodes => 9,
        Rule::Cells => 10,
    }
}

/// Appends a line's number and a column's.
fn put_place(text: &mut Text, place: Place)
    requires { length text.old.items + 21 ≤ 96 }
    ensures added { text.new.items ≡ text.old.items ++ place_words place }
    ensures short { length text.new.items ≤ length text.old.items + 21 }
{
    let mut digits = Buffer::new();
    put(text, digits.format(place.line).as_bytes());
    put(text, b" ");
    put(text, digits.format(place.column).as_bytes());
}

/// Appends the number of a rule, and where it is broken.
fn put_fault(text: &mut Text, fault: PropertyFault)
    requires { length text.old.items + 23 ≤ 96 }
    ensures added { text.new.items ≡ text.old.items ++ fault_words fault }
    ensures short { length text.new.items ≤ length text.old.items + 23 }
{
    match fault {
        PropertyFault::Syntax(place) => {
            put(text, b"2 ");
            put_place(text, place);
        }
        PropertyFault::Unknown(place) => {
            put(text, b"3 ");
            put_place(text, place);
        }
        PropertyFault::Twice(place) => {
            put(text, b"4 ");
            put_place(text, place);
        }
        PropertyFault::Language(rule) => {
            let mut digits = Buffer::new();
            put(text, b"5 ");
            put(text, digits.format(number(rule)).as_bytes());
        }
    }
}

/// The line of a broken rule.
#[tactic(auto, unfolding(crate::specs::Refused::property_line))]
fn fault_line(fault: PropertyFault) -> Text
    ensures { result.items ≡ property_line (fault_words fault) }
{
    let mut text = Text::new();
    put(&mut text, b"fault property P");
    put_fault(&mut text, fault);
    put(&mut text, b"\n");
    text
}

/// Writes which rule a property breaks, and where.
pub fn refuse_property<K: Sink>(fault: PropertyFault, output: &mut K) -> Status
    ensures ends { CommandEnds K.tells (K.at output.old) (K.at output.new) result
        (refused_output (fault_words fault)) }
    ensures memory { result ≡ OutOfMemory → ⊥ }
{
    finish(output, fault_line(fault).as_slice(), Status::NoProperty)
}

/// Writes that no line `%%` ends the property, or that it is too long.
pub fn refuse_no_property<K: Sink>(output: &mut K) -> Status
    ensures ends { CommandEnds K.tells (K.at output.old) (K.at output.new) result
        no_property_output }
    ensures memory { result ≡ OutOfMemory → ⊥ }
{
    finish(output, b"fault property P1 -\n", Status::NoProperty)
}
