//! The words that properties have beside the language's own.

ghost use Rattle.std.specs.Prelude.{◌≡◌};
ghost use Rattle.sx_watch.specs.Words.{ended, input_name};
ghost use Rattle.sx_watch.specs.Parts.{has_no_value, is_assume, is_fail, is_left_out, kind_of};
ghost use Rattle.sx_watch.specs.Parts.{unnamed};

use crate::topics::TopicKind;
use sx_lang::names::Name;
use sx_lex::tokens::Kind;

/// What a handler hears of whose head has this word.
pub(crate) fn kind_of(word: &[u8]) -> Option<TopicKind>
    ensures { result ≡ kind_of word.now }
{
    if word == b"sense".as_slice() {
        Some(TopicKind::Sense)
    } else if word == b"read".as_slice() {
        Some(TopicKind::Read)
    } else if word == b"take".as_slice() {
        Some(TopicKind::Take)
    } else if word == b"out".as_slice() {
        Some(TopicKind::Out)
    } else if word == b"raw".as_slice() {
        Some(TopicKind::Raw)
    } else if word == b"drain".as_slice() {
        Some(TopicKind::Drain)
    } else if word == b"reset".as_slice() {
        Some(TopicKind::Reset)
    } else if word == b"protect".as_slice() {
        Some(TopicKind::Protect)
    } else if word == b"attested".as_slice() {
        Some(TopicKind::Attested)
    } else {
        None
    }
}

/// Whether items of this kind have no value.
pub(crate) fn has_no_value(kind: TopicKind) -> bool
    ensures { result ≡ has_no_value kind }
{
    match kind {
        TopicKind::Drain | TopicKind::Reset | TopicKind::Protect | TopicKind::Attested => true,
        _ => false,
    }
}

/// Whether a name is the statement that breaks the property.
pub(crate) fn is_fail(word: &Name) -> bool
    ensures { result ≡ is_fail word.now }
{
    word.bytes() == b"fail".as_slice()
}

/// Whether a name begins an assumption.
pub(crate) fn is_assume(word: &Name) -> bool
    ensures { result ≡ is_assume word.now }
{
    word.bytes() == b"assume".as_slice()
}

/// Whether properties lack this word of the language.
pub(crate) fn is_left_out(kind: &Kind) -> bool
    ensures { result ≡ is_left_out kind.now }
{
    match kind {
        Kind::Sensor | Kind::Actuator | Kind::Input | Kind::Output => true,
        Kind::Sample | Kind::Send | Kind::Emit => true,
        _ => false,
    }
}

/// The name of the variable that is 1 once an assumption failed. No text spells it.
pub(crate) fn ended() -> Name
    ensures { result ≡ ended }
{
    Name::new(b"!ended").unwrap()
}

/// The name of the parameter of a handler that has none. No text spells it.
pub(crate) fn unnamed() -> Name
    ensures { result ≡ unnamed }
{
    Name::new(b"_").unwrap()
}

/// The name of the input of the head of this number. No text spells it, and no deployment has items
/// for more than 255 heads.
pub(crate) fn input_name(number: usize) -> Name
    ensures { result ≡ input_name number }
{
    Name::new(&[b'#', number.min(255) as u8]).unwrap()
}
