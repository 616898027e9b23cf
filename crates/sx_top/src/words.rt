//! The command that the words of a command line name.

ghost use Rattle.std.specs.Prelude.{◌≡◌, ◌≤◌, IfSome, map, string_bytes};
ghost use Rattle.sx_top.specs.Commands.{command_of, plain_command, numbered_command};
ghost use Rattle.sx_top.specs.Commands.{address_in, samples_in};
ghost use Rattle.sx_top.specs.Chosen.{CarriesFew};

use sx_bulk::MOST_SAMPLES;
use sx_io::number;

/// A command of the program.
#[derive(Clone, Copy, Debug, PartialEq, Eq)]
pub(crate) enum Command {
    Run,
    Check,
    Explain,
    /// Which item of a trace is the first that breaks a property.
    Watch,
    /// The honest run of readings.
    Drive,
    /// Answers about a run after any of its lines.
    Snap,
    /// Whether a property is broken in no run.
    Holds,
    /// A run, with each line of its schedule before the items that it gave.
    Lines,
    /// What a deployment was read as.
    Describe,
    /// Many runs that begin with the same lines.
    Batch,
    /// The run of the workload that carries this many samples.
    Gen(u32),
    /// The listing of a text's code for this address.
    Asm(u16),
    /// The listing of code that is at this address.
    Dis(u16),
}

/// The command of one word.
fn plain_command(word: &[u8]) -> Option<Command>
    ensures command { result ≡ plain_command word.now }
    ensures few { CarriesFew result }
{
    if word == b"run".as_slice() {
        Some(Command::Run)
    } else if word == b"check".as_slice() {
        Some(Command::Check)
    } else if word == b"explain".as_slice() {
        Some(Command::Explain)
    } else if word == b"watch".as_slice() {
        Some(Command::Watch)
    } else if word == b"drive".as_slice() {
        Some(Command::Drive)
    } else if word == b"snap".as_slice() {
        Some(Command::Snap)
    } else if word == b"holds".as_slice() {
        Some(Command::Holds)
    } else if word == b"lines".as_slice() {
        Some(Command::Lines)
    } else if word == b"describe".as_slice() {
        Some(Command::Describe)
    } else if word == b"batch".as_slice() {
        Some(Command::Batch)
    } else {
        None
    }
}

/// An address from 0 to 65,535.
fn address_in(word: &[u8]) -> Option<u16>
    ensures { result ≡ address_in word.now }
{
    let at = number(word, 65_535)?;
    Some(at as u16)
}

/// A number of samples, from 1 to 8,000.
pub(crate) fn samples_in(word: &[u8]) -> Option<u32>
    ensures samples { result ≡ samples_in word.now }
    ensures few { IfSome result (λ n. n ≤ MOST_SAMPLES) }
{
    match number(word, u64::from(MOST_SAMPLES)) {
        Some(0) | None => None,
        Some(samples) => Some(samples as u32),
    }
}

/// The command of a word and a number.
fn numbered_command(word: &[u8], number: &[u8]) -> Option<Command>
    ensures command { result ≡ numbered_command word.now number.now }
    ensures few { CarriesFew result }
{
    if word == b"gen".as_slice() {
        Some(Command::Gen(samples_in(number)?))
    } else if word == b"asm".as_slice() {
        Some(Command::Asm(address_in(number)?))
    } else if word == b"dis".as_slice() {
        Some(Command::Dis(address_in(number)?))
    } else {
        None
    }
}

/// The command that these words name.
pub(crate) fn command_of(words: &[String]) -> Option<Command>
    ensures command { result ≡ command_of (map string_bytes words.now) }
    ensures few { CarriesFew result }
{
    match words {
        [word] => plain_command(word.as_bytes()),
        [word, number] => numbered_command(word.as_bytes(), number.as_bytes()),
        _ => None,
    }
}
