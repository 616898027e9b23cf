//! A guess where a name is in its list, by the name's ends and length. The name that is
//! there confirms it, so nothing is promised of a guess.

ghost use Rattle.std.specs.Prelude.{◌≡◌, ◌<◌, length, true, IfSome};
ghost use Rattle.std.specs.Str.{bytes_eq};
ghost use Rattle.sx_trace.specs.Items.{name_at};

use sx_lang::names::Name;

/// The place to look at first, for each group of names.
pub(crate) type Guesses = [u8; 64];

/// The group of a name.
fn group(name: &[u8]) -> usize
    ensures { result < 64 }
{
    match (name.first(), name.last()) {
        (Some(first), Some(last)) => {
            (usize::from(*first) + 8 * usize::from(*last) + name.len() % 64) % 64
        }
        _ => 0,
    }
}

/// For each group the place of the last name that is of it, among the first 64.
pub(crate) fn guesses_of(names: &[Name]) -> Guesses {
    let mut guesses = [0; 64];
    for place in 0..names.len().min(64) {
        guesses[group(names[place].bytes())] = place as u8;
    }
    guesses
}

/// Whether this name is at this place.
fn is_at(names: &[Name], place: u8, text: &[u8]) -> bool
    ensures within { result ≡ true → place < length names.now }
    ensures named { result ≡ true → bytes_eq (name_at names.now place) text.now ≡ true }
{
    match names.get(usize::from(place)) {
        Some(name) => name.bytes() == text,
        None => false,
    }
}

/// Where a name is, if the guess is right.
pub(crate) fn guessed(names: &[Name], guesses: &Guesses, text: &[u8]) -> Option<u8>
    ensures within { IfSome result (λ place. place < length names.now) }
    ensures named { IfSome result (λ place. bytes_eq (name_at names.now place) text.now ≡ true) }
{
    let place = guesses[group(text)];
    if is_at(names, place, text) {
        Some(place)
    } else {
        None
    }
}
