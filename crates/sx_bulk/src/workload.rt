//! The lines of the workload, each made from its number.

ghost use Rattle.std.specs.Prelude.{◌≡◌, ◌+◌, ◌*◌, ◌<◌, ◌≤◌, ◌++◌, decimal, drop, length};
ghost use Rattle.sx_bulk.specs.Bulk.{event, line, line_at, lines, setup};

use arrayvec::ArrayVec;
use itoa::Buffer;

/// The most samples that a workload carries.
pub const MOST_SAMPLES: u32 = 8_000;

/// The text of a line.
type Text = ArrayVec<u8, 64>;

/// Appends a part that there is room for.
fn put(text: &mut Text, part: &[u8])
    requires { length text.old.items + length part.now ≤ 64 }
    ensures { text.new.items ≡ text.old.items ++ part.now }
{
    match text.try_extend_from_slice(part) {
        Ok(()) => (),
        Err(_) => unreachable!(),
    }
}

/// A text of one part.
fn plain(part: &[u8]) -> Text
    requires { length part.now ≤ 64 }
    ensures { result.items ≡ part.now }
{
    let mut text = Text::new();
    put(&mut text, part);
    text
}

/// A text with a number in it.
fn numbered(before: &[u8], number: u32, behind: &[u8]) -> Text
    requires before { length before.now ≤ 12 }
    requires behind { length behind.now ≤ 12 }
    ensures { result.items ≡ before.now ++ decimal number ++ behind.now }
{
    let mut digits = Buffer::new();
    let mut text = plain(before);
    put(&mut text, digits.format(number).as_bytes());
    put(&mut text, behind);
    text
}

/// A line that loads a module or gives it keys.
#[tactic(auto, unfolding(crate::specs::Bulk::setup))]
fn setup_text(i: u32) -> &'static [u8]
    requires { i < 26 }
    ensures text { result.now ≡ line_at setup i }
    ensures short { length result.now ≤ 32 }
{
    match i {
        0 => b"load eye",
        1 => b"load logic",
        2 => b"load lamp",
        3 => b"ask eye",
        4 => b"give 0 a 0x300",
        5 => b"call eye 1 0x300 0x400",
        6 => b"take a 0x400 16",
        7 => b"answer eye 0 1",
        8 => b"give 2 a 0x300",
        9 => b"call eye 0 0x300 0x400",
        10 => b"ask logic",
        11 => b"give 3 a 0x300",
        12 => b"call logic 1 0x300 0x400",
        13 => b"take a 0x400 16",
        14 => b"answer logic 0 4",
        15 => b"give 5 a 0x300",
        16 => b"call logic 0 0x300 0x400",
        17 => b"give 6 a 0x300",
        18 => b"call logic 0 0x300 0x400",
        19 => b"ask lamp",
        20 => b"give 7 b 0x300",
        21 => b"call lamp 1 0x300 0x400",
        22 => b"take b 0x400 16",
        23 => b"answer lamp 0 8",
        24 => b"give 9 b 0x300",
        25 => b"call lamp 0 0x300 0x400",
        _ => unreachable!(),
    }
}

/// One of the eight lines that carry a sample.
#[tactic(auto, unfolding(crate::specs::Bulk::event))]
fn event_line(sample: u32, k: u32) -> Text
    requires sample { sample < MOST_SAMPLES }
    requires within { k < 8 }
    ensures { result.items ≡ line_at (event sample) k }
{
    match k {
        0 => numbered(b"sense light ", 37 * sample % 200, b""),
        1 => plain(b"call eye 3 0x300 0x400"),
        2 | 5 => plain(b"take a 0x400 24"),
        3 => numbered(b"give ", 10 + 2 * sample, b" a 0x300"),
        4 => plain(b"call logic 2 0x300 0x400"),
        6 => numbered(b"give ", 11 + 2 * sample, b" b 0x300"),
        7 => plain(b"call lamp 2 0x300 0x400"),
        _ => unreachable!(),
    }
}

/// The text of the line of this number.
#[tactic(auto, unfolding(crate::specs::Bulk::line))]
fn line_text(i: u32) -> Text
    requires { i < lines MOST_SAMPLES }
    ensures { result.items ≡ line i }
{
    if i < 26 {
        plain(setup_text(i))
    } else {
        event_line((i - 26) / 8, (i - 26) % 8)
    }
}

/// How many lines carry n samples.
pub fn lines(n: u32) -> u32
    requires { n ≤ MOST_SAMPLES }
    ensures { result ≡ lines n }
{
    26 + 8 * n
}

/// Writes the i-th line of those that carry n samples, counted from 0, without its newline, at the
/// start of the buffer, and answers how many bytes it has. The bytes after it stay. A line is the
/// same for every n that has it.
pub fn line(n: u32, i: u32, into: &mut [u8; 64]) -> usize
    requires few { n ≤ MOST_SAMPLES }
    requires within { i < lines n }
    ensures bytes { into.new ≡ line i ++ drop result into.old }
    ensures count { result ≡ length (line i) }
{
    let text = line_text(i);
    into[..text.len()].copy_from_slice(&text);
    text.len()
}
