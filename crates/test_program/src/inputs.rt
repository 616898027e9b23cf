//! What the tests give to the commands: words, streams, and the lighting with a run of it.

ghost use Rattle.std.specs.Prelude.{◌≤◌};

use std::alloc::{AllocError, Global};
use sx_bulk::HEAD;
use sx_io::{MemSink, MemSource};
use sx_top::top;

/// The words of a command.
fn words(alloc: Global, text: &str) -> Result<Vec<String>, AllocError> {
    let mut words = Vec::new(alloc);
    for word in text.split_whitespace() {
        words.push(String::from_str(alloc, word)?)?;
    }
    Ok(words)
}

/// A source that gives the text in pieces, and whose call of this number, from 1, fails.
pub(crate) fn source(
    alloc: Global,
    text: &[u8],
    piece: usize,
    failing: u64,
) -> Result<MemSource, AllocError>
    requires { 1 ≤ piece }
{
    let mut bytes = Vec::new(alloc);
    bytes.extend_from_slice(text)?;
    let mut calls = Vec::new(alloc);
    calls.push(failing)?;
    Ok(MemSource::new(bytes, piece, calls))
}

/// A sink that takes this many bytes, and whose call of this number, from 1, fails.
pub(crate) fn sink(alloc: Global, capacity: usize, failing: u64) -> Result<MemSink, AllocError> {
    let mut calls = Vec::new(alloc);
    calls.push(failing)?;
    MemSink::new(alloc, capacity, calls)
}

/// Does a command, and gives its exit status. No other function calls `top`, since what that call
/// says is long, and is proved anew of each place that calls it.
fn done(alloc: Global, words: &[String], input: &mut MemSource, output: &mut MemSink) -> u8 {
    top(alloc, words, input, output).number()
}

/// How streams behave: how many bytes a read gives, which read fails, how many bytes can be written,
/// and which write fails. Calls are counted from 1.
#[derive(Clone, Copy)]
pub(crate) struct Streams {
    pub(crate) piece: usize,
    pub(crate) read: u64,
    pub(crate) room: usize,
    pub(crate) write: u64,
}

/// How a command ended: its status, what was written, and how many bytes weren't read.
#[derive(Drop)]
pub(crate) struct Run {
    pub(crate) status: u8,
    pub(crate) output: MemSink,
    pub(crate) left: usize,
}

/// Does the command of these words on an input over such streams.
pub(crate) fn ended(
    alloc: Global,
    command: &str,
    text: &[u8],
    streams: Streams,
) -> Result<Run, AllocError> {
    let mut input = source(alloc, text, streams.piece.max(1), streams.read)?;
    let mut output = sink(alloc, streams.room, streams.write)?;
    let status = done(alloc, &words(alloc, command)?, &mut input, &mut output);
    let left = input.left();
    Ok(Run {
        status,
        output,
        left,
    })
}

/// The texts one after the other.
pub(crate) fn joined(alloc: Global, parts: &[&[u8]]) -> Result<Vec<u8>, AllocError> {
    let mut text = Vec::new(alloc);
    for part in parts {
        text.extend_from_slice(part)?;
    }
    Ok(text)
}

/// Keys are asked for and given, and a sample of light switches the bulb on.
pub(crate) const SAMPLE: &[u8] = br#"load eye
load logic
load lamp
ask eye
give 0 a 0x300
call eye 1 0x300 0x400
take a 0x400 16
answer eye 0 1
give 2 a 0x300
call eye 0 0x300 0x400
ask logic
give 3 a 0x300
call logic 1 0x300 0x400
take a 0x400 16
answer logic 0 4
give 5 a 0x300
call logic 0 0x300 0x400
give 6 a 0x300
call logic 0 0x300 0x400
ask lamp
give 7 b 0x300
call lamp 1 0x300 0x400
take b 0x400 16
answer lamp 0 8
give 9 b 0x300
call lamp 0 0x300 0x400
sense light 120
call eye 3 0x300 0x400
take a 0x400 24
give 10 a 0x300
call logic 2 0x300 0x400
take a 0x400 24
give 11 b 0x300
call lamp 2 0x300 0x400
"#;

/// What the lines of the images of the lighting's modules take.
pub(crate) const IMAGES: usize = 15_908;

/// The lighting, and a schedule.
pub(crate) fn lighting(alloc: Global, schedule: &[u8]) -> Result<Vec<u8>, AllocError> {
    joined(alloc, &[HEAD.as_bytes(), b"%%\n", schedule])
}
