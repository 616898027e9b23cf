//! The lines of an input before its first line `%%`.

ghost use Rattle.std.specs.Prelude.{◌≡◌, ◌+◌, ◌∷◌, ◌++◌, ◌≤◌, [], length, nat_lt, OnOk, IsTrue};
ghost use Rattle.std.specs.Prelude.{false};
ghost use Rattle.sx_io.specs.Reading.{newline};
ghost use Rattle.command_promise.specs.Head.{is_mark, most_bytes};
ghost use Rattle.command_promise.specs.HeadRead.{HeadRead, TextRead, seen_text};

use std::alloc::{AllocError, Global};
use sx_io::{LineRead, Lines, ReaderState, Source};

/// Why an input has no head.
#[derive(Clone, Copy, Debug, PartialEq, Eq)]
pub enum HeadFault {
    /// More than 262,144 bytes come before the mark, each line counted with one newline; or a line
    /// there has more than 4,096.
    TooLong,
    /// There is no line `%%`.
    NoMark,
    /// A read failed before the mark was whole.
    Failed,
    /// Memory ran out.
    OutOfMemory,
}

/// The most bytes of a head.
const MOST_BYTES: usize = 262_144;

/// Whether it is the line `%%`, which ends a head.
pub fn is_mark(text: &[u8]) -> bool
    ensures { result ≡ is_mark text.now }
{
    text == b"%%".as_slice()
}

/// Whether a head of this many bytes would be too long with this line.
fn passes(count: usize, line: &[u8]) -> bool
    requires { count ≤ MOST_BYTES }
    ensures value { result ≡ nat_lt most_bytes (count + length line.now + 1) }
    ensures fits { result ≡ false → count + length line.now + 1 ≤ MOST_BYTES }
{
    line.len() >= MOST_BYTES - count
}

/// Appends a line and its newline.
fn push_line(text: &mut Vec<u8>, line: &[u8]) -> Result<(), AllocError>
    ensures { OnOk result (text.new.items ≡ text.old.items ++ line.now ++ newline ∷ []) }
{
    text.extend_from_slice(line)?;
    text.push(b'\n')?;
    Ok(())
}

/// Appends a line, unless memory ran out for it or for one before it, and says whether it was
/// appended.
fn keep_line(text: &mut Vec<u8>, is_kept: bool, line: &[u8]) -> bool
    ensures { IsTrue result → IsTrue is_kept × (text.new.items
        ≡ text.old.items ++ line.now ++ newline ∷ []) }
{
    if !is_kept {
        return false;
    }
    match push_line(text, line) {
        Ok(()) => true,
        Err(_) => false,
    }
}

/// The bytes before the next line `%%`, each line with one newline. `TooLong` exactly if the
/// bytes that were taken are too many or hold a line that is too long, `NoMark` exactly if no
/// read failed and there is no mark, `Failed` only if the source's count of faults rose.
/// `OutOfMemory` comes only if the text is whole.
pub fn read_text<S: Source>(
    alloc: Global,
    lines: &mut Lines,
    source: &mut S,
) -> Result<Vec<u8>, HeadFault>
    // at the beginning of the input
    ensures first { lines.old ≡ record { held = []; state = ReaderState.Open }
        → HeadRead S.tells (S.at source.old) (S.at source.new) lines.new
        (seen_text (λ text. text.items) result) }
    // wherever a call has come
    ensures further { TextRead S.tells (S.at source.old) (S.at source.new) lines.old lines.new
        (seen_text (λ text. text.items) result) }
{
    let mut text = Vec::new(alloc);
    let mut is_kept = true;
    let mut count = 0;
    let mut into = [0; 4096];
    'lines: loop {
        match lines.next(source, &mut into) {
            LineRead::End => return Err(HeadFault::NoMark),
            LineRead::TooLong => return Err(HeadFault::TooLong),
            LineRead::Failed => return Err(HeadFault::Failed),
            LineRead::Text(n) => {
                let line = &into[..n];
                if is_mark(line) {
                    if is_kept {
                        return Ok(text);
                    }
                    return Err(HeadFault::OutOfMemory);
                }
                if passes(count, line) {
                    return Err(HeadFault::TooLong);
                }
                count += line.len() + 1;
                is_kept = keep_line(&mut text, is_kept, line);
            }
        }
    }
}

/// The bytes before the first line `%%`, as `read_text` gives them at the beginning of the input.
pub fn read_head<S: Source>(
    alloc: Global,
    lines: &mut Lines,
    source: &mut S,
) -> Result<Vec<u8>, HeadFault>
    requires { lines.old ≡ record { held = []; state = ReaderState.Open } }
    ensures { HeadRead S.tells (S.at source.old) (S.at source.new) lines.new
        (seen_text (λ text. text.items) result) }
{
    read_text(alloc, lines, source)
}
