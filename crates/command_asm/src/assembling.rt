//! The command `asm`: it reads a text, and lists its code or says which rule it breaks.

ghost use Rattle.std.specs.Prelude.{◌≡◌, ◌+◌, ◌≤◌, ◌==◌, if◌then◌else◌, length, nat_lt, false};
ghost use Rattle.std.specs.Prelude.{OnOk};
ghost use Rattle.command_promise.specs.Told.{CommandEnds, Told, command_at};
ghost use Rattle.command_promise.specs.Reads.{anything};
ghost use Rattle.sx_asm.specs.Answers.{AnswersMeant};
ghost use Rattle.command_asm.specs.Assembling.{AsmPromise, asm_all, asm_lines, broken_at, code_at};
ghost use Rattle.command_asm.specs.Assembling.{most_bytes, told_code, with_line};
ghost use Rattle.command_asm.specs.Gathering.{Gathers, gathered_bytes};

use crate::listing::list;
use command_promise::{Status, finish};
use command_text::fault::finish_fault;
use std::alloc::{AllocError, Global};
use std::str;
use sx_asm::{AsmError, assemble};
use sx_io::{LineRead, Lines, Sink, Source};

/// The most bytes of a text, each line counted with one newline.
const MOST_BYTES: usize = 262_144;

/// What was read of a text.
#[derive(Drop)]
struct GatheredText {
    /// The lines before the first one that breaks rule 1 by its length or by bytes that aren't
    /// UTF-8, each with one newline.
    text: String,
    /// The number of that line, from 1.
    bad: Option<u32>,
}

/// Why nothing was read.
enum GatherFault {
    /// A read failed.
    Failed,
    OutOfMemory,
}

impl From<AllocError> for GatherFault {
    ghost use Rattle.command_asm.specs.declared.assembling.GatherFault.TheVariants.{OutOfMemory};

    ghost from_gives = { λ _ e. e ≡ OutOfMemory };

    fn from(_error: AllocError) -> Self {
        GatherFault::OutOfMemory
    }
}

/// Whether a text of this many bytes would be too long with this line.
fn passes(count: usize, line: &[u8]) -> bool
    requires { count ≤ MOST_BYTES }
    ensures value { result ≡ nat_lt most_bytes (count + (length line.now + 1)) }
    ensures fits { result ≡ false → count + (length line.now + 1) ≤ MOST_BYTES }
{
    line.len() >= MOST_BYTES - count
}

/// Appends a line, unless one that breaks rule 1 has come.
fn add_line(gathered: &mut GatheredText, number: u32, line: &[u8]) -> Result<(), AllocError>
    ensures { OnOk result (gathered_bytes gathered.new
        ≡ with_line number line.now (gathered_bytes gathered.old)) }
{
    if gathered.bad.is_some() {
        return Ok(());
    }
    match str::from_utf8(line) {
        Ok(line) => {
            gathered.text.push_str(line)?;
            gathered.text.push_str("\n")?;
            Ok(())
        }
        Err(_) => {
            gathered.bad = Some(number);
            Ok(())
        }
    }
}

/// A line breaks rule 1, unless one before it does.
fn break_at(gathered: GatheredText, number: u32) -> GatheredText
    ensures { gathered_bytes result ≡ broken_at number (gathered_bytes gathered) }
{
    GatheredText {
        text: gathered.text,
        bad: gathered.bad.or(Some(number)),
    }
}

/// Reads a text to its end, or to the first line that passes a limit.
fn gather<S: Source>(alloc: Global, source: &mut S) -> Result<GatheredText, GatherFault>
    ensures { Gathers S.tells (S.at source.old) (S.at source.new) result }
{
    let mut lines = Lines::new();
    let mut into = [0; 4096];
    let mut gathered = GatheredText {
        text: String::new(alloc),
        bad: None,
    };
    let mut count = 0;
    let mut number: u32 = 1;
    'lines: loop {
        match lines.next(source, &mut into) {
            LineRead::End => return Ok(gathered),
            LineRead::TooLong => return Ok(break_at(gathered, number)),
            LineRead::Failed => return Err(GatherFault::Failed),
            LineRead::Text(n) => {
                let line = &into[..n];
                if passes(count, line) {
                    return Ok(break_at(gathered, number));
                }
                add_line(&mut gathered, number, line)?;
                count += line.len() + 1;
                number += 1;
            }
        }
    }
}

/// The first line that breaks rule 1: this one if this rule is the one it breaks, else the one that
/// was found before.
fn first_bad(bad: u32, rule: u8, line: u32) -> u32
    ensures { result ≡ (if rule == 1 then line else bad) }
{
    if rule == 1 { line } else { bad }
}

/// The code of what was read, or the first rule that it breaks.
fn code_at(alloc: Global, at: u16, gathered: &GatheredText) -> Result<Vec<u8>, AsmError>
    ensures { AnswersMeant (λ code. code.items) (code_at at (gathered_bytes gathered.now)) result }
{
    let code = assemble(alloc, at, gathered.text.as_str());
    let Some(bad) = gathered.bad else {
        return code;
    };
    match code {
        Ok(_) => Err(AsmError::Fault { rule: 1, line: bad }),
        Err(AsmError::Fault { rule, line }) => Err(AsmError::Fault {
            rule: 1,
            line: first_bad(bad, rule, line),
        }),
        Err(AsmError::OutOfMemory) => Err(AsmError::OutOfMemory),
    }
}

/// Lists the code of what was read, or writes which rule it breaks.
fn tell_code<K: Sink>(alloc: Global, at: u16, gathered: &GatheredText, output: &mut K) -> Status
    ensures { CommandEnds K.tells (K.at output.old) (K.at output.new) result
        (told_code at (code_at at (gathered_bytes gathered.now))) }
{
    match code_at(alloc, at, gathered) {
        Ok(code) => list(output, at, &code),
        Err(AsmError::Fault { rule, line }) => {
            finish_fault(output, b"fault asm A", rule, line, Status::NoCode)
        }
        Err(AsmError::OutOfMemory) => Status::OutOfMemory,
    }
}

/// What the command `asm` writes is that of the text that it read.
fn asm_told<S: Source, K: Sink>(alloc: Global, at: u16, input: &mut S, output: &mut K) -> Status
    ensures { Told S.tells K.tells asm_lines
        (command_at (S.at input.old) (K.at output.old))
        (command_at (S.at input.new) (K.at output.new))
        result (asm_all at) anything }
{
    match gather(alloc, input) {
        Ok(gathered) => tell_code(alloc, at, &gathered, output),
        Err(GatherFault::Failed) => finish(output, b"fault read\n", Status::ReadFailed),
        Err(GatherFault::OutOfMemory) => Status::OutOfMemory,
    }
}

/// The command `asm`: the listing of the code that a text has at an address, and `end`; or the
/// first of five rules that the text breaks, and the first line that breaks it. Gives the exit
/// status. The input is read to its end before it is judged, or to a line or a byte that passes a
/// limit.
pub fn asm_over<S: Source, K: Sink>(alloc: Global, at: u16, input: &mut S, output: &mut K) -> Status
    ensures { AsmPromise at S.tells K.tells
        (command_at (S.at input.old) (K.at output.old))
        (command_at (S.at input.new) (K.at output.new))
        result }
{
    asm_told(alloc, at, input, output)
}
