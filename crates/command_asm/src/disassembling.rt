//! The command `dis`: it reads code in hexadecimal, and writes its listing from an address on.

ghost use Rattle.std.specs.Prelude.{◌≡◌, ◌≢◌, ◌+◌, ◌/◌, ◌%◌, ◌≤◌, ℕ, List, [], length};
ghost use Rattle.std.specs.Prelude.{false, IsTrue, MatchOption};
ghost use Rattle.hex.specs.Hex.{decode_of};
ghost use Rattle.command_promise.specs.declared.status.Status.TheVariants.{OutOfMemory};
ghost use Rattle.command_promise.specs.Told.{CommandEnds, command_at};
ghost use Rattle.command_asm.specs.Disassembling.{decoded, line_bytes, is_listed, dis_bytes};
ghost use Rattle.command_asm.specs.Disassembling.{DisPromise};
ghost use Rattle.command_asm.specs.Kept.{KeepsBytes, KeepsMore, CodeRead};

use crate::listing::list;
use arrayvec::ArrayVec;
use command_promise::{Status, finish};
use command_text::fault::finish_fault;
use sx_io::{LONGEST, LineRead, Lines, Sink, Source};

/// An input has at most this many lines, blank ones counted.
const MOST_LINES: u32 = 65_536;

/// The most bytes that are listed.
const MOST_CODE: usize = 8192;

/// The most bytes that a line writes.
const LINE_CODE: usize = LONGEST / 2;

/// How the reading of an input ended: at its end, at the line of this number, which breaks the rule
/// of lines, or at a read that failed.
#[derive(Clone, Copy)]
enum Reading {
    AtEnd,
    BadLine(u32),
    Failed,
}

/// The bytes that have come, while they aren't too many to be listed. Then no more are kept, since
/// the input breaks a rule whatever else is in it.
#[derive(Drop)]
struct Code {
    kept: ArrayVec<u8, MOST_CODE>,
    is_over: bool,
}

impl Code {
    fn new() -> Code
        ensures { KeepsBytes result [] }
    {
        Code {
            kept: ArrayVec::new(),
            is_over: false,
        }
    }

    /// Keeps the bytes of a line after those before it.
    fn push(&mut self, bytes: &[u8])
        ensures { KeepsMore self.old self.new bytes.now }
    {
        if self.is_over {
            return;
        }
        match self.kept.try_extend_from_slice(bytes) {
            Ok(()) => {}
            Err(_) => self.is_over = true,
        }
    }

    /// Whether all bytes that have come can be listed from this address on.
    fn is_listed(&self, at: u16) -> bool
        ensures listed { (bytes : List ℕ) → KeepsBytes self.now bytes
            → result ≡ is_listed at (length bytes) }
        ensures all { IsTrue result → self.now.is_over ≡ false }
        ensures even { IsTrue result → length self.now.kept.items % 2 ≡ 0 }
        ensures fits { IsTrue result → at + length self.now.kept.items ≤ 65536 }
    {
        !self.is_over && is_listed(at, self.kept.len())
    }
}

/// Writes the bytes of a hexadecimal text into a place of half its length, and says whether the
/// text is one.
fn decode(text: &[u8], into: &mut [u8]) -> bool
    requires { length into.old ≡ length text.now / 2 }
    ensures { MatchOption (decoded (decode_of text.now)) (result ≡ false)
        (λ bytes. IsTrue result × (into.new ≡ bytes)) }
{
    match hex::decode_to_slice(text, into) {
        Ok(()) => true,
        Err(_) => false,
    }
}

/// Keeps the bytes of the line of this number, and says whether the line keeps the rule of lines.
fn take_line(code: &mut Code, number: u32, text: &[u8]) -> bool
    requires { length text.now ≤ 4096 }
    ensures taken { IsTrue result → (bytes : List ℕ) × (line_bytes number text.now ≡ Some bytes)
        × KeepsMore code.old code.new bytes }
    ensures few { IsTrue result → number ≤ MOST_LINES }
    ensures bad { result ≡ false → line_bytes number text.now ≡ None }
{
    if number > MOST_LINES {
        return false;
    }
    let mut into = [0; LINE_CODE];
    let bytes = &mut into[..text.len() / 2];
    if !decode(text, bytes) {
        return false;
    }
    code.push(bytes);
    true
}

/// Reads all lines, or those up to the first that breaks the rule of lines, and keeps their bytes.
fn read_code<S: Source>(input: &mut S, code: &mut Code) -> Reading
    requires { KeepsBytes code.old [] }
    ensures { CodeRead S.tells (S.at input.old) (S.at input.new) code.new result }
{
    let mut lines = Lines::new();
    let mut into = [0; LONGEST];
    let mut number: u32 = 1;
    'lines: loop {
        match lines.next(input, &mut into) {
            LineRead::End => return Reading::AtEnd,
            LineRead::TooLong => return Reading::BadLine(number),
            LineRead::Failed => return Reading::Failed,
            LineRead::Text(n) => {
                if !take_line(code, number, &into[..n]) {
                    return Reading::BadLine(number);
                }
                number += 1;
            }
        }
    }
}

/// Whether this many bytes can be listed from this address on.
fn is_listed(at: u16, count: usize) -> bool
    requires { count ≤ MOST_CODE }
    ensures value { result ≡ is_listed at count }
    ensures even { IsTrue result → count % 2 ≡ 0 }
    ensures fits { IsTrue result → at + count ≤ 65536 }
{
    count % 2 == 0 && at % 2 == 0 && usize::from(at) + count <= 65_536
}

/// Writes the listing of all bytes that have come, or that they can't be listed. It takes no
/// memory.
#[tactic(auto, unfolding(crate::specs::Disassembling::unlisted_line))]
fn tell<K: Sink>(at: u16, code: &Code, output: &mut K) -> Status
    ensures told { (bytes : List ℕ) → KeepsBytes code.now bytes
        → CommandEnds K.tells (K.at output.old) (K.at output.new) result (dis_bytes at bytes) }
    ensures memory { result ≢ OutOfMemory }
{
    if !code.is_listed(at) {
        return finish(output, b"fault hex B2 -\n", Status::NoCode);
    }
    list(output, at, &code.kept)
}

/// The command `dis`: lines of hexadecimal digits, whole bytes in each. It writes the listing of
/// all their bytes from the address on, and `end`; or one line, which names the first rule that the
/// input breaks. Gives the exit status. It takes no memory.
pub fn dis_over<S: Source, K: Sink>(at: u16, input: &mut S, output: &mut K) -> Status
    ensures { DisPromise at S.tells K.tells
        (command_at (S.at input.old) (K.at output.old))
        (command_at (S.at input.new) (K.at output.new))
        result }
{
    let mut code = Code::new();
    match read_code(input, &mut code) {
        Reading::AtEnd => tell(at, &code, output),
        Reading::BadLine(number) => finish_fault(output, b"fault hex B", 1, number, Status::NoCode),
        Reading::Failed => finish(output, b"fault read\n", Status::ReadFailed),
    }
}
