//! What one word of a line says, and what a text does.

ghost use Rattle.std.specs.Prelude.{◌≡◌, ◌≤◌, ◌<◌, map, nat_le, ◌&&◌, Ok, Err, Some};
ghost use Rattle.std.specs.Prelude.{None, IsTrue, IfOk, IfErr};
ghost use Rattle.std.specs.List.{list_all};
ghost use Rattle.hex.specs.Hex.{is_hex_digit};
ghost use Rattle.sx_sched.specs.HexText.{is_hex_text};
ghost use Rattle.sx_trace.specs.ValidNames.{are_valid};
ghost use Rattle.sx_asm.specs.Entries.{entry_of};
ghost use Rattle.sx_sched.specs.Reading.{node_of, sensor_of, module_of};
ghost use Rattle.sx_sched.specs.Answers.{IsBrokenRule, AreSaid, MayWant, Answers};
ghost use Rattle.sx_sched.specs.Reading.{register_in, register_of, number_in, number16, number32};
ghost use Rattle.sx_sched.specs.Reading.{bytes_of, code_in, code_of};
ghost use Rattle.sx_asm.specs.Assembled.{assembled};

use crate::lines::{LineError, NO_BYTES, NO_CODE, NO_NAME, NO_NUMBER};
use hex::FromHexError;
use std::alloc::Global;
use std::str;
use sx_asm::{AsmError, assemble};
use sx_io::number;
use sx_trace::names::Names;

/// The names of the registers, and their numbers.
const REGISTERS: [(&[u8], u8); 18] = [
    (b"pc", 0),
    (b"sp", 1),
    (b"sr", 2),
    (b"r0", 0),
    (b"r1", 1),
    (b"r2", 2),
    (b"r4", 4),
    (b"r5", 5),
    (b"r6", 6),
    (b"r7", 7),
    (b"r8", 8),
    (b"r9", 9),
    (b"r10", 10),
    (b"r11", 11),
    (b"r12", 12),
    (b"r13", 13),
    (b"r14", 14),
    (b"r15", 15),
];

/// The index of a node. The error is rule 4.
pub fn node_of(names: &Names, word: &[u8]) -> Result<u8, LineError>
    requires { IsTrue (are_valid names.now) }
    ensures index { result ≡ node_of names.now word.now }
    ensures fault { IfErr result IsBrokenRule }
{
    names.node(word).ok_or(NO_NAME)
}

/// The index of a device that is a sensor. The error is rule 4.
pub fn sensor_of(names: &Names, word: &[u8]) -> Result<u8, LineError>
    requires { IsTrue (are_valid names.now) }
    ensures index { result ≡ sensor_of names.now word.now }
    ensures fault { IfErr result IsBrokenRule }
{
    names.sensor(word).ok_or(NO_NAME)
}

/// The index of a module. The error is rule 4.
pub fn module_of(names: &Names, word: &[u8]) -> Result<u8, LineError>
    requires { IsTrue (are_valid names.now) }
    ensures index { result ≡ module_of names.now word.now }
    ensures fault { IfErr result IsBrokenRule }
{
    names.module(word).ok_or(NO_NAME)
}

/// The number of the first entry with this name.
fn register_in(table: &[(&[u8], u8)], word: &[u8]) -> Option<u8>
    ensures { result ≡ register_in (map entry_of table.now) word.now }
{
    for (name, register) in table {
        if word == *name {
            return Some(*register);
        }
    }
    None
}

/// The register of a name that can be set. The error is rule 4.
#[tactic(auto, unfolding(crate::specs::Reading::register_of))]
pub fn register_of(word: &[u8]) -> Result<u8, LineError>
    ensures number { result ≡ register_of word.now }
    ensures fault { IfErr result IsBrokenRule }
{
    register_in(&REGISTERS, word).ok_or(NO_NAME)
}

/// A number from low to high. The error is rule 5.
pub fn number_in(low: u32, high: u32, word: &[u8]) -> Result<u32, LineError>
    ensures number { result ≡ number_in low high word.now }
    ensures within { IfOk result (λ n. n ≤ high) }
    ensures fault { IfErr result IsBrokenRule }
{
    match number(word, u64::from(high)) {
        Some(n) if u64::from(low) <= n => Ok(n as u32),
        _ => Err(NO_NUMBER),
    }
}

/// A number of 16 bits. The error is rule 5.
pub fn number16(word: &[u8]) -> Result<u16, LineError>
    ensures number { result ≡ number16 word.now }
    ensures fault { IfErr result IsBrokenRule }
{
    let n = number_in(0, 65535, word)?;
    Ok(n as u16)
}

/// A number of 32 bits. The error is rule 5.
pub fn number32(word: &[u8]) -> Result<u32, LineError>
    ensures number { result ≡ number32 word.now }
    ensures fault { IfErr result IsBrokenRule }
{
    number_in(0, 4294967295, word)
}

fn is_hex_digit(byte: u8) -> bool
    ensures { result ≡ is_hex_digit byte }
{
    byte.is_ascii_hexdigit()
}

fn are_hex_digits(word: &[u8]) -> bool
    ensures { result ≡ list_all is_hex_digit word.now }
{
    word.iter().all(|byte| is_hex_digit(*byte))
}

fn is_between(low: usize, high: usize, n: usize) -> bool
    ensures { result ≡ (nat_le low n && nat_le n high) }
{
    low <= n && n <= high
}

/// Whether a word is the hexadecimal text of 1 to `most` bytes.
fn are_bytes(most: usize, word: &[u8]) -> bool
    ensures { result ≡ is_hex_text most word.now }
{
    are_hex_digits(word) && word.len() % 2 == 0 && is_between(1, most, word.len() / 2)
}

/// The bytes that a hexadecimal text writes, 1 to `most` of them; the error is rule 6 or
/// `OutOfMemory`. No memory is asked for where it is none.
pub fn bytes_of(alloc: Global, most: usize, word: &[u8]) -> Result<Vec<u8>, LineError>
    ensures { Answers (λ v. v.items) AreSaid (bytes_of most word.now) result }
{
    if !are_bytes(most, word) {
        return Err(NO_BYTES);
    }
    let bytes = match hex::decode(alloc, word) {
        Ok(bytes) => bytes,
        Err(FromHexError::OutOfMemory) => return Err(LineError::OutOfMemory),
        Err(_) => return Err(NO_BYTES),
    };
    Ok(bytes)
}

/// What the assembler gives for a text at an address, 1 to 1,024 bytes.
fn code_in(alloc: Global, at: u16, text: &str) -> Result<Vec<u8>, LineError>
    ensures { Answers (λ v. v.items) (λ said. Unit {0}) (code_in (assembled at text.now)) result }
{
    match assemble(alloc, at, text) {
        Ok(code) if is_between(1, 1024, code.len()) => Ok(code),
        Err(AsmError::OutOfMemory) => Err(LineError::OutOfMemory),
        _ => Err(NO_CODE),
    }
}

/// The code of a text at an address, 1 to 1,024 bytes. No memory is asked for where the text isn't
/// UTF-8.
pub fn code_of(alloc: Global, at: u16, text: &[u8]) -> Result<Vec<u8>, LineError>
    ensures { Answers (λ v. v.items) (MayWant (λ code. Unit {0}) text.now)
        (code_of assembled at text.now) result }
{
    match str::from_utf8(text) {
        Ok(text) => code_in(alloc, at, text),
        Err(_) => Err(NO_CODE),
    }
}
