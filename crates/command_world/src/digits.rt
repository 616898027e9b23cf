//! Bytes in hexadecimal. The digits are computed and not looked up, so that the compiler makes
//! code for eight bytes at once.

ghost use Rattle.std.specs.Prelude.{◌≡◌, ◌<◌, ◌≤◌, ◌*◌, ◌++◌, OnOk, length, replicate};
ghost use Rattle.std.specs.Prelude.{slice_index, true};
ghost use Rattle.hex.specs.Hex.{encode_lower, lower_digits};

use std::alloc::AllocError;

/// The most bytes whose digits are appended at once. They are made on the stack, so that no second
/// list is asked for.
const BLOCK: usize = 1024;

/// The digit of a number below 16.
fn digit(n: u8) -> u8
    requires { n < 16 }
    ensures { result ≡ slice_index lower_digits n }
{
    b'0' + n + if n < 10 { 0 } else { b'a' - b'0' - 10 }
}

/// Writes two digits for each byte.
fn write_digits(bytes: &[u8], digits: &mut [u8])
    requires { length digits.old ≡ 2 * length bytes.now }
    ensures { digits.new ≡ encode_lower bytes.now }
{
    'bytes: for i in 0..bytes.len() {
        digits[2 * i] = digit(bytes[i] / 16);
        digits[2 * i + 1] = digit(bytes[i] % 16);
    }
}

/// Whether a block is zeros, as a section is after its text.
fn is_zeros(block: &[u8]) -> bool
    requires { length block.now ≤ BLOCK }
    ensures { result ≡ true → block.now ≡ replicate (length block.now) 0 }
{
    let zeros = [0; BLOCK];
    block == &zeros[..block.len()]
}

/// Writes two digits for each byte of a block over as many `0`, the digits of zeros.
#[tactic(auto, using(crate::proofs::Blocks::zeros_written))]
fn write_block(block: &[u8], digits: &mut [u8])
    requires length { length block.now ≤ BLOCK }
    requires digits { digits.old ≡ replicate (2 * length block.now) 48 }
    ensures { digits.new ≡ encode_lower block.now }
{
    if !is_zeros(block) {
        write_digits(block, digits);
    }
}

/// Appends two digits for each byte of a block.
#[tactic(auto, using(crate::proofs::Blocks::as_many))]
fn push_block(text: &mut Vec<u8>, block: &[u8]) -> Result<(), AllocError>
    requires { length block.now ≤ BLOCK }
    ensures { OnOk result (text.new.items ≡ text.old.items ++ encode_lower block.now) }
{
    let mut digits = [b'0'; 2 * BLOCK];
    let digits = &mut digits[..2 * block.len()];
    write_block(block, digits);
    text.extend_from_slice(digits)
}

/// Appends two digits for each byte.
pub(crate) fn push_digits(text: &mut Vec<u8>, bytes: &[u8]) -> Result<(), AllocError>
    ensures { OnOk result (text.new.items ≡ text.old.items ++ encode_lower bytes.now) }
{
    'blocks: for block in bytes.chunks(BLOCK) {
        push_block(text, block)?;
    }
    Ok(())
}
