//! The listing of code: a line for each instruction.

ghost use Rattle.std.specs.Prelude.{◌≡◌, ◌≢◌, ◌+◌, ◌%◌, ◌≤◌, ◌<◌, ◌++◌, length};
ghost use Rattle.hex.specs.Hex.{encode_lower};
ghost use Rattle.command_promise.specs.declared.status.Status.TheVariants.{Done, OutOfMemory};
ghost use Rattle.command_promise.specs.Told.{CommandEnds};
ghost use Rattle.sx_asm.specs.Shown.{listed};
ghost use Rattle.command_asm.specs.Listing.{listing_line, listing};
ghost use Rattle.command_text.specs.Output.{end_line};

use command_promise::{Status, Turned, finish, put_text};
use command_text::address::address;
use command_text::text::{Text, put};
use sx_asm::dis;
use sx_io::Sink;

/// Appends the bytes of an instruction in hexadecimal.
fn put_bytes(text: &mut Text, bytes: &[u8])
    requires few { length bytes.now ≤ 6 }
    requires room { length text.old.items + 12 ≤ 96 }
    ensures added { text.new.items ≡ text.old.items ++ encode_lower bytes.now }
    ensures short { length text.new.items ≤ length text.old.items + 12 }
{
    let mut digits = [0; 12];
    let digits = &mut digits[..2 * bytes.len()];
    match hex::encode_to_slice(bytes, digits) {
        Ok(()) => put(text, digits),
        Err(_) => unreachable!(),
    }
}

/// The line of the first instruction of some code, and the instruction's length in bytes.
fn first_line(at: u16, code: &[u8]) -> (Text, u8)
    requires { 2 ≤ length code.now }
    ensures line { result.0.items ≡ listing_line at code.now }
    ensures size { result.1 ≡ (listed at code.now).1 }
{
    let mut shown = [0; 64];
    let (length, size) = dis(at, code, &mut shown);
    let mut text = Text::new();
    put(&mut text, &address(at));
    put(&mut text, b" ");
    put_bytes(&mut text, &code[..usize::from(size)]);
    put(&mut text, b" ");
    put(&mut text, &shown[..length]);
    put(&mut text, b"\n");
    (text, size)
}

/// Writes the listing of code from an address on, and `end`: status 0. It takes no memory.
pub(crate) fn list<K: Sink>(output: &mut K, at: u16, code: &[u8]) -> Status
    requires even { length code.now % 2 ≡ 0 }
    requires fits { at + length code.now ≤ 65536 }
    ensures ends { CommandEnds K.tells (K.at output.old) (K.at output.new) result
        (record { text = listing at code.now ++ end_line; status = Done }) }
    ensures memory { result ≢ OutOfMemory }
{
    let mut address = at;
    let mut rest = code;
    'lines: while !rest.is_empty() {
        let (line, size) = first_line(address, rest);
        if let Turned::Stop(status) = put_text(output, line.as_slice()) {
            return status;
        }
        address = address.wrapping_add(u16::from(size));
        let (_, behind) = rest.split_at(usize::from(size));
        rest = behind;
    }
    finish(output, b"end\n", Status::Done)
}
