//! Texts of at most 32 bytes: headers, bodies and ciphers.

ghost use Rattle.std.specs.Prelude.{◌≡◌, ◌≤◌, true, length, take};
ghost use Rattle.sx_rules.specs.declared.access.Access.TheVariants.{Read};
ghost use Rattle.spec_machine.specs.Memory.{bytes_from};
ghost use Rattle.sx_executor.specs.Machine.{reaches, IsClear};
ghost use Rattle.sx_tag.specs.Wrap.{padded};

use std::marker::Model;
use sx_bus::Bus;
use sx_executor::{Buffer, Executor};

/// At most 32 bytes: a header, a body or a cipher.
#[derive(Drop)]
pub struct Text {
    bytes: [u8; 32],
    count: usize,
}

impl Model for Text {
    ghost use Rattle.std.specs.Prelude.{◌≡◌, ◌≤◌, List, ℕ, take};
    ghost use Rattle.sx_tag.specs.Wrap.{padded};

    ghost Value = { List ℕ };

    ghost view = { λ t. take t.count t.bytes };

    ghost invariant = { λ t. (t.count ≤ 32) × (t.bytes ≡ padded (take t.count t.bytes)) };
}

impl Text {
    /// The first `count` of these bytes.
    pub fn front(bytes: &[u8], count: usize) -> Text
        requires within { count ≤ length bytes.now }
        requires short { count ≤ 32 }
        ensures { result ≡ take count bytes.now }
    {
        let mut front = [0; 32];
        front[..count].copy_from_slice(&bytes[..count]);
        Text {
            bytes: front,
            count,
        }
    }

    /// The bytes of a buffer, which may be read and meets no device.
    pub fn read<B: Bus>(executor: &Executor<B>, buffer: Buffer) -> Text
        requires count { buffer.count ≤ 32 }
        requires right { reaches executor.now Read buffer.at buffer.count ≡ true }
        requires memory { IsClear executor.now.devices buffer.at buffer.count }
        ensures bytes { result ≡ bytes_from executor.now.mem buffer.at buffer.count }
        ensures count { length result ≡ buffer.count }
    {
        let mut bytes = [0; 32];
        let count = usize::from(buffer.count);
        executor.read_bytes(buffer.at, &mut bytes[..count]);
        Text::front(&bytes, count)
    }

    /// How many bytes they are.
    pub fn count(&self) -> u8
        ensures { result ≡ length self.now }
    {
        self.count as u8
    }

    /// The bytes alone.
    pub fn as_slice(&self) -> &[u8]
        ensures { result.now ≡ self.now }
    {
        &self.bytes[..self.count]
    }

    /// The bytes with zeros after them.
    pub fn padded(&self) -> [u8; 32]
        ensures { result ≡ padded self.now }
    {
        self.bytes
    }
}
