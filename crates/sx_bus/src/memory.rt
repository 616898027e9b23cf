//! The trait of memories of 65,536 bytes.

ghost use Rattle.std.specs.Prelude.{◌≡◌, ◌+◌, ◌/◌, ◌%◌, ◌≤◌, ℕ, List, slice_index, slice_set};
ghost use Rattle.std.specs.Prelude.{length, take, drop, bytes_eq};
ghost use Rattle.sx_bus.specs.Memory.{blank, AreMemoryBytes};

/// A memory of 65,536 bytes. Its meaning is the list of these bytes.
pub trait Bus: Drop {
    ghost bytes: { Self → List ℕ };

    /// The byte at an address.
    fn get(&self, at: u16) -> u8
        ensures { result ≡ slice_index (bytes self.now) at };

    /// Whether these bytes are in memory from an address on.
    fn holds(&self, at: u16, expected: &[u8]) -> bool
        requires { at + length expected.now ≤ 65536 }
        ensures { result
            ≡ bytes_eq (take (length expected.now) (drop at (bytes self.now))) expected.now };

    /// Copies the bytes in memory from an address on.
    fn copy_bytes(&self, at: u16, into: &mut [u8])
        requires { at + length into.old ≤ 65536 }
        ensures { into.new ≡ take (length into.old) (drop at (bytes self.now)) };

    /// Writes one byte and leaves all others.
    fn put(&mut self, at: u16, byte: u8)
        ensures { bytes self.new ≡ slice_set (bytes self.old) at byte };

    /// Writes the word at an even address, the low byte first, and leaves all other bytes.
    fn put_word(&mut self, at: u16, value: u16)
        requires { at % 2 ≡ 0 }
        ensures { bytes self.new
            ≡ slice_set (slice_set (bytes self.old) at (value % 256)) (at + 1) (value / 256) };

    /// Makes every byte 0.
    fn wipe(&mut self)
        ensures { bytes self.new ≡ blank 65536 };

    /// Does nothing. Its clause is the law that whatever was written, there are 65,536 bytes, each
    /// below 256; as a call, it can be met by what a memory of several parts keeps of them.
    fn stays_in_range(&self)
        ensures { AreMemoryBytes (bytes self.now) };
}
