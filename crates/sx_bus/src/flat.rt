//! A memory in one piece.

ghost use Rattle.std.specs.Prelude.{◌≡◌, length, IfOk};
ghost use Rattle.sx_bus.specs.Memory.{blank, AreMemoryBytes};

use crate::copied::Copied;
use crate::memory::Bus;
use std::alloc::{AllocError as OutOfMemory, Global};

/// A memory that keeps its 65,536 bytes in one piece.
#[derive(Drop)]
pub struct FlatBus {
    memory: Vec<u8>,
    ghost ranged: { AreMemoryBytes memory.items },
}

impl FlatBus {
    ghost use Rattle.sx_bus.specs.FlatBus.{bytes_of};

    /// A memory of zeros.
    pub fn new(alloc: Global) -> Result<FlatBus, OutOfMemory>
        ensures { IfOk result (λ bus. bytes_of bus ≡ blank 65536) }
    {
        let memory = zeros(alloc, 65536)?;
        Ok(FlatBus { memory })
    }
}

impl Bus for FlatBus {
    ghost use Rattle.sx_bus.specs.FlatBus.{bytes_of};

    ghost bytes = { bytes_of };

    fn get(&self, at: u16) -> u8 {
        self.memory[at as usize]
    }

    fn holds(&self, at: u16, expected: &[u8]) -> bool {
        let from = usize::from(at);
        &self.memory[from..from + expected.len()] == expected
    }

    fn copy_bytes(&self, at: u16, into: &mut [u8]) {
        let from = usize::from(at);
        into.copy_from_slice(&self.memory[from..from + into.len()]);
    }

    fn put(&mut self, at: u16, byte: u8) {
        self.memory[at as usize] = byte;
    }

    fn put_word(&mut self, at: u16, value: u16) {
        self.put(at, (value % 256) as u8);
        self.put(at + 1, (value / 256) as u8);
    }

    fn wipe(&mut self) {
        clear(&mut self.memory);
    }

    fn stays_in_range(&self) {}
}

impl Copied for FlatBus {
    fn copy(&self, alloc: Global) -> Result<FlatBus, OutOfMemory> {
        let memory = copied(&self.memory, alloc)?;
        Ok(FlatBus { memory })
    }
}

fn copied(bytes: &[u8], alloc: Global) -> Result<Vec<u8>, OutOfMemory>
    ensures { IfOk result (λ copy. copy.items ≡ bytes.now) }
{
    bytes.to_vec(alloc)
}

// The count is a variable, since a proof must never compute a list of 65,536 numbers.
#[tactic(auto, unfolding(crate::specs::Memory::blank))]
fn zeros(alloc: Global, count: usize) -> Result<Vec<u8>, OutOfMemory>
    ensures items { IfOk result (λ bytes. bytes.items ≡ blank count) }
    ensures len { IfOk result (λ bytes. length bytes.items ≡ count) }
{
    vec![in alloc; 0; count]
}

#[tactic(auto, unfolding(crate::specs::Memory::blank))]
fn clear(bytes: &mut [u8])
    ensures { bytes.new ≡ blank (length bytes.old) }
{
    bytes.fill(0);
}
