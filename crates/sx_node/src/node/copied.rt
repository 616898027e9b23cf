//! Calls of a node whose memory can be copied: a copy, and a look at any bytes. A step and an act
//! are written for every `Bus`, so they can't call these.

ghost use Rattle.std.specs.Prelude.{◌≡◌, ◌+◌, ◌≤◌, length, IfOk, slice_index, bytes_eq};
ghost use Rattle.spec_machine.specs.Memory.{bytes_from};

use crate::node::Node;
use std::alloc::{AllocError as OutOfMemory, Global};
use sx_bus::Copied;
use sx_tag::Tag;

impl<B: Copied, T: Tag> Node<B, T> {
    /// The byte at an address. It asks for no right.
    pub fn byte(&self, at: u16) -> u8
        ensures { result ≡ slice_index self.now.mem at }
    {
        self.executor.byte(at)
    }

    /// Whether these bytes are in memory from an address on. It asks for no right.
    pub fn holds(&self, at: u16, expected: &[u8]) -> bool
        requires { at + length expected.now ≤ 65536 }
        ensures { result
            ≡ bytes_eq (bytes_from self.now.mem at (length expected.now)) expected.now }
    {
        self.executor.holds(at, expected)
    }
}

impl<B: Copied, T: Tag> Node<B, T> {
    /// A node of its own in an equal state, with the same tag. `OutOfMemory` where there is none
    /// for it.
    pub fn copy(&self, alloc: Global) -> Result<Node<B, T>, OutOfMemory>
        ensures { IfOk result (λ copy. copy ≡ self.now) }
    {
        let executor = self.executor.copy(alloc)?;
        Ok(Node {
            executor,
            last: self.last,
            caller: self.caller,
            boot: self.boot,
            key: self.key,
            exchange: self.exchange,
            tag: self.tag.another(),
        })
    }
}
