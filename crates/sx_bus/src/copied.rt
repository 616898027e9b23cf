//! The trait of memories that can be copied.

ghost use Rattle.std.specs.Prelude.{◌≡◌, IfOk};

use crate::memory::Bus;
use std::alloc::{AllocError as OutOfMemory, Global};

/// A memory that can be copied.
pub trait Copied: Bus + Sized {
    /// A memory of its own with equal bytes. `OutOfMemory` where there is none for it.
    fn copy(&self, alloc: Global) -> Result<Self, OutOfMemory>
        ensures { IfOk result (λ copy. Self.bytes copy ≡ Self.bytes self.now) };
}
