//! The memory of 65,536 bytes, as its callers see it.

ghost use Rattle.std.specs.Prelude.{◌≡◌, ◌+◌, ◌/◌, ◌%◌, slice_set, IfOk};
ghost use Rattle.sx_bus.specs.Memory.{blank, AreMemoryBytes};
ghost use Rattle.sx_pages.specs.Pages.{no_pages, size};
ghost use Rattle.sx_paged.specs.Memory.{IsMemory, joined, after_put};

use crate::paged::Paged;
use std::alloc::{AllocError as OutOfMemory, Global};
use sx_bus::{Bus, Copied};

/// A memory of 65,536 bytes. A page is present where one of its bytes was written since the last
/// wipe.
#[derive(Drop)]
pub struct PagedBus {
    pages: Paged,
    ghost shaped: { IsMemory pages },
    ghost ranged: { AreMemoryBytes (joined pages) },
}

impl PagedBus {
    /// A memory of zeros, with no page. Takes all the memory that its pages will need;
    /// `OutOfMemory` where there is none.
    pub fn new(alloc: Global) -> Result<PagedBus, OutOfMemory>
        ensures bytes { IfOk result (λ bus. joined bus.pages ≡ blank 65536) }
        ensures pages { IfOk result (λ bus. bus.pages ≡ no_pages) }
    {
        let pages = Paged::new(alloc)?;
        Ok(PagedBus { pages })
    }

    /// How many pages are present, 0 to 256.
    pub fn present(&self) -> u16
        ensures { result ≡ size self.now.pages }
    {
        self.pages.present()
    }
}

impl Bus for PagedBus {
    ghost bytes = { λ bus. joined bus.pages };

    fn get(&self, at: u16) -> u8 {
        self.pages.get(at)
    }

    fn holds(&self, at: u16, expected: &[u8]) -> bool {
        self.pages.holds(at, expected)
    }

    fn copy_bytes(&self, at: u16, into: &mut [u8]) {
        self.pages.copy_bytes(at, into);
    }

    fn put(&mut self, at: u16, byte: u8)
        ensures bytes { joined self.new.pages ≡ slice_set (joined self.old.pages) at byte }
        ensures pages { self.new.pages ≡ after_put self.old.pages at byte }
    {
        self.pages.put(at, byte);
    }

    #[inline(always)]
    fn put_word(&mut self, at: u16, value: u16)
        requires { at % 2 ≡ 0 }
        ensures bytes { joined self.new.pages
            ≡ slice_set (slice_set (joined self.old.pages) at (value % 256)) (at + 1) (value / 256) }
        ensures pages { self.new.pages
            ≡ after_put (after_put self.old.pages at (value % 256)) (at + 1) (value / 256) }
    {
        self.pages.put_word(at, value);
    }

    fn wipe(&mut self)
        ensures bytes { joined self.new.pages ≡ blank 65536 }
        ensures pages { self.new.pages ≡ no_pages }
    {
        self.pages.wipe();
    }

    fn stays_in_range(&self) {}
}

impl Copied for PagedBus {
    fn copy(&self, alloc: Global) -> Result<PagedBus, OutOfMemory>
        ensures bytes { IfOk result (λ copy. joined copy.pages ≡ joined self.now.pages) }
        ensures pages { IfOk result (λ copy. copy.pages ≡ self.now.pages) }
    {
        let pages = self.pages.copy(alloc)?;
        Ok(PagedBus { pages })
    }
}
