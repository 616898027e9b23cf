//! The block of memory after a raw pointer. Everything that touches the pointer is in this file.

ghost use Rattle.std.specs.Prelude.{◌≡◌, ◌+◌, ◌<◌, ◌/◌, ◌%◌, List, All, get_or, map, slice_set, IfSome};
ghost use Rattle.std.specs.Prelude.{[], Some};
ghost use denote.RawPtr.{Ptr};
ghost use Rattle.sx_pages.specs.Arena.{HasByte, slot_of, with_slot, zeroed, AllLinked, CanCopy};
ghost use Rattle.sx_pages.specs.Arena.{AreCopied};
ghost use Rattle.sx_pages.specs.Ownership.{Slot, IsArenaBlock, unwritten, block_owns, block_lends};
ghost use Rattle.sx_pages.specs.Ownership.{block_type};
ghost use base.Fml.{ftrue};

use std::alloc::Allocator;
use std::marker::{Model, PhantomData};
use std::slice;

/// The bytes of a block.
const BYTES: usize = 65536;

/// A block of 256 pages of 256 bytes. Each byte is unwritten until it is put. The place of a byte is
/// how many bytes of the block are before it.
pub(crate) struct Block {
    start: *mut u8,
    pub(crate) ghost pages: { List (List Slot) },
    pub(crate) ghost shaped: { IsArenaBlock pages },
}

impl Model for Block {
    ghost also_owns = { λ b. block_owns b.start b.pages };

    ghost also_shares = { λ b _ κ. block_lends b.start b.pages κ };
}

/// The right to give a block back to its allocator. It takes no room.
pub(crate) struct Lease<A: Allocator> {
    mark: PhantomData<*const A>,
    pub(crate) ghost alloc: { A },
    pub(crate) ghost start: { Ptr },
}

impl<A: Allocator> Model for Lease<A> {
    ghost also_owns = { λ l. A.dealloc_token l.alloc block_type l.start };

    ghost also_shares = { λ _ _ _. ftrue };
}

impl Block {
    /// A block of which nothing is written, and its lease. None where memory ran out.
    pub(crate) fn new<A: Allocator>(alloc: &A) -> Option<(Block, Lease<A>)>
        ensures { IfSome result (λ made. (made.0.pages ≡ unwritten 256)
            × (made.1.alloc ≡ alloc.now) × (made.1.start ≡ made.0.start)) }
    {
        match alloc.allocate(BYTES, 1) {
            Ok(start) => {
                let mark = PhantomData;
                Some((Block { start }, Lease { mark }))
            }
            Err(_) => None,
        }
    }

    /// Gives the block back to the allocator that it came from.
    pub(crate) fn free<A: Allocator>(self, lease: Lease<A>, alloc: &A)
        requires { (lease.alloc ≡ alloc.now) × (lease.start ≡ self.start) }
    {
        let Block { start } = self;
        let Lease { mark: _ } = lease;
        unsafe { alloc.deallocate(start, BYTES, 1) }
    }

    /// The byte at a place, which was written.
    pub(crate) fn byte_at(&self, place: usize) -> &u8
        requires { (place < BYTES) × HasByte (slot_of self.now.pages (place / 256) (place % 256)) }
        ensures { slot_of self.now.pages (place / 256) (place % 256) ≡ Some result.now }
    {
        unsafe { &*self.start.add(place) }
    }

    /// A byte that was written, by its page and its index there.
    pub(crate) fn byte(&self, page: u8, at: u8) -> &u8
        requires { HasByte (slot_of self.now.pages page at) }
        ensures { slot_of self.now.pages page at ≡ Some result.now }
    {
        self.byte_at(page as usize * 256 + at as usize)
    }

    /// The bytes of a page that was written whole.
    pub(crate) fn page(&self, page: u8) -> &[u8]
        requires { All HasByte (get_or self.now.pages page []) }
        ensures { get_or self.now.pages page [] ≡ map Some result.now }
    {
        unsafe { slice::from_raw_parts(self.start.add(page as usize * 256), 256) }
    }

    /// Writes the byte at a place.
    pub(crate) fn put_at(&mut self, place: usize, byte: u8)
        requires { place < BYTES }
        ensures { (self.new.start ≡ self.old.start)
            × (self.new.pages ≡ with_slot self.old.pages (place / 256) (place % 256) byte) }
    {
        unsafe {
            *self.start.add(place) = byte;
        }
    }

    /// Writes the byte at a place and the one after it. The pointer is loaded once, so LLVM makes one
    /// store of both.
    pub(crate) fn put_two_at(&mut self, place: usize, low: u8, high: u8)
        requires { place + 1 < BYTES }
        ensures { (self.new.start ≡ self.old.start)
            × (self.new.pages ≡ with_slot
            (with_slot self.old.pages (place / 256) (place % 256) low)
            ((place + 1) / 256) ((place + 1) % 256) high) }
    {
        unsafe {
            let first = self.start.add(place);
            *first = low;
            *first.add(1) = high;
        }
    }

    /// Writes one byte, by its page and its index there.
    pub(crate) fn put(&mut self, page: u8, at: u8, byte: u8)
        ensures { (self.new.start ≡ self.old.start)
            × (self.new.pages ≡ with_slot self.old.pages page at byte) }
    {
        self.put_at(page as usize * 256 + at as usize, byte);
    }

    /// Makes each page a free one that is linked to the next.
    pub(crate) fn link(&mut self)
        ensures start { self.new.start ≡ self.old.start }
        ensures linked { AllLinked self.new.pages 256 }
    {
        for page in 0..256u16 {
            self.put(page as u8, 0, ((page + 1) % 256) as u8);
        }
    }

    /// Makes a page zeros.
    pub(crate) fn clear(&mut self, page: u8)
        ensures { (self.new.start ≡ self.old.start)
            × (self.new.pages ≡ slice_set self.old.pages page zeroed) }
    {
        for at in 0..256u16 {
            self.put(page, at as u8, 0);
        }
    }

    /// Copies the live pages, and the links of the others.
    pub(crate) fn copy_from(&mut self, from: &Block, lives: &[bool; 256])
        requires { CanCopy lives.now from.now.pages }
        ensures start { self.new.start ≡ self.old.start }
        ensures copied { AreCopied lives.now from.now.pages self.new.pages 256 }
    {
        for page in 0..256u16 {
            if lives[page as usize] {
                self.copy_page(from, page as u8);
            } else {
                self.put(page as u8, 0, *from.byte(page as u8, 0));
            }
        }
    }

    fn copy_page(&mut self, from: &Block, page: u8)
        requires { All HasByte (get_or from.now.pages page []) }
        ensures { (self.new.start ≡ self.old.start)
            × (self.new.pages ≡ slice_set self.old.pages page (get_or from.now.pages page [])) }
    {
        for at in 0..256u16 {
            self.put(page, at as u8, *from.byte(page, at as u8));
        }
    }
}
