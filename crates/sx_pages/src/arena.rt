//! The arena: pages that are taken and released.

ghost use Rattle.std.specs.Prelude.{◌≡◌, ℕ, ◌+◌, ◌/◌, ◌%◌, ◌<◌, true, length, slice_index};
ghost use Rattle.std.specs.Prelude.{slice_set, IfOk, None};
ghost use Rattle.sx_pages.specs.Pages.{no_pages, is_live, held, size, with_byte, TakesPage};

use crate::block::{Block, Lease};
use std::alloc::{AllocError as OutOfMemory, Global};
use std::marker::Model;

/// One block of 256 pages of 256 bytes. A page is named by its number. Its value is the map from
/// the numbers of the live pages to their bytes.
pub struct Arena {
    block: Block,
    lease: Lease<Global>,
    alloc: Global,
    /// Which pages are live.
    lives: [bool; 256],
    /// The first free page, if there is one. Each free page has the number of the next as its first
    /// byte, and the count `free` ends this chain.
    head: u8,
    free: u16,
}

impl Model for Arena {
    ghost use Rattle.std.specs.Prelude.{◌≡◌, List, ℕ, Option};

    ghost Value = { List (Option (List ℕ)) };

    ghost use Rattle.sx_pages.specs.Arena.{pages_of, IsArena};

    ghost view = { λ a. pages_of a.lives a.block.pages };

    ghost invariant = { λ a. (a.lease.start ≡ a.block.start) × (a.lease.alloc ≡ a.alloc)
        × IsArena a.lives a.block.pages a.head a.free };
}

impl Arena {
    /// An arena with no live page. Takes one block of 65,536 bytes; `OutOfMemory` where there is
    /// none.
    pub fn new(alloc: Global) -> Result<Arena, OutOfMemory>
        ensures { IfOk result (λ arena. arena ≡ no_pages) }
    {
        match Block::new(&alloc) {
            Some((block, lease)) => {
                let mut block = block;
                block.link();
                Ok(Arena {
                    block,
                    lease,
                    alloc,
                    lives: [false; 256],
                    head: 0,
                    free: 256,
                })
            }
            None => Err(OutOfMemory),
        }
    }

    /// Makes a free page live, with all its bytes 0, and gives its number. None exactly where all
    /// 256 pages are live; then nothing changes.
    pub fn take(&mut self) -> Option<u8>
        ensures { TakesPage self.old result self.new }
    {
        if self.free == 0 {
            return None;
        }
        let page = self.head;
        self.head = *self.block.byte(page, 0);
        self.free -= 1;
        self.block.clear(page);
        mark(&mut self.lives, page, true);
        Some(page)
    }

    /// Makes a live page free. `live` tells whether it is live.
    pub fn release(&mut self, page: u8)
        requires { is_live self.old page ≡ true }
        ensures { self.new ≡ slice_set self.old page None }
    {
        self.block.put(page, 0, self.head);
        self.head = page;
        self.free += 1;
        mark(&mut self.lives, page, false);
    }

    /// The byte at the index `at` of a live page.
    pub fn read(&self, page: u8, at: u8) -> u8
        requires { is_live self.now page ≡ true }
        ensures { result ≡ slice_index (held self.now page) at }
    {
        *self.block.byte(page, at)
    }

    /// The byte at a place of the block: the index `place % 256` of the live page `place / 256`.
    pub fn read_at(&self, place: usize) -> u8
        requires within { place < 65536 }
        requires live { is_live self.now (place / 256) ≡ true }
        ensures { result ≡ slice_index (held self.now (place / 256)) (place % 256) }
    {
        *self.block.byte_at(place)
    }

    /// What a live page holds.
    pub fn page(&self, page: u8) -> &[u8]
        requires { is_live self.now page ≡ true }
        ensures { result.now ≡ held self.now page }
    {
        self.block.page(page)
    }

    /// Writes the byte at the index `at` of a live page. All other bytes stay.
    pub fn write(&mut self, page: u8, at: u8, byte: u8)
        requires { is_live self.old page ≡ true }
        ensures { self.new ≡ with_byte self.old page at byte }
    {
        self.block.put(page, at, byte);
    }

    /// Writes the byte at a place of the block: the index `place % 256` of the live page
    /// `place / 256`. All other bytes stay.
    pub fn write_at(&mut self, place: usize, byte: u8)
        requires within { place < 65536 }
        requires live { is_live self.old (place / 256) ≡ true }
        ensures { self.new ≡ with_byte self.old (place / 256) (place % 256) byte }
    {
        self.block.put_at(place, byte);
    }

    /// Writes the byte at a place of the block and the one after it, which is of the same page. All
    /// other bytes stay.
    pub fn write_two_at(&mut self, place: usize, low: u8, high: u8)
        requires within { place < 65536 }
        requires inside { place % 256 < 255 }
        requires live { is_live self.old (place / 256) ≡ true }
        ensures { self.new ≡ with_byte (with_byte self.old (place / 256) (place % 256) low)
            (place / 256) (place % 256 + 1) high }
    {
        self.block.put_two_at(place, low, high);
    }

    /// Whether the page is live.
    pub fn live(&self, page: u8) -> bool
        ensures { result ≡ is_live self.now page }
    {
        self.lives[page as usize]
    }

    /// How many pages are free, 0 to 256.
    pub fn free(&self) -> u16
        ensures { result + size self.now ≡ 256 }
    {
        self.free
    }

    /// An arena of its own with the same live pages. Of a free page only the link is copied.
    /// `OutOfMemory` where there is no block for it.
    pub fn copy(&self, alloc: Global) -> Result<Arena, OutOfMemory>
        ensures { IfOk result (λ arena. arena ≡ self.now) }
    {
        match Block::new(&alloc) {
            Some((block, lease)) => {
                let mut block = block;
                block.copy_from(&self.block, &self.lives);
                Ok(Arena {
                    block,
                    lease,
                    alloc,
                    lives: self.lives,
                    head: self.head,
                    free: self.free,
                })
            }
            None => Err(OutOfMemory),
        }
    }
}

impl Drop for Arena {
    fn drop(self) {
        let Arena {
            block,
            lease,
            alloc,
            lives: _,
            head: _,
            free: _,
        } = self;
        block.free(lease, &alloc);
    }
}

// A function over a slice, since a field of a type with a `Model` isn't indexed for writing.
fn mark(lives: &mut [bool], page: u8, live: bool)
    requires { page < length lives.old }
    ensures { lives.new ≡ slice_set lives.old page live }
{
    lives[page as usize] = live;
}
