//! The pages, and where they are in the arena.

ghost use Rattle.std.specs.Prelude.{◌≡◌, ◌<◌, ◌≤◌, ◌+◌, ◌*◌, ◌%◌, ℕ, ◌/◌, true, replicate, get_or, IfOk, None};
ghost use Rattle.std.specs.Prelude.{length, take, drop, bytes_eq};
ghost use Rattle.sx_pages.specs.Pages.{no_pages, size, is_live, with_byte};
ghost use Rattle.sx_paged.specs.Memory.{IsMemory, byte_at, page_bytes, joined, after_put};
ghost use Rattle.sx_paged.specs.Paged.{kept, IsKept, AreBlank};

use std::alloc::{AllocError as OutOfMemory, Global};
use std::marker::Model;
use sx_pages::Arena;

/// How many bytes a page has.
const PAGE_BYTES: usize = 256;

/// What is given in place of the blank page's start, if there is none. No page starts there.
const NO_PAGE: u16 = 0xFFFF;

/// How many starts a wipe compares at once.
const RUN: usize = 32;

/// The 256 pages of a memory. All absent ones have one page of the arena, the blank page, which is
/// zeros and never written; so a read asks nothing. Each other live page of the arena is the page
/// of one index alone.
#[derive(Drop)]
pub(crate) struct Paged {
    arena: Arena,
    /// At the index of a page how many bytes of the arena are before it: 256 times its number.
    starts: [u16; 256],
    /// The start of the blank page; `NO_PAGE` if no page is absent.
    blank: u16,
}

impl Model for Paged {
    ghost use Rattle.std.specs.Prelude.{List, ℕ, Option};

    ghost Value = { List (Option (List ℕ)) };

    ghost use Rattle.sx_paged.specs.Paged.{kept, IsKept};

    ghost view = { λ b. kept b.arena b.starts b.blank };

    ghost invariant = { λ b. IsKept b.arena b.starts b.blank };
}

impl Paged {
    /// Absent pages, with memory for all of them.
    pub(crate) fn new(alloc: Global) -> Result<Paged, OutOfMemory>
        ensures { IfOk result (λ pages. pages ≡ no_pages) }
    {
        let mut arena = Arena::new(alloc)?;
        match arena.take() {
            Some(page) => {
                let blank = start_of(page);
                Ok(Paged {
                    arena,
                    starts: [blank; 256],
                    blank,
                })
            }
            None => Err(OutOfMemory),
        }
    }

    /// The byte at an address; 0 where the page is absent.
    pub(crate) fn get(&self, at: u16) -> u8
        ensures { result ≡ byte_at self.now at }
    {
        self.arena
            .read_at(place_of(self.starts[(at / 256) as usize], at))
    }

    /// The bytes of a page; zeros where it is absent.
    fn page(&self, index: u8) -> &[u8]
        ensures { result.now ≡ page_bytes (get_or self.now index None) }
    {
        self.arena.page(number_of(self.starts[index as usize]))
    }

    /// Whether these bytes are in memory from an address on, where no page ends before them.
    fn holds_on_page(&self, at: u16, expected: &[u8]) -> bool
        requires shaped { IsMemory self.now }
        requires within { at % PAGE_BYTES + length expected.now ≤ PAGE_BYTES }
        ensures { result
            ≡ bytes_eq (take (length expected.now) (drop at (joined self.now))) expected.now }
    {
        let from = (at % 256) as usize;
        let page = self.page((at / 256) as u8);
        &page[from..from + expected.len()] == expected
    }

    /// Whether these bytes are in memory from an address on: one comparison for each page that they
    /// meet.
    pub(crate) fn holds(&self, at: u16, expected: &[u8]) -> bool
        requires shaped { IsMemory self.now }
        requires within { at + length expected.now ≤ 65536 }
        ensures { result
            ≡ bytes_eq (take (length expected.now) (drop at (joined self.now))) expected.now }
    {
        let room = PAGE_BYTES - (at % 256) as usize;
        if expected.len() <= room {
            return self.holds_on_page(at, expected);
        }
        let (first, rest) = expected.split_at(room);
        self.holds_on_page(at, first) && self.holds(at + room as u16, rest)
    }

    /// Copies the bytes in memory from an address on, where no page ends before them.
    fn copy_on_page(&self, at: u16, into: &mut [u8])
        requires shaped { IsMemory self.now }
        requires within { at % PAGE_BYTES + length into.old ≤ PAGE_BYTES }
        ensures { into.new ≡ take (length into.old) (drop at (joined self.now)) }
    {
        let from = (at % 256) as usize;
        let page = self.page((at / 256) as u8);
        into.copy_from_slice(&page[from..from + into.len()]);
    }

    /// Copies the bytes in memory from an address on: one copy for each page that they meet.
    pub(crate) fn copy_bytes(&self, at: u16, into: &mut [u8])
        requires shaped { IsMemory self.now }
        requires within { at + length into.old ≤ 65536 }
        ensures { into.new ≡ take (length into.old) (drop at (joined self.now)) }
    {
        let room = PAGE_BYTES - (at % 256) as usize;
        if into.len() <= room {
            self.copy_on_page(at, into);
        } else {
            self.copy_on_page(at, &mut into[..room]);
            self.copy_bytes(at + room as u16, &mut into[room..]);
        }
    }

    /// Writes one byte, and makes the page where it is absent.
    pub(crate) fn put(&mut self, at: u16, byte: u8)
        ensures { self.new ≡ after_put self.old at byte }
    {
        let start = self.starts[(at / 256) as usize];
        if start != self.blank {
            self.arena.write_at(place_of(start, at), byte);
        } else {
            put_new(&mut self.arena, &mut self.starts, &mut self.blank, at, byte);
        }
    }

    /// Writes the word at an even address, the low byte first. Both bytes are on one page.
    #[inline(always)]
    pub(crate) fn put_word(&mut self, at: u16, value: u16)
        requires { at % 2 ≡ 0 }
        ensures { self.new
            ≡ after_put (after_put self.old at (value % 256)) (at + 1) (value / 256) }
    {
        let low = (value % 256) as u8;
        let high = (value / 256) as u8;
        let start = self.starts[(at / 256) as usize];
        if start != self.blank {
            self.arena.write_two_at(place_of(start, at), low, high);
        } else {
            self.put_two(at, low, high);
        }
    }

    /// Two bytes, one after the other. Its code stays out of the way of what most writes do.
    #[inline(never)]
    fn put_two(&mut self, at: u16, low: u8, high: u8)
        requires { at < 65535 }
        ensures { self.new ≡ after_put (after_put self.old at low) (at + 1) high }
    {
        self.put(at, low);
        self.put(at + 1, high);
    }

    /// Makes all pages absent.
    pub(crate) fn wipe(&mut self)
        ensures { self.new ≡ no_pages }
    {
        let blank = blank_page(&mut self.arena, &mut self.starts, self.blank);
        release_all(&mut self.arena, &mut self.starts, blank);
        self.blank = blank;
    }

    /// Equal pages of their own.
    pub(crate) fn copy(&self, alloc: Global) -> Result<Paged, OutOfMemory>
        ensures { IfOk result (λ copy. copy ≡ self.now) }
    {
        let arena = self.arena.copy(alloc)?;
        Ok(Paged {
            arena,
            starts: self.starts,
            blank: self.blank,
        })
    }

    /// How many pages are present.
    pub(crate) fn present(&self) -> u16
        ensures { result ≡ size self.now }
    {
        let live = 256 - self.arena.free();
        if self.blank == NO_PAGE {
            live
        } else {
            live - 1
        }
    }
}

// How many bytes of the arena are before the page with a number.
fn start_of(page: u8) -> u16
    ensures { result ≡ page * 256 }
{
    u16::from(page) * 256
}

// The number of the page that starts there.
fn number_of(start: u16) -> u8
    ensures { result ≡ start / 256 }
{
    (start / 256) as u8
}

// How many bytes of the arena are before the byte at an address, by where its page starts.
fn place_of(start: u16, at: u16) -> usize
    ensures { result ≡ start + at % 256 }
{
    usize::from(start) + usize::from(at % 256)
}

// Writes a byte of a page that was absent. If no page is free for it, all others are present, so no
// other page needs the blank one.
fn put_new(arena: &mut Arena, starts: &mut [u16], blank: &mut u16, at: u16, byte: u8)
    requires { IsKept arena.old starts.old blank.old
        × (get_or starts.old (at / 256) 0 ≡ blank.old) }
    ensures value { kept arena.new starts.new blank.new
        ≡ after_put (kept arena.old starts.old blank.old) at byte }
    ensures kept { IsKept arena.new starts.new blank.new }
{
    let index = (at / 256) as usize;
    match arena.take() {
        Some(page) => {
            arena.write(page, (at % 256) as u8, byte);
            starts[index] = start_of(page);
        }
        None => {
            arena.write(number_of(starts[index]), (at % 256) as u8, byte);
            *blank = NO_PAGE;
        }
    }
}

// The start of the blank page. If there is none, the index 0 gives its page up, and the page that
// is free then becomes the blank one.
fn blank_page(arena: &mut Arena, starts: &mut [u16], blank: u16) -> u16
    requires { IsKept arena.old starts.old blank }
    ensures kept { IsKept arena.new starts.new result }
    ensures page { result % 256 ≡ 0 }
{
    if blank != NO_PAGE {
        return blank;
    }
    arena.release(number_of(starts[0]));
    if let Some(page) = arena.take() {
        starts[0] = start_of(page);
    }
    starts[0]
}

// Makes all pages absent. Most are absent already, so a run of starts is compared at once.
fn release_all(arena: &mut Arena, starts: &mut [u16], blank: u16)
    requires kept { IsKept arena.old starts.old blank }
    requires page { blank % 256 ≡ 0 }
    ensures none { starts.new ≡ replicate 256 blank }
    ensures kept { IsKept arena.new starts.new blank }
{
    let absent = [blank; RUN];
    for run in 0..256 / RUN {
        let from = RUN * run;
        if &starts[from..from + RUN] != absent.as_slice() {
            release_run(arena, starts, blank, from);
        }
    }
}

// Makes the pages of a run of indices absent.
fn release_run(arena: &mut Arena, starts: &mut [u16], blank: u16, from: usize)
    requires kept { IsKept arena.old starts.old blank }
    requires page { blank % 256 ≡ 0 }
    requires within { from + RUN ≤ 256 }
    requires before { AreBlank starts.old blank from }
    ensures { IsKept arena.new starts.new blank × AreBlank starts.new blank (from + RUN) }
{
    for index in from..from + RUN {
        let start = starts[index];
        if start != blank {
            arena.release(number_of(start));
            starts[index] = blank;
        }
    }
}
