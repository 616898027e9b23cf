//! The sections of a node, with what is known beside them: the home of the module whose code ran
//! last, and two gaps.

ghost use Rattle.std.specs.Prelude.{◌≡◌, ◌&&◌, ◌+◌, ◌<◌, ◌≤◌, ℕ, Bool, true, IsTrue, length};
ghost use Rattle.sx_rules.specs.declared.access.Access.{Access};
ghost use Rattle.sx_rules.specs.declared.access.Access.TheVariants.{Read, Write};
ghost use Rattle.sx_rules.specs.Access.{holder, in_order, extends};
ghost use Rattle.sx_rules.specs.Admission.{admitted, removed};
ghost use Rattle.spec_machine.specs.Memory.{even};
ghost use Rattle.spec_machine.specs.State.{no_sections};
ghost use Rattle.spec_machine.specs.Run.{may_at, may_range};
ghost use Rattle.spec_machine.specs.Step.{word_outside};
ghost use Rattle.sx_executor.specs.Homes.{KeepsHome};
ghost use Rattle.sx_executor.specs.Gaps.{IsApart};

use crate::gap::{Gap, Gaps};
use crate::home::Home;
use std::marker::Model;
use sx_rules::{Layout, Table};

/// How many misses pass between two at which a gap is learnt, or what all code may read. Where code
/// reads what a section holds, or goes between more than two gaps, learning at each would cost more
/// than it saves.
pub(crate) const MISSES_BETWEEN: u8 = 16;

/// A table, and a home and two gaps beside its sections. What changes the sections forgets these.
/// The next gap is learnt after `rest` more misses.
#[derive(Drop)]
pub(crate) struct Protection {
    table: Table,
    home: Home,
    gaps: Gaps,
    rest: u8,
}

impl Model for Protection {
    ghost use Rattle.sx_rules.specs.Access.{Sections};
    ghost use Rattle.sx_executor.specs.Homes.{KeepsHome};
    ghost use Rattle.sx_executor.specs.Gaps.{KeepsGaps};

    ghost Value = { Sections };

    ghost view = { λ p. p.table };

    ghost invariant = { λ p. KeepsHome p.home p.table.live
        × KeepsGaps p.gaps p.table.live };
}

impl Protection {
    /// No section, no home and no gap.
    pub(crate) fn new() -> Protection
        ensures { result ≡ no_sections }
    {
        Protection {
            table: Table::new(),
            home: Home::empty(),
            gaps: Gaps::empty(),
            rest: 0,
        }
    }

    /// The sections.
    #[inline(always)]
    pub(crate) fn table(&self) -> &Table
        ensures { result.now ≡ self.now }
    {
        &self.table
    }

    /// Whether the word at an address is known to be code of the module `id`.
    #[inline(always)]
    pub(crate) fn has_code(&self, id: u16, at: u16) -> bool
        ensures held { IsTrue result → holder self.now.live at ≡ id }
        ensures outside { IsTrue result → word_outside self.now.live at ≡ true }
        ensures order { IsTrue result → in_order self.now.live id at ≡ true }
        ensures extended { IsTrue result
            → (extends self.now.live id (even at) && extends self.now.live id (even at + 1)) ≡ true }
    {
        self.home.has_code(id, at)
    }

    /// Whether so many bytes from an address on, at least one, are known to be the module's own
    /// data.
    pub(crate) fn has_data_range(&self, id: u16, at: u16, count: u16) -> bool
        requires { at + count ≤ 65536 }
        ensures read { IsTrue result → may_range self.now.live id Read at count ≡ true }
        ensures write { IsTrue result → may_range self.now.live id Write at count ≡ true }
    {
        self.home.has_data_range(id, at, count)
    }

    /// Whether the word at an address is known to lie in a gap: no live section has a byte of it.
    #[inline(always)]
    pub(crate) fn has_gap(&self, at: u16) -> bool
        ensures reached { IsTrue result → (own : ℕ) (wide : Bool) (access : Access)
            → may_at wide self.now.live own access at ≡ true }
        ensures outside { IsTrue result → word_outside self.now.live at ≡ true }
        ensures order { IsTrue result → (cur : ℕ) → in_order self.now.live cur at ≡ true }
        ensures extended { IsTrue result → (own : ℕ)
            → (extends self.now.live own (even at) && extends self.now.live own (even at + 1)) ≡ true }
        ensures none { IsTrue result → holder self.now.live at ≡ 0 }
    {
        self.gaps.has(at)
    }

    /// Whether the words at an address and at the two after it are known to lie in a gap.
    #[inline(always)]
    pub(crate) fn has_deep_gap(&self, at: u16) -> bool
        ensures first { IsTrue result → IsApart self.now.live at }
        ensures second { IsTrue result → IsApart self.now.live (at + 2) }
        ensures third { IsTrue result → IsApart self.now.live (at + 4) }
        ensures ends { IsTrue result → at + 5 < 65536 }
    {
        self.gaps.has_deep(at)
    }

    /// The home.
    pub(crate) fn home(&self) -> &Home
        ensures { KeepsHome result.now self.now.live }
    {
        &self.home
    }

    /// Learns the home of a module, and forgets the one before.
    pub(crate) fn learn_home(&mut self, id: u16)
        ensures { self.new ≡ self.old }
    {
        self.home = Home::of(&self.table, id);
    }

    /// Learns the gap around a place, if it isn't known and no section holds the place; but not
    /// soon after the last time.
    #[inline(always)]
    pub(crate) fn learn_gap(&mut self, at: u16)
        ensures { self.new ≡ self.old }
    {
        if self.has_gap(at) {
            return;
        }
        if self.rest > 0 {
            self.rest -= 1;
            return;
        }
        self.rest = MISSES_BETWEEN;
        self.learn_gap_now(at);
    }

    #[inline(never)]
    fn learn_gap_now(&mut self, at: u16)
        ensures { self.new ≡ self.old }
    {
        let gap = Gap::around(&self.table, at);
        if gap.has(at) {
            self.gaps = self.gaps.with(gap);
        }
    }

    /// Adds a section, as `Table::add` does.
    pub(crate) fn add(&mut self, layout: Layout, provider: u16, key: [u8; 16]) -> u16
        requires room { length self.old.live < 8 }
        requires ids { self.old.next ≤ 65535 }
        ensures id { result ≡ self.old.next }
        ensures admitted { self.new ≡ admitted self.old layout provider key }
    {
        self.home = Home::empty();
        self.gaps = Gaps::empty();
        self.table.add(layout, provider, key)
    }

    /// Removes the section with the id, as `Table::remove` does.
    pub(crate) fn remove(&mut self, id: u16)
        ensures { self.new ≡ removed self.old id }
    {
        self.home = Home::empty();
        self.gaps = Gaps::empty();
        self.table.remove(id);
    }

    /// An equal one. Takes no memory.
    pub(crate) fn copy(&self) -> Protection
        ensures { result ≡ self.now }
    {
        Protection {
            table: self.table.copy(),
            home: self.home,
            gaps: self.gaps,
            rest: self.rest,
        }
    }
}
