//! The table of live sections.

ghost use Rattle.std.specs.Prelude.{◌≡◌, ◌<◌, ◌≤◌, ◌+◌, ◌-◌, ◌/◌, ℕ, [], ◌∷◌, ◌++◌, take, drop};
ghost use Rattle.std.specs.Prelude.{length, is_some, Option, None, IfOk, OnOk, OnErr, MatchOption};
ghost use Rattle.std.specs.List.{list_all};
ghost use Rattle.std.specs.Bool.{OnTrue};
ghost use Rattle.std.specs.Result.{result_err};
ghost use Rattle.sx_rules.specs.Access.{may, holder, outside_private, in_order, extends};
ghost use Rattle.sx_rules.specs.Access.{section_of};
ghost use Rattle.sx_rules.specs.Words.{both_bytes};
ghost use Rattle.sx_rules.specs.Admission.{refusal, admitted, removed, without};
ghost use Rattle.sx_rules.specs.Pages.{meeting, is_open, answer, IsFree};
ghost use Rattle.sx_rules.specs.Unused.{AreUnused};

use crate::access::{self, Access, Question};
use crate::admission::{self, LAST_ID, LIVE_LIMIT, Refusal};
use crate::pages::{self, PAGE_COUNT};
use crate::section::{Layout, Section};
use std::marker::Model;

/// The live sections of one boot, at most 8, and the next id.
#[derive(Drop)]
pub struct Table {
    sections: [Section; LIVE_LIMIT],
    live: usize,
    next: u32,
    /// For each page the sections that meet it.
    pages: [u8; PAGE_COUNT],
}

impl Model for Table {
    ghost use Rattle.std.specs.Prelude.{take, ◌≤◌};
    ghost use Rattle.sx_rules.specs.Access.{Sections};
    ghost use Rattle.sx_rules.specs.Pages.{IsPageIndex};
    ghost use Rattle.sx_rules.specs.Unused.{AreUnused};

    ghost Value = { Sections };

    ghost view = { λ t. record { live = take t.live t.sections; next = t.next } };

    ghost invariant = { λ t. (t.live ≤ 8) × (t.next ≤ 65536) × AreUnused t.live t.sections
        × IsPageIndex t.pages (take t.live t.sections) };
}

const UNUSED: Section = Section {
    layout: Layout {
        pub_from: 0,
        pub_to: 0,
        priv_from: 0,
        priv_to: 0,
    },
    provider: 0,
    id: 0,
    key: [0; 16],
};

impl Table {
    /// A table with no section, whose next id is 1.
    pub fn new() -> Table
        ensures live { result.live ≡ [] }
        ensures next { result.next ≡ 1 }
    {
        Table {
            sections: [UNUSED; LIVE_LIMIT],
            live: 0,
            next: 1,
            pages: [0; PAGE_COUNT],
        }
    }

    /// Adds a section under the next id, which it gives back, on a node whose devices are at
    /// `places`. After a refusal the table is unchanged. Sancus 2.0 protects modules; the list of
    /// refusals is our own.
    pub fn admit(
        &mut self,
        layout: Layout,
        provider: u16,
        key: [u8; 16],
        places: &[u16],
    ) -> Result<u16, Refusal>
        ensures refused { result_err result ≡ refusal self.old layout places.now }
        ensures id { IfOk result (λ id. id ≡ self.old.next) }
        ensures admitted { OnOk result (self.new ≡ admitted self.old layout provider key) }
        ensures unchanged { OnErr result (self.new ≡ self.old) }
    {
        self.test(layout, places)?;
        Ok(self.add(layout, provider, key))
    }

    /// Adds a section that `test` doesn't refuse under the next id, which it gives back.
    pub fn add(&mut self, layout: Layout, provider: u16, key: [u8; 16]) -> u16
        requires room { length self.old.live < LIVE_LIMIT }
        requires ids { self.old.next ≤ LAST_ID }
        ensures id { result ≡ self.old.next }
        ensures admitted { self.new ≡ admitted self.old layout provider key }
    {
        let id = self.next as u16;
        let section = Section {
            layout,
            provider,
            id,
            key,
        };
        place(&mut self.sections, self.live, section);
        self.live += 1;
        self.next += 1;
        pages::index(&mut self.pages, &self.sections[..self.live]);
        id
    }

    /// Whether `admit` would refuse the section, and why. The error is the first refusal in the
    /// order of the table.
    pub fn test(&self, layout: Layout, places: &[u16]) -> Result<(), Refusal>
        ensures refused { result_err result ≡ refusal self.now layout places.now }
        ensures room { OnOk result (length self.now.live < LIVE_LIMIT) }
        ensures ids { OnOk result (self.now.next ≤ LAST_ID) }
    {
        match admission::first_refusal(&self.sections[..self.live], self.next, &layout, places) {
            Some(refusal) => Err(refusal),
            None => Ok(()),
        }
    }

    /// Removes the section with the id, and says whether it was there. The others keep their order,
    /// and no id is given again.
    pub fn remove(&mut self, id: u16) -> bool
        ensures there { result ≡ is_some (section_of self.old.live id) }
        ensures removed { self.new ≡ removed self.old id }
    {
        match index_of(&self.sections[..self.live], id) {
            Some(index) => {
                remove_at(&mut self.sections[..self.live], index);
                self.live -= 1;
                pages::index(&mut self.pages, &self.sections[..self.live]);
                true
            }
            None => false,
        }
    }

    /// The id of the section whose public part holds the byte, else 0.
    pub fn holder(&self, at: u16) -> u16
        ensures { result ≡ holder self.now.live at }
    {
        access::holder(self.live(), self.near(at), at)
    }

    /// The live sections, in the order of their admission.
    pub fn live(&self) -> &[Section]
        ensures { result.now ≡ self.now.live }
    {
        &self.sections[..self.live]
    }

    /// The live section with the id.
    pub fn section(&self, id: u16) -> Option<Section>
        ensures { result ≡ section_of self.now.live id }
    {
        access::section_of(&self.sections[..self.live], id)
    }

    /// Whether code of the module `cur`, or code outside every module where it is 0, may access the
    /// byte. This is the access table of Sancus 2.0.
    #[tactic(auto, unfolding(crate::specs::Access::may))]
    pub fn may(&self, cur: u16, access: Access, at: u16) -> bool
        ensures { result ≡ may self.now.live cur access at }
    {
        self.all_answer(Question::Allows { own: cur, access }, at)
    }

    /// Whether it may access both bytes of the word at an address, whose bit 0 doesn't count.
    #[tactic(auto, unfolding(crate::specs::Access::may))]
    pub fn may_word(&self, cur: u16, access: Access, at: u16) -> bool
        ensures { result ≡ both_bytes (may self.now.live cur access) at }
    {
        self.all_answer_word(Question::Allows { own: cur, access }, at)
    }

    /// Whether no private section holds the byte.
    pub fn outside_private(&self, at: u16) -> bool
        ensures { result ≡ outside_private self.now.live at }
    {
        self.all_answer(Question::OutsidePrivate, at)
    }

    /// Whether no private section holds a byte of the word at an address, whose bit 0 doesn't
    /// count.
    pub fn outside_private_word(&self, at: u16) -> bool
        ensures { result ≡ both_bytes (outside_private self.now.live) at }
    {
        self.all_answer_word(Question::OutsidePrivate, at)
    }

    /// Whether PC lies in no public section other than that of `cur`, or at the entry of one.
    pub fn in_order(&self, cur: u16, pc: u16) -> bool
        ensures { result ≡ in_order self.now.live cur pc }
    {
        self.all_answer(Question::InOrder { cur }, pc)
    }

    /// Whether a byte of an extension word of an instruction of the module `own` may be here: in
    /// unprotected memory or in the public section of `own`. No section is that of `own` 0.
    pub fn extends(&self, own: u16, at: u16) -> bool
        ensures { result ≡ extends self.now.live own at }
    {
        self.all_answer(Question::Extends { own }, at)
    }

    /// Whether both bytes of the word at an address, whose bit 0 doesn't count, may be there as
    /// an extension word of an instruction of the module `own`.
    pub fn extends_word(&self, own: u16, at: u16) -> bool
        ensures { result ≡ both_bytes (extends self.now.live own) at }
    {
        self.all_answer_word(Question::Extends { own }, at)
    }

    /// Whether no section meets the page of the byte. Then every byte of the page is free: no live
    /// section holds it.
    pub fn is_open(&self, at: u16) -> bool
        ensures open { result ≡ is_open self.now.live (at / 256) }
        ensures free { OnTrue result ((byte : ℕ) →
            byte / 256 ≡ at / 256 → IsFree self.now.live byte) }
    {
        self.near(at) == 0
    }

    /// The sections that meet the page of the byte: bit i of the result is set where the i-th does.
    fn near(&self, at: u16) -> u8
        ensures { result ≡ meeting (at / 256) self.now.live }
    {
        self.pages[usize::from(at / 256)]
    }

    /// Whether every live section says yes to the question about a byte.
    fn all_answer(&self, question: Question, at: u16) -> bool
        ensures { result ≡ list_all (answer question at) self.now.live }
    {
        access::all_answer(self.live(), self.near(at), question, at)
    }

    /// The same for both bytes of the word at an address, which lie on one page.
    fn all_answer_word(&self, question: Question, at: u16) -> bool
        ensures { result ≡ both_bytes (λ byte. list_all (answer question byte) self.now.live) at }
    {
        let even = at - at % 2;
        let near = self.near(at);
        access::all_answer(self.live(), near, question, even)
            && access::all_answer(self.live(), near, question, even + 1)
    }

    /// An equal table. Takes no memory.
    pub fn copy(&self) -> Table
        ensures { result ≡ self.now }
    {
        Table {
            sections: self.sections,
            live: self.live,
            next: self.next,
            pages: self.pages,
        }
    }
}

#[tactic(auto, using(std::proofs::lemmas::List::take_more_set))]
fn place(sections: &mut [Section], at: usize, section: Section)
    requires { at < length sections.old }
    ensures placed { take (at + 1) sections.new ≡ take at sections.old ++ section ∷ [] }
    ensures unused { AreUnused at sections.old → AreUnused (at + 1) sections.new }
{
    sections[at] = section;
}

fn index_of(live: &[Section], id: u16) -> Option<usize>
    ensures there { is_some result ≡ is_some (section_of live.now id) }
    ensures index { MatchOption result (without live.now id ≡ live.now)
        (λ index. (index < length live.now) × (without live.now id
        ≡ take index live.now ++ drop (index + 1) live.now)) }
{
    for (index, section) in live.iter().enumerate() {
        if section.id == id {
            return Some(index);
        }
    }
    None
}

/// Takes the section at the index out, so that the last slot is unused.
fn remove_at(live: &mut [Section], index: usize)
    requires { index < length live.old }
    ensures removed { take (length live.old - 1) live.new
        ≡ take index live.old ++ drop (index + 1) live.old }
    ensures unused { AreUnused (length live.old - 1) live.new }
{
    close_gap(live, index);
    let last = live.len() - 1;
    live[last] = UNUSED;
}

fn close_gap(live: &mut [Section], index: usize)
    requires { index < length live.old }
    ensures { take (length live.old - 1) live.new
        ≡ take index live.old ++ drop (index + 1) live.old }
{
    live[index..].rotate_left(1);
}
