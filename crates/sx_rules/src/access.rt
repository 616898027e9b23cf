//! What code may do to a byte.

ghost use Rattle.std.specs.Prelude.{◌≡◌, ◌/◌, ◌^◌, if◌then◌else◌, IfSome};
ghost use Rattle.std.specs.List.{list_all};
ghost use Rattle.sx_rules.specs.Access.{in_public, in_private, at_entry, allows, holder};
ghost use Rattle.sx_rules.specs.Access.{section_of};
ghost use Rattle.sx_rules.specs.Pages.{meeting, answer};

use crate::section::Section;

/// What code does to a byte.
#[derive(Clone, Copy, Debug, PartialEq, Eq)]
pub enum Access {
    /// Reads it as data.
    Read,
    /// Writes it.
    Write,
    /// Runs it as a part of an instruction.
    Run,
}

/// What the live sections are asked about a byte.
#[derive(Clone, Copy)]
pub enum Question {
    /// Whether code of the module `own` may access it.
    Allows { own: u16, access: Access },
    /// Whether it lies outside the private part.
    OutsidePrivate,
    /// Whether an instruction of the module `cur` may lead to it.
    InOrder { cur: u16 },
    /// Whether it may belong to an extension word of an instruction of the module `own`.
    Extends { own: u16 },
}

/// Why a node was reset.
#[derive(Clone, Copy, Debug, PartialEq, Eq)]
pub enum Violation {
    /// A module was entered elsewhere than at its entry.
    Order,
    /// An instruction was fetched from a place where it may not be.
    Fetch,
    /// A byte was read that may not be read.
    Read,
    /// A byte was written that may not be written.
    Write,
    /// A device was used otherwise than its kind allows.
    Device,
    /// The word is no legal instruction.
    Illegal,
    /// A buffer of a module instruction passes the end of memory, or has more bytes than it may.
    Range,
}

impl Section {
    /// Whether the byte lies in the public part.
    pub fn in_public(&self, at: u16) -> bool
        ensures { result ≡ in_public self.now at }
    {
        self.layout.pub_from <= at && at < self.layout.pub_to
    }

    /// Whether the byte lies in the private part.
    pub fn in_private(&self, at: u16) -> bool
        ensures { result ≡ in_private self.now at }
    {
        self.layout.priv_from <= at && at < self.layout.priv_to
    }

    fn at_entry(&self, at: u16) -> bool
        ensures { result ≡ at_entry self.now at }
    {
        self.layout.pub_from <= at && at - self.layout.pub_from < 2
    }

    fn allows(&self, own: u16, access: Access, at: u16) -> bool
        ensures { result ≡ allows own access at self.now }
    {
        match access {
            Access::Read => !self.in_private(at) || own == self.id,
            Access::Write => !self.in_public(at) && (!self.in_private(at) || own == self.id),
            Access::Run => {
                !self.in_private(at) && (!self.in_public(at) || own == self.id || self.at_entry(at))
            }
        }
    }

    /// Its id where the byte lies in the public part, else 0.
    fn held(&self, at: u16) -> u16
        ensures { result ≡ if in_public self.now at then self.now.id else 0 }
    {
        if self.in_public(at) { self.id } else { 0 }
    }

    /// What it says to the question about a byte.
    fn answer(&self, question: Question, at: u16) -> bool
        ensures { result ≡ answer question at self.now }
    {
        match question {
            Question::Allows { own, access } => self.allows(own, access, at),
            Question::OutsidePrivate => !self.in_private(at),
            Question::InOrder { cur } => {
                !self.in_public(at) || cur == self.id || at == self.layout.pub_from
            }
            Question::Extends { own } => {
                !self.in_private(at) && (!self.in_public(at) || own == self.id)
            }
        }
    }
}

/// The place of the bit that alone is set, if one is.
fn only_bit(bits: u8) -> Option<usize>
    ensures { IfSome result (λ place. bits ≡ 2 ^ place) }
{
    match bits {
        1 => Some(0),
        2 => Some(1),
        4 => Some(2),
        8 => Some(3),
        16 => Some(4),
        32 => Some(5),
        64 => Some(6),
        128 => Some(7),
        _ => None,
    }
}

/// Whether every section says yes to the question about a byte. Bit i of `near` tells whether the
/// i-th meets the byte's page; the others aren't asked, and one that alone meets it isn't looked
/// for.
#[tactic(auto, using(crate::proofs::Away::ends_asked, crate::proofs::Away::only_answers))]
pub fn all_answer(live: &[Section], near: u8, question: Question, at: u16) -> bool
    requires { near ≡ meeting (at / 256) live.now }
    ensures { result ≡ list_all (answer question at) live.now }
{
    if near == 0 {
        return true;
    }
    if let Some(place) = only_bit(near) {
        if place < live.len() {
            return live[place].answer(question, at);
        }
    }
    each_answers(live, near, question, at)
}

/// The same, of one section after the other.
#[inline(never)]
fn each_answers(live: &[Section], near: u8, question: Question, at: u16) -> bool
    requires { near ≡ meeting (at / 256) live.now }
    ensures { result ≡ list_all (answer question at) live.now }
{
    let mut rest = near;
    for s in live {
        if rest == 0 {
            return true;
        }
        if rest % 2 == 1 && !s.answer(question, at) {
            return false;
        }
        rest /= 2;
    }
    true
}

/// The id of the section whose public part holds the byte, else 0. Only those are looked at whose
/// bit in `near` is set, as in `all_answer`.
#[tactic(auto, using(crate::proofs::Away::ends_held, crate::proofs::Away::only_holds))]
pub fn holder(live: &[Section], near: u8, at: u16) -> u16
    requires { near ≡ meeting (at / 256) live.now }
    ensures { result ≡ holder live.now at }
{
    if near == 0 {
        return 0;
    }
    if let Some(place) = only_bit(near) {
        if place < live.len() {
            return live[place].held(at);
        }
    }
    first_holder(live, near, at)
}

/// The same, looking at one section after the other.
#[inline(never)]
fn first_holder(live: &[Section], near: u8, at: u16) -> u16
    requires { near ≡ meeting (at / 256) live.now }
    ensures { result ≡ holder live.now at }
{
    let mut rest = near;
    for s in live {
        if rest == 0 {
            return 0;
        }
        if rest % 2 == 1 && s.in_public(at) {
            return s.id;
        }
        rest /= 2;
    }
    0
}

/// The section with this id. `None` exactly where no module has it.
pub fn section_of(live: &[Section], id: u16) -> Option<Section>
    ensures { result ≡ section_of live.now id }
{
    for s in live {
        if s.id == id {
            return Some(*s);
        }
    }
    None
}
