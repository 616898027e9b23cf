//! Decoding by what is kept.
//!
//! What a first word says depends on nothing else, so what was decoded once is kept for the next
//! time, whatever was written to memory in between.

ghost use Rattle.std.specs.Prelude.{◌≡◌, ◌<◌, false, None, MatchOption, IfSome, IsTrue, length};
ghost use Rattle.sx_isa.specs.Reading.{length_of};
ghost use Rattle.spec_machine.specs.Step.{is_module_word};

use crate::decoded::Decoded;
use crate::executor::Executor;
use crate::shortcut::Shortcut;
use sx_bus::Bus;

/// How many decoded words are kept.
pub(crate) const PLACES: usize = 256;

/// How many shortcuts are kept.
pub(crate) const SHORTCUT_PLACES: usize = 4096;

/// Where the first word at an address is kept.
fn place_of(at: u16) -> usize
    ensures { result < PLACES }
{
    usize::from(at / 2 % 256)
}

/// Where the shortcut of the word at an address is kept. Modules begin at round addresses, so these
/// are spread.
#[inline(always)]
fn shortcut_place_of(at: u16) -> usize
    ensures { result < SHORTCUT_PLACES }
{
    usize::from(at) * 5 / 8 % 4096
}

/// Keeps a decoded word, in the place of another one.
fn keep(kept: &mut [Decoded], at: u16, decoded: Decoded)
    requires { length kept.old ≡ PLACES }
{
    let place = place_of(at);
    kept[place] = decoded;
}

/// Keeps a shortcut, in the place of another one.
fn keep_shortcut(kept: &mut [Shortcut], at: u16, shortcut: Shortcut)
    requires { length kept.old ≡ SHORTCUT_PLACES }
{
    let place = shortcut_place_of(at);
    kept[place] = shortcut;
}

#[inline(always)]
fn shortcut_at(kept: &[Shortcut; SHORTCUT_PLACES], at: u16) -> &Shortcut {
    &kept[shortcut_place_of(at)]
}

/// What is kept for an address, if it is this word.
#[inline(always)]
fn found(kept: &[Decoded; PLACES], at: u16, first: u16) -> Option<&Decoded>
    ensures { IfSome result (λ decoded. decoded.now.first ≡ first) }
{
    let decoded = &kept[place_of(at)];
    if decoded.first == first {
        return Some(decoded);
    }
    None
}

impl<B: Bus> Executor<B> {
    /// The shortcut that is kept for an address. Its first word may be another than is there.
    #[inline(always)]
    pub fn shortcut(&self, at: u16) -> &Shortcut {
        shortcut_at(&self.shortcuts, at)
    }

    /// Whether the shortcut that is kept for an address is that of this word. Then the word is no
    /// module instruction's.
    #[inline(always)]
    pub fn has_shortcut(&self, at: u16, first: u16) -> bool
        ensures { IsTrue result → is_module_word first ≡ false }
    {
        self.shortcut(at).first == first
    }

    /// The first word as it was decoded before at the address, if it is kept.
    #[inline(always)]
    pub fn kept(&self, at: u16, first: u16) -> Option<&Decoded>
        ensures { IfSome result (λ decoded. decoded.now.first ≡ first) }
    {
        found(&self.decoded, at, first)
    }

    /// Decodes a first word, and keeps it for the address, with its shortcut if it has one. None
    /// exactly where no instruction has it.
    pub fn decode(&mut self, at: u16, first: u16) -> Option<Decoded>
        ensures decoded { MatchOption result
            (length_of first ≡ None) (λ decoded. decoded.first ≡ first) }
        ensures same { self.new ≡ self.old }
    {
        let decoded = Decoded::new(first)?;
        keep(&mut self.decoded, at, decoded);
        self.learn_shortcut(at, &decoded);
        Some(decoded)
    }

    /// Keeps the shortcut of a decoded word for an address, if it has one. What was decoded at
    /// another address with the same place is kept for this one too, so its shortcut isn't there.
    pub fn learn_shortcut(&mut self, at: u16, decoded: &Decoded)
        ensures { self.new ≡ self.old }
    {
        if let Some(shortcut) = decoded.shortcut {
            keep_shortcut(&mut self.shortcuts, at, shortcut);
        }
    }
}
