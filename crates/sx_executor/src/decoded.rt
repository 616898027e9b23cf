//! First words that were decoded.

ghost use Rattle.std.specs.Prelude.{◌≡◌, ℕ, None, Some, MatchOption};
ghost use Rattle.std.proofs.Props.{props};
ghost use Rattle.sx_isa.specs.Reading.{instruction_at, length_of};
ghost use Rattle.sx_isa.specs.Extending.{extended};
ghost use Rattle.sx_executor.specs.Reads.{IsDecoded};

use crate::shortcut::Shortcut;
use sx_isa::{Instr, decode};

/// A first word that was decoded: its instruction with extension words of 0, how many words that
/// has, and the shortcut of the word, if it has one.
#[derive(Clone, Copy)]
pub struct Decoded {
    pub first: u16,
    pub instruction: Instr,
    pub words: u8,
    pub shortcut: Option<Shortcut>,
    pub ghost read: { IsDecoded first instruction words } by { Prim.hlevel props },
}

impl Decoded {
    /// None exactly where no instruction has the first word.
    #[tactic(auto, unfolding(sx_isa::specs::Reading::length_of))]
    pub(crate) fn new(first: u16) -> Option<Decoded>
        ensures { MatchOption result (length_of first ≡ None) (λ decoded. decoded.first ≡ first) }
    {
        let (instruction, words) = decode(first, 0, 0)?;
        let shortcut = Shortcut::new(first, instruction, words);
        Some(Decoded {
            first,
            instruction,
            words,
            shortcut,
        })
    }

    /// A jump to itself: what is where nothing was decoded yet.
    pub(crate) fn idle() -> Decoded {
        Decoded {
            first: 0x3fff,
            instruction: Instr::Jump {
                cond: 7,
                offset: -1,
            },
            words: 1,
            shortcut: None,
        }
    }

    /// The first word is that of this instruction with any extension words. Those past its own
    /// don't matter.
    pub fn reads_on(&self)
        ensures { (second third : ℕ) → instruction_at self.now.first second third ≡ Some (record {
          0 = extended self.now.instruction second third;
          1 = self.now.words;
        }) }
    {}
}
