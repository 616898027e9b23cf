//! Why parsing stops.

ghost use Rattle.std.specs.Prelude.{◌≡◌};

use std::alloc::{AllocError, AllocFailed};
use sx_lex::tokens::Placed;

/// Why reading stops.
#[derive(Drop)]
pub enum Stop {
    /// At this token, or at the end of the text.
    Fault(Option<Placed>),
    /// Memory ran out.
    Memory,
}

/// What is in front of the tokens, and the tokens that follow it.
pub type Front<'a, T> = Result<(T, &'a [Placed]), Stop>;

impl From<AllocError> for Stop {
    ghost use Rattle.sx_parse.specs.declared.stop.Stop.TheVariants.{Memory};

    ghost from_gives = { λ _ e. e ≡ Memory };

    fn from(_error: AllocError) -> Self {
        Stop::Memory
    }
}

impl<T: Drop> From<AllocFailed<T>> for Stop {
    ghost use Rattle.sx_parse.specs.declared.stop.Stop.TheVariants.{Memory};

    ghost from_gives = { λ _ e. e ≡ Memory };

    fn from(_error: AllocFailed<T>) -> Self {
        Stop::Memory
    }
}
