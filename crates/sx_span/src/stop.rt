//! Why an answer wasn't found.

ghost use Rattle.std.specs.Prelude.{◌≡◌};

use std::alloc::{AllocError, AllocFailed};

/// Why an answer wasn't found.
#[derive(Clone, Copy, PartialEq, Eq, Debug)]
pub enum Stop {
    /// Memory ran out.
    OutOfMemory,
    /// There are too many paths.
    TooManyPaths,
    /// An index is above 255.
    IndexTooLarge,
}

impl From<AllocError> for Stop {
    ghost use Rattle.sx_span.specs.declared.stop.Stop.TheVariants.{OutOfMemory};

    ghost from_gives = { λ _ e. e ≡ OutOfMemory };

    fn from(_error: AllocError) -> Self {
        Stop::OutOfMemory
    }
}

impl<T: Drop> From<AllocFailed<T>> for Stop {
    ghost use Rattle.sx_span.specs.declared.stop.Stop.TheVariants.{OutOfMemory};

    ghost from_gives = { λ _ e. e ≡ OutOfMemory };

    fn from(_error: AllocFailed<T>) -> Self {
        Stop::OutOfMemory
    }
}

/// More paths than these are not followed.
pub const MOST_PATHS: usize = 4096;
