//! Where and why the search for a table gives up.

use std::alloc::{AllocError, AllocFailed};
use sx_span::intervals::Interval;
use sx_span::stop::Stop;
use sx_watch::topics::Topic;

/// Why the search gave up.
#[derive(Clone, Copy, PartialEq, Eq, Debug)]
pub enum Reason {
    /// The property may emit at the item.
    MayBreak,
    /// There are more rows than `MOST_ROWS`.
    TooManyRows,
    /// There are more places in all rows than `MOST_PLACES`.
    TooManyPlaces,
    /// There are more rounds than `MOST_ROUNDS`.
    TooManyRounds,
    /// There are too many paths through a handler.
    TooManyPaths,
    /// The table that was found doesn't pass the check.
    NotShown,
}

/// Where the search gave up.
#[derive(Drop)]
pub struct Gap {
    /// Why.
    pub reason: Reason,
    /// Where the property's cells lie in the row.
    pub cells: Vec<Interval>,
    /// What the item is about.
    pub topic: Topic,
}

/// What ends a search early.
#[derive(Clone, Copy)]
pub enum Halt {
    /// Memory ran out.
    OutOfMemory,
    /// It gives up.
    GivesUp(Reason),
}

impl From<AllocError> for Halt {
    ghost from_gives = { λ _ _. Unit {0} };

    fn from(_error: AllocError) -> Self {
        Halt::OutOfMemory
    }
}

impl<T: Drop> From<AllocFailed<T>> for Halt {
    ghost from_gives = { λ _ _. Unit {0} };

    fn from(_error: AllocFailed<T>) -> Self {
        Halt::OutOfMemory
    }
}

impl From<Stop> for Halt {
    ghost from_gives = { λ _ _. Unit {0} };

    fn from(stop: Stop) -> Self {
        match stop {
            Stop::OutOfMemory => Halt::OutOfMemory,
            Stop::TooManyPaths | Stop::IndexTooLarge => Halt::GivesUp(Reason::TooManyPaths),
        }
    }
}
