//! What holds of the sections of every table that admissions and removals lead to. Each law is a
//! function that does nothing: its contract is the law, for all lists of sections.

ghost use Rattle.sx_rules.specs.Laws.{StartsPlaced, AdmitKeepsPlaced, RemoveKeepsPlaced};
ghost use Rattle.sx_rules.specs.Laws.{RemoveRemoves, PlacedBeside, PlacedFound, PlacedHolds};

/// The sections of a new table are placed.
pub fn starts_placed()
    ensures { StartsPlaced }
{}

/// Admitting a section that no rule refuses keeps the sections placed.
pub fn admit_keeps_placed()
    ensures { AdmitKeepsPlaced }
{}

/// Removing a section keeps the sections placed.
pub fn remove_keeps_placed()
    ensures { RemoveKeepsPlaced }
{}

/// A removed section isn't live any more.
pub fn remove_removes()
    ensures { RemoveRemoves }
{}

/// Two live sections of different ids don't meet.
pub fn placed_beside()
    ensures { PlacedBeside }
{}

/// A live section is found by its id.
pub fn placed_found()
    ensures { PlacedFound }
{}

/// A live section holds the bytes of its public part.
pub fn placed_holds()
    ensures { PlacedHolds }
{}
