//! What a closed table shows.

ghost use Rattle.law_never.specs.Laws.{ClosedKeeps, NeverAccepted};

/// With a closed table no legal run breaks the property, whatever its handlers do within the ways.
pub fn closed_keeps()
    ensures { ClosedKeeps }
{}

/// From the text on: a property that no run breaks is broken in no run of an accepted deployment
/// with this application.
pub fn never_accepted()
    ensures { NeverAccepted }
{}
