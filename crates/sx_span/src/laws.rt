//! What is computed of intervals holds of each value in them.

ghost use Rattle.sx_span.specs.Sound.{BoxKept, BoxesWiden, RangesHold, ReactSound};
ghost use Rattle.sx_span.specs.Worked.{CounterStays, LogicHasOne, LogicHasTwo};

/// An expression's value lies in its interval.
pub fn ranges_hold()
    ensures { RangesHold }
{}

/// What a module does at an event follows one of the paths.
pub fn react_sound()
    ensures { ReactSound }
{}

/// What the definitions give for some handlers.
pub fn worked()
    ensures two { LogicHasTwo }
    ensures one { LogicHasOne }
    ensures counter { CounterStays }
{}

/// What lies in a box lies in a box around it.
pub fn boxes_widen()
    ensures { BoxesWiden }
{}

/// Where each path's cells lie in a box, those of a state that follows one do.
pub fn box_kept()
    ensures { BoxKept }
{}
