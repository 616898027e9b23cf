//! What holds of the lines of items. The law is a function that does nothing: its contract is the
//! law.

ghost use Rattle.sx_trace.specs.Laws.{ItemsDiffer};

/// No two items have one line.
pub fn items_differ()
    ensures { ItemsDiffer }
{}
