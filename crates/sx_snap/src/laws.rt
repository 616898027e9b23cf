//! What holds of every run. The law is a function that does nothing: its contract is the law.

ghost use Rattle.sx_snap.specs.Laws.{ItemsAdd};

/// The items of a run are those of its lines, one after the other.
pub fn items_add()
    ensures { ItemsAdd }
{}
