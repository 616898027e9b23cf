//! What holds of every entry. The law is a function that does nothing: its contract is the law.

ghost use Rattle.sx_ledger.specs.Laws.{EntryTellsMade};

/// An entry tells its header and its body, so different ones have different entries.
pub fn entry_tells_made()
    ensures { EntryTellsMade }
{}
