//! What holds of the entries of every document that keeps the rules 4 and 5. Each law is a function
//! that does nothing: its contract is the law.

ghost use Rattle.sx_entries.specs.Law.{EntriesKeep};

/// Names are in form and apart, no module is named `deployer`, what an entry names is there, and
/// providers are 16-bit words.
pub fn entries_keep()
    ensures { EntriesKeep }
{}
