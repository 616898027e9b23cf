//! What holds of every text. Each law is a function that does nothing: its contract is the law.

ghost use Rattle.sx_lex.specs.Laws.{HasReading, OneReading};

/// A text has at most one list of tokens, with one place for each and one end.
#[tactic(auto, using(crate::proofs::Same::one_reading))]
pub fn one_reading()
    ensures { OneReading }
{}

/// Each text has a list of tokens, and an end.
pub fn has_reading()
    ensures { HasReading }
{}
