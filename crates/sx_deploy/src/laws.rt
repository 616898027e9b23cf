//! What holds of every text. Each law is a function that does nothing: its contract is the law.

ghost use Rattle.sx_deploy.specs.Law.{OneMeaning, SomeMeaning};

/// No text has two meanings.
pub fn one_meaning()
    ensures { OneMeaning }
{}

/// Each text has a meaning.
pub fn some_meaning()
    ensures { SomeMeaning }
{}
