//! What holds of every text of a property. Each law is a function that does nothing: its contract
//! is the law.

ghost use Rattle.sx_watch.specs.Laws.{OneProperty, SomeProperty};

/// No text has two meanings for a deployment.
pub fn one_property()
    ensures { OneProperty }
{}

/// Each text has a meaning for each deployment.
pub fn some_property()
    ensures { SomeProperty }
{}
