//! What holds of every module that keeps the rules. The law is a function that does nothing: its
//! contract is the law.

ghost use Rattle.sx_check.specs.Accepted.{Accepted};

/// A module that breaks no rule keeps each bound, declares no name twice, and uses each name as
/// what it is declared or as a local in sight.
pub fn accepted()
    ensures { Accepted }
{}
