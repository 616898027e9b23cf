//! What holds of the workload. Each law is a function that does nothing: its contract is the law.

ghost use Rattle.sx_bulk.specs.Laws.{Accepted, WellFormed};

/// The deployment is accepted.
pub fn accepted()
    ensures { Accepted }
{}

/// Each line keeps the rules of a schedule.
pub fn well_formed()
    ensures { WellFormed }
{}
