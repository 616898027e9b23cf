//! What holds of honest runs over the source. Each law is a function that does nothing: its
//! contract is the law.

ghost use Rattle.spec_honest.specs.Laws.{DeliveriesAreEnough, HonestDelivers};
ghost use Rattle.spec_honest.specs.Worked.{LightingPredicted};

/// The items of an honest run are legal, and nothing goes wrong in them; what was sent over each
/// connection is taken from it once and in order; and the outputs are those of the plain fold.
pub fn honest_delivers()
    ensures { HonestDelivers }
{}

/// More deliveries than are due change nothing, and 21,845 at each reading are enough for every run
/// of at most 65,536 lines.
pub fn deliveries_are_enough()
    ensures { DeliveriesAreEnough }
{}

/// The predicted items of the lighting application, from its set-up to the lamp's output.
pub fn lighting_predicted()
    ensures { LightingPredicted }
{}
