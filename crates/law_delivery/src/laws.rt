//! What holds of the honest run of readings. Each law is a function that does nothing: its contract
//! is the law.

ghost use Rattle.law_delivery.specs.Laws.{
  AcceptedRunDelivers,
  HonestFits,
  HonestRunDelivers,
  HonestShows,
};

/// The lines of an honest run show exactly the items of its course.
pub fn honest_shows()
    ensures { HonestShows }
{}

/// What an honest run shows delivers: each value that is sent is taken once, nothing is forged, and
/// the outputs are those that the source alone predicts.
pub fn honest_run_delivers()
    ensures { HonestRunDelivers }
{}

/// So it is for each deployment that is accepted, with images that realize its modules.
pub fn accepted_run_delivers()
    ensures { AcceptedRunDelivers }
{}

/// The lines of an honest run are as many as its course says, and in form.
pub fn honest_fits()
    ensures { HonestFits }
{}
