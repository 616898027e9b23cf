//! What the statuses of `watch` say.

ghost use Rattle.command_watch.specs.Laws.{StatusesSaySo};

/// With status 0 no item of a whole trace breaks the property before the first that is forged, and
/// with status 12 one does.
pub fn statuses_say_so()
    ensures { StatusesSaySo }
{}
