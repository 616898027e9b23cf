//! What holds of the program's honest run. Each law is a function that does nothing: its contract
//! is the law.

ghost use Rattle.law_honest.specs.Laws.{
  AcceptedIsDriven,
  DrivenIsHonest,
  HonestIsDriven,
  ScheduleIsSaid,
};

/// The run says the first 65,536 lines of the honest schedule, each with what it shows; a line is
/// left out exactly if there are more.
pub fn schedule_is_said()
    ensures { ScheduleIsSaid }
{}

/// If the course of the readings has at most 65,536 lines, no line is left out: the run says the
/// honest schedule with what its lines show, which is what the source predicts, and so it delivers.
pub fn honest_is_driven()
    ensures { HonestIsDriven }
{}

/// If no line was left out, the readings have such a course.
pub fn driven_is_honest()
    ensures { DrivenIsHonest }
{}

/// So it is for each deployment that is accepted, with images that realize its modules.
pub fn accepted_is_driven()
    ensures { AcceptedIsDriven }
{}
