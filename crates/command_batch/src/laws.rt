//! What an answer is of what `run` writes. The law is a function that does nothing: its contract is
//! the law.

ghost use Rattle.command_batch.specs.Laws.{AnswersAreRuns};

/// An answer is what `run` writes of the common lines and the schedule after them, less the items
/// of the common lines.
pub fn answers_are_runs()
    ensures { AnswersAreRuns }
{}
