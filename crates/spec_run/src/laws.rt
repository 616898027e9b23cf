//! What holds of every run. Each law is a function that does nothing: its contract is the law.

ghost use Rattle.spec_run.specs.AcceptedLaw.{AcceptedRunsAreGiven, AcceptedRunsFinish};
ghost use Rattle.spec_run.specs.AcceptedLaw.{AcceptedRunsInOrder, AcceptedRunsLegal};
ghost use Rattle.spec_run.specs.AcceptedLaw.{AcceptedRunsTakeBehind, AcceptedRunsTakeTurns};
ghost use Rattle.spec_run.specs.Law.{RunsLegal};
ghost use Rattle.spec_run.specs.OrderLaw.{RunsAreGiven, RunsFinish, RunsInOrder};
ghost use Rattle.spec_run.specs.OrderLaw.{RunsTakeBehind, RunsTakeTurns};
ghost use Rattle.spec_run.specs.Renewed.{RenewsAsTheModel};

/// Every run of lines in form is a legal run of the source, up to its first forged item.
pub fn runs_legal()
    ensures { RunsLegal }
{}

/// In such a run each act comes in the order in which its handler does it.
pub fn runs_in_order()
    ensures { RunsInOrder }
{}

/// After an event of a module began, its node shows nothing but the module's outputs, until the
/// module is done or the node is reset.
pub fn runs_take_turns()
    ensures { RunsTakeTurns }
{}

/// What a sensor gives is below 32,768, and what is written is a word.
pub fn runs_are_given()
    ensures { RunsAreGiven }
{}

/// An event is finished, with all that its handler emits put out in order, before its node shows
/// anything else, unless the node is reset.
pub fn runs_finish()
    ensures { RunsFinish }
{}

/// What a handler emits before it sends was put out before the word is taken.
pub fn runs_take_behind()
    ensures { RunsTakeBehind }
{}

/// From text to trace: every run of an accepted deployment, whose images realize its modules, is a
/// legal run of its sources, up to its first forged item.
pub fn accepted_runs_legal()
    ensures { AcceptedRunsLegal }
{}

/// From text to trace, each act comes in the order in which its handler does it.
pub fn accepted_runs_in_order()
    ensures { AcceptedRunsInOrder }
{}

/// From text to trace, a node shows one event at a time.
pub fn accepted_runs_take_turns()
    ensures { AcceptedRunsTakeTurns }
{}

/// From text to trace, what is given and what is written is in range.
pub fn accepted_runs_are_given()
    ensures { AcceptedRunsAreGiven }
{}

/// From text to trace, an event is finished before its node shows anything else.
pub fn accepted_runs_finish()
    ensures { AcceptedRunsFinish }
{}

/// From text to trace, what a handler emits before it sends was put out before the word is taken.
pub fn accepted_runs_take_behind()
    ensures { AcceptedRunsTakeBehind }
{}

/// A deployer that keeps the ends of an application's modules renews as the source model does.
pub fn renews_as_the_model()
    ensures { RenewsAsTheModel }
{}
