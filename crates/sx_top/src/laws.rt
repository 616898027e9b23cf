//! What holds of the commands that deploy, of two together. Each law is a function that does
//! nothing: its contract is the law.

ghost use Rattle.sx_top.specs.Laws.{LinesRunAgain, OneSetting};

/// `run`, `drive`, `snap`, `lines` and `batch` run a deployment in one setting, with the same
/// images, in each call. So `snap` answers about the run that `run` makes of the same lines.
pub fn one_setting()
    ensures { OneSetting }
{}

/// The lines that `drive` writes, given to `run` with the same deployment and images, give the same
/// items, and `end`.
pub fn lines_run_again()
    ensures { LinesRunAgain }
{}
