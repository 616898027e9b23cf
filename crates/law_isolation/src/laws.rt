//! What holds of every run. Each law is a function that does nothing: its contract is the law.

ghost use Rattle.law_isolation.specs.Laws.{RunsArePerformed, ScriptsGuarded, RunsGuarded, RunsBlind};
ghost use Rattle.law_isolation.specs.Laws.{RunsKeep};

/// The run of a schedule is its script, performed.
pub fn runs_are_performed()
    ensures { RunsArePerformed }
{}

/// Whatever a script does, each thing that happens reads and changes no private section, but an
/// instruction of that section's own code.
pub fn scripts_guarded()
    ensures { ScriptsGuarded }
{}

/// The run of a schedule is guarded.
pub fn runs_guarded()
    ensures { RunsGuarded }
{}

/// If none of a section's own instructions comes, worlds that differ in its private bytes alone
/// show the same.
pub fn runs_blind()
    ensures { RunsBlind }
{}

/// If none of a section's own instructions comes, it keeps its private bytes, unless its node is
/// reset.
pub fn runs_keep()
    ensures { RunsKeep }
{}
