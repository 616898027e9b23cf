//! What holds of every run. Each law is a function that does nothing: its contract is the law.

ghost use Rattle.law_forgery.specs.Accepted.{AcceptedForged};
ghost use Rattle.law_forgery.specs.Forgery.{ForgedShown, ForgedUnmade};
ghost use Rattle.law_forgery.specs.Logged.{LedgerTells};
ghost use Rattle.law_forgery.specs.Named.{NamesAgree, TagsTabled};
ghost use Rattle.law_forgery.specs.Unseen.{KeysUnseen, PlayersSeeTheSame, RunsKeysUnseen};

/// Two settings that no tag tells apart show the same, whatever is done.
pub fn keys_unseen()
    ensures { KeysUnseen }
{}

/// So do the runs of a schedule.
pub fn runs_keys_unseen()
    ensures { RunsKeysUnseen }
{}

/// So does whatever is played by anyone who sees all but the keys of nodes and modules.
pub fn players_see_the_same()
    ensures { PlayersSeeTheSame }
{}

/// No tag tells a setting from the one whose nodes hold names in place of keys, and whose tags
/// under modules' names are in a table that has the tags of the first.
pub fn names_agree()
    ensures { NamesAgree }
{}

/// Names tell modules apart, so there is such a table.
pub fn tags_tabled()
    ensures { TagsTabled }
{}

/// The first `forged` of a run shows that a whole tag was accepted under the key that its header
/// calls for, and that nobody who holds the key wrapped what the tag is of.
pub fn forged_unmade()
    ensures { ForgedUnmade }
{}

/// There is a moment that shows the first `forged` among the items of a run.
pub fn forged_shown()
    ensures { ForgedShown }
{}

/// So is that of every run of a deployment that was accepted, from its text on.
pub fn accepted_forged()
    ensures { AcceptedForged }
{}

/// Until then each entry of the ledger is of the form that its maker makes, and whatever the code
/// of a deployed module wraps is entered.
pub fn ledger_tells()
    ensures { LedgerTells }
{}
