//! What holds of every run. Each law is a function that does nothing: its contract is the law.

ghost use Rattle.law_connections.specs.Accepted.{AcceptedUnseen};
ghost use Rattle.law_connections.specs.Choices.{ChoicesMove};
ghost use Rattle.law_connections.specs.Compiles.{CompiledAlways};
ghost use Rattle.law_connections.specs.Found.{KeysFound};
ghost use Rattle.law_connections.specs.Laws.{LinksUnseen, UnlinksAll};
ghost use Rattle.law_connections.specs.Worked.{LightingMeets};

/// The run of a schedule shows the same, up to the first `forged`, as that of each setting whose
/// connections have keys of their own, if no image shows a key, and unless code of no deployed
/// module guesses.
pub fn links_unseen()
    ensures { LinksUnseen }
{}

/// So does the run of every accepted deployment, from its text on.
pub fn accepted_unseen()
    ensures { AcceptedUnseen }
{}

/// For every choice of other keys there is a setting with these keys of its own that no tag tells
/// from the first, if no connection has a deployed module's key.
pub fn unlinks_all()
    ensures { UnlinksAll }
{}

/// Between the two nothing is guessed unless a key is found.
pub fn keys_found()
    ensures { KeysFound }
{}

/// Each list of keys with other keys in their place is such a choice.
pub fn choices_move()
    ensures { ChoicesMove }
{}

/// Compiled images realize their modules and show no key, whatever the tag function is.
pub fn compiled_always()
    ensures { CompiledAlways }
{}

/// A deployment and a schedule that meet the premises of these laws, and of those of law_forgery.
pub fn lighting_meets()
    ensures { LightingMeets }
{}
