//! What a run asks. Each law is a function that does nothing: its contract is the law.

ghost use Rattle.law_forgery.specs.Unseen.{KeysUnseen};
ghost use Rattle.law_uses.specs.Fresh.{ForgedWasNotGiven, UnmadeWasNotGiven};
ghost use Rattle.law_uses.specs.GivenLogged.{GivenAreLogged, HeldAreLogged};
ghost use Rattle.law_uses.specs.Hit.{ForgedIsHit, ModuleTagsHitFresh};
ghost use Rattle.law_uses.specs.Tried.{UnwrapsAreTried};
ghost use Rattle.law_uses.specs.Unasked.{UnaskedIsUnseen};
ghost use Rattle.law_uses.specs.UsesAlone.{UsesAlone};
ghost use Rattle.law_uses.specs.Whole.{AgreeingAnswerAlike, KeysAreHeld, RunsAlone, ScriptsAlone};
ghost use Rattle.law_uses.specs.Whole.{SizesAreAlike};

/// A run depends on nothing of the tag function but the answers to its uses.
pub fn uses_alone()
    ensures { UsesAlone }
{}

/// Until a `forged` each tag over `T` that is given under a deployed module's key is entered.
pub fn given_are_logged()
    ensures { GivenAreLogged }
{}

/// So does a whole script, if all its uses have the same answers.
pub fn scripts_alone()
    ensures { ScriptsAlone }
{}

/// And the run of a schedule.
pub fn runs_alone()
    ensures { RunsAlone }
{}

/// Settings that no tag tells apart answer all uses alike.
pub fn agreeing_answer_alike()
    ensures { AgreeingAnswerAlike }
{}

/// What is wrapped has the same size under lawful tag functions.
pub fn sizes_are_alike()
    ensures { SizesAreAlike }
{}

/// Under a tag function that derives the same keys all keys are the same.
pub fn keys_are_held()
    ensures { KeysAreHeld }
{}

/// A tag that no moment gives, and that each try misses, shows in nothing.
pub fn unasked_is_unseen()
    ensures { UnaskedIsUnseen }
{}

/// What nobody wrapped under a module's key no moment before gave.
pub fn unmade_was_not_given()
    ensures { UnmadeWasNotGiven }
{}

/// So what the first `forged` accepts under a module's key was given at no moment before.
pub fn forged_was_not_given()
    ensures { ForgedWasNotGiven }
{}

/// What a deployed module's code gives under a key that it holds is entered, too.
pub fn held_are_logged()
    ensures { HeldAreLogged }
{}

/// Each unwrap of a run is a try that was right.
pub fn unwraps_are_tried()
    ensures { UnwrapsAreTried }
{}

/// The moment that shows the first `forged` tries a tag that is right.
pub fn forged_is_hit()
    ensures { ForgedIsHit }
{}

/// Where the first `forged` comes before an `attested` or an `open`, its tag was given at no moment
/// before.
pub fn module_tags_hit_fresh()
    ensures { ModuleTagsHitFresh }
{}

/// The law `keys_unseen` of law_forgery, as a case of this.
pub fn keys_unseen_so()
    ensures { KeysUnseen }
{}
