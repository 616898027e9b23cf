//! What holds of the set-up of an honest run. Each law is a function that does nothing: its
//! contract is the law.

ghost use Rattle.law_setup.specs.Laws.{AcceptedSetUp, SetUp, SetUpFits};
ghost use Rattle.law_setup.specs.Worked.{LightingSetUp};

/// From power-on the set-up's lines show what the source predicts.
pub fn set_up()
    ensures { SetUp }
{}

/// So it is for each deployment that is accepted, from its text on.
pub fn accepted_set_up()
    ensures { AcceptedSetUp }
{}

/// The set-up's lines are few, and in form.
pub fn set_up_fits()
    ensures { SetUpFits }
{}

/// The lines of a worked set-up.
pub fn lighting_set_up()
    ensures { LightingSetUp }
{}
