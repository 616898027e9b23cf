//! How rare forgeries are. Each law is a function that does nothing: its contract is the law.

ghost use Rattle.law_rarity.specs.Accepted.{AcceptedSeldomErrs};
ghost use Rattle.law_rarity.specs.Covering.{AllHaveBoots};
ghost use Rattle.law_rarity.specs.Erring.{DistinguisherSeldomErrs, ForgersAreTold};
ghost use Rattle.law_rarity.specs.Names.{NamedHasNames};
ghost use Rattle.law_rarity.specs.Once.{PadsOnce};
ghost use Rattle.law_rarity.specs.Places.{PlacesRarelyHit, PlacesUnseen};
ghost use Rattle.law_rarity.specs.Rare.{ForgeriesAreRare};

/// In a setting whose nodes hold names, the key of each module is its name.
pub fn named_has_names()
    ensures { NamedHasNames }
{}

/// Of all tables at most the part q / 2^128 leads to a run that hits before its q-th moment.
pub fn forgeries_are_rare()
    ensures { ForgeriesAreRare }
{}

/// The entries that are listed are of boots that a name can have.
pub fn all_have_boots()
    ensures { AllHaveBoots }
{}

/// Over the tags of the key tree the distinguisher says whether the first `forged` comes before an
/// `attested` or an `open`.
pub fn forgers_are_told()
    ensures { ForgersAreTold }
{}

/// Over a random table it seldom does.
pub fn distinguisher_seldom_errs()
    ensures { DistinguisherSeldomErrs }
{}

/// So it is for every accepted deployment, from its text on.
pub fn accepted_seldom_errs()
    ensures { AcceptedSeldomErrs }
{}

/// Until a `forged` is shown no pad is used twice.
pub fn pads_once()
    ensures { PadsOnce }
{}

/// Which keys are in the place of those of connections is unseen, as long as none of them is used.
pub fn places_unseen()
    ensures { PlacesUnseen }
{}

/// Few tables of places have one that a run uses.
pub fn places_rarely_hit()
    ensures { PlacesRarelyHit }
{}
