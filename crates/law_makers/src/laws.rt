//! What makers of schedules see. Each law is a function that does nothing: its contract is the law.

ghost use Rattle.law_makers.specs.Impostors.{IdentitiesDiffer, ImpostorsHaveOtherNames};
ghost use Rattle.law_makers.specs.Impostors.{NamesAreUnlawful};
ghost use Rattle.law_makers.specs.LinkMakers.{LinkMakersSeeTheSame};
ghost use Rattle.law_makers.specs.Makers.{DistinguisherIsRun, DistinguisherKnowsNoKey};
ghost use Rattle.law_makers.specs.Makers.{MakersSeeTheSame};
ghost use Rattle.law_makers.specs.NamedSound.{NamedIsSound, RealizesUnder};
ghost use Rattle.law_makers.specs.Time.{RegistersShowNoLink, StepsShowNoKey};

/// A maker makes the same of two settings that no tag tells apart, and sees the same.
pub fn makers_see_the_same()
    ensures { MakersSeeTheSame }
{}

/// A maker who doesn't see into deployed modules makes the same of two settings whose connections
/// have keys of their own, as long as no `forged` is shown and nothing is guessed.
pub fn link_makers_see_the_same()
    ensures { LinkMakersSeeTheSame }
{}

/// Over an oracle that has the tags of the key tree the distinguisher says whether the run forges.
pub fn distinguisher_is_run()
    ensures { DistinguisherIsRun }
{}

/// The distinguisher is the same for all keys of nodes.
pub fn distinguisher_knows_no_key()
    ensures { DistinguisherKnowsNoKey }
{}

/// How many instructions lines take depends on no key of a node or a module.
pub fn steps_show_no_key()
    ensures { StepsShowNoKey }
{}

/// Registers depend on no key of a connection until the first `forged`.
pub fn registers_show_no_link()
    ensures { RegistersShowNoLink }
{}

/// Identities differ if texts or layouts do.
pub fn identities_differ()
    ensures { IdentitiesDiffer }
{}

/// A section that is no deployed module has another name than each deployed module.
pub fn impostors_have_other_names()
    ensures { ImpostorsHaveOtherNames }
{}

/// The tag function of a setting with names isn't lawful under names.
pub fn names_are_unlawful()
    ensures { NamesAreUnlawful }
{}

/// An image that realizes its module under each lawful tag function does so under one that is lawful
/// where it makes tags.
pub fn realizes_under()
    ensures { RealizesUnder }
{}

/// A setting with names is sound, so that the laws of runs hold of it.
pub fn named_is_sound()
    ensures { NamedIsSound }
{}
