//! What holds of all tables. Each law is a function that does nothing: its contract is the law.

ghost use Rattle.law_counting.specs.Guesses.{FewGuessesHit};
ghost use Rattle.law_counting.specs.Meeting.{FewMeet};
ghost use Rattle.law_counting.specs.Pads.{CiphersAreRandom};

/// Of all tables the part that q attempts hit is at most q / width, for every player who tries
/// entries that he wasn't given, however he chooses.
pub fn few_guesses_hit()
    ensures { FewGuessesHit }
{}

/// A cipher under a random pad is as random as the pad, whatever the body is.
pub fn ciphers_are_random()
    ensures { CiphersAreRandom }
{}

/// Few tables have one of so many values, or one value twice.
pub fn few_meet()
    ensures { FewMeet }
{}
