//! What each entry gives. Each law is a function that does nothing: its contract is the law.

ghost use Rattle.law_invocation.specs.Laws.{AttestReturns, FewMade, InputReturns, KeyReturns};
ghost use Rattle.law_invocation.specs.Laws.{SampleReturns};

/// In a valid application no event makes more than 16 packets.
pub fn few_made()
    ensures { FewMade }
{}

/// An ask is answered.
pub fn attest_returns()
    ensures { AttestReturns }
{}

/// A set-key packet opens an end that is closed.
pub fn key_returns()
    ensures { KeyReturns }
{}

/// An event packet is taken, and its handler runs.
pub fn input_returns()
    ensures { InputReturns }
{}

/// A fresh sensor is read, and the handler of samples runs.
pub fn sample_returns()
    ensures { SampleReturns }
{}
