//! What holds of every call. Each law is a function that does nothing: its contract is the law.

ghost use Rattle.law_calls.specs.FourCalls.{SetKeyReturns, AttestCalled, KeyCalled, InputCalled};
ghost use Rattle.law_calls.specs.FourCalls.{SampleCalled};
ghost use Rattle.law_calls.specs.Laws.{CallableInRuns, CallReturns, CallViolates, NeverBudget};
ghost use Rattle.law_calls.specs.Laws.{MarksGoOn};

/// In every run, a protected module on whose node no module runs is callable.
pub fn callable_in_runs()
    ensures { CallableInRuns }
{}

/// A call whose invocation returns does what the invocation says.
pub fn call_returns()
    ensures { CallReturns }
{}

/// A call whose invocation ends in a violation resets the node.
pub fn call_violates()
    ensures { CallViolates }
{}

/// In every run, no `call` of a protected module, and no `finish` from its entry, shows `budget`,
/// if no module runs on the node before.
pub fn never_budget()
    ensures { NeverBudget }
{}

/// Marks show no reset, no refusal and no want of steps.
pub fn marks_go_on()
    ensures { MarksGoOn }
{}

/// A set-key packet of the deployer opens an end that is closed.
pub fn set_key_returns()
    ensures { SetKeyReturns }
{}

/// An ask is answered.
pub fn attest_called()
    ensures { AttestCalled }
{}

/// A set-key packet that the deployer made opens an end.
pub fn key_called()
    ensures { KeyCalled }
{}

/// An event packet that its sender made is taken.
pub fn input_called()
    ensures { InputCalled }
{}

/// A fresh sensor is read.
pub fn sample_called()
    ensures { SampleCalled }
{}
