//! What holds of the stub's code, whatever the module. Each law is a function that does nothing:
//! its contract is the law.

ghost use Rattle.sx_stub.specs.Invokes.{StubInvokes};
ghost use Rattle.sx_stub.specs.Joined.{JoinedInvokes};
ghost use Rattle.sx_stub.specs.Sound.{StubSound};
ghost use Rattle.sx_stub.specs.Weight.{StubFits};

/// The stub's code does an invocation, where each `Handler` does the handler of its event.
pub fn stub_invokes()
    ensures { StubInvokes }
{}

/// Joined with the handlers' parts it does an invocation.
pub fn joined_invokes()
    ensures { JoinedInvokes }
{}

/// The stub fits into the weight, beside 64 bytes for each node of the source.
pub fn stub_fits()
    ensures { StubFits }
{}

/// Templates can be made for the stub's operations, in all code that they are a part of.
pub fn stub_sound()
    ensures { StubSound }
{}
