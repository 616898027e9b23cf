//! What holds of wrapping by any tag. The law is a function that does nothing: its contract is the
//! law.

ghost use Rattle.sx_tag.specs.Laws.{UnwrapsWrapped};

/// What was wrapped is unwrapped under the same key and header.
pub fn unwraps_wrapped()
    ensures { UnwrapsWrapped }
{}
