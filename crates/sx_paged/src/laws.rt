//! What holds of every paged memory. The law is a function that does nothing: its contract is the
//! law.

ghost use Rattle.sx_paged.specs.Laws.{PresentGrows};

/// A write makes one page where the address had none, and else none.
pub fn present_grows()
    ensures { PresentGrows }
{}
