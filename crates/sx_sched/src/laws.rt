//! What holds of the lines of a schedule. Each law is a function that does nothing: its contract is
//! the law.

ghost use Rattle.sx_sched.specs.Laws.{SaidInForm, TextIsSaid};

/// What a text says is in form for the names.
pub fn said_in_form()
    ensures { SaidInForm }
{}

/// The text of a line that is in form says this line.
pub fn text_is_said()
    ensures { TextIsSaid }
{}
