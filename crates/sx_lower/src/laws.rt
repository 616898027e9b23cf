//! What holds of lowered code. Each law is a function that does nothing: its contract is the law.

ghost use Rattle.sx_lower.specs.Lowering.{LoweredFits, LoweredReacts};
ghost use Rattle.sx_lower.specs.Moved.{LoweredMoves};

/// Each handler's part does the handler, within its cost.
pub fn lowered_reacts()
    ensures { LoweredReacts }
{}

/// Lowered code that is moved is the code that is lowered there.
pub fn lowered_moves()
    ensures { LoweredMoves }
{}

/// Lowered code is sound and keeps within its bytes, wherever it is.
pub fn lowered_fits()
    ensures { LoweredFits }
{}
