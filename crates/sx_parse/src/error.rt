//! Why a text is not parsed, and where.

ghost use Rattle.std.specs.Prelude.{◌≡◌};

use std::alloc::AllocError;

/// The place of a text's first fault: line and byte column from 1. One above 4,294,967,295 is given
/// as that number.
#[derive(Clone, Copy, PartialEq, Eq, Debug)]
pub struct ParseFault {
    /// The line.
    pub line: u32,
    /// The byte of the line.
    pub column: u32,
}

/// Why a text isn't parsed.
#[derive(Drop, Debug)]
pub enum ParseError {
    /// The text is no module. The fault is its first token that can't follow the tokens before it,
    /// or that breaks a bound; the end of the text counts as a token.
    Fault(ParseFault),
    /// Memory ran out.
    OutOfMemory,
}

impl From<AllocError> for ParseError {
    ghost use Rattle.sx_parse.specs.declared.error.ParseError.TheVariants.{OutOfMemory};

    ghost from_gives = { λ _ e. e ≡ OutOfMemory };

    fn from(_error: AllocError) -> Self {
        ParseError::OutOfMemory
    }
}
