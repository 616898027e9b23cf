//! Why a text is not assembled.

ghost use Rattle.std.specs.Prelude.{◌≡◌};

use std::alloc::AllocError;

/// Why a text gives no code.
#[derive(Clone, Copy, PartialEq, Eq, Debug)]
pub enum AsmError {
    /// The first of the five rules that the text breaks, and the first line that breaks it, from 1.
    /// 1: the text isn't in the grammar, has more than 262,144 bytes, or a line more than 4,096.
    /// 2: an operand isn't one of its instruction.
    /// 3: a name has no label, or a second one.
    /// 4: a jump's target is odd, or lies outside -512 to 511 words.
    /// 5: the address is odd, on line 1; or the code has more than 8,192 bytes or passes 0xFFFF.
    Fault { rule: u8, line: u32 },
    /// Memory ran out.
    OutOfMemory,
}

impl From<AllocError> for AsmError {
    ghost use Rattle.sx_asm.specs.declared.error.AsmError.TheVariants.{OutOfMemory};

    ghost from_gives = { λ _ e. e ≡ OutOfMemory };

    fn from(_error: AllocError) -> Self {
        AsmError::OutOfMemory
    }
}
