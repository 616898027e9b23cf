//! What holds of every instruction and every code. Each law is a function that does nothing: its
//! contract is the law.

ghost use Rattle.sx_asm.specs.Laws.{Operands, Reassembles, RelistsLine, RelistsListing};

/// Rule 2 tests exactly what an instruction can read and write.
pub fn operands()
    ensures { Operands }
{}

/// The text of an instruction, assembled at its even address, gives the instruction's bytes.
pub fn reassembles()
    ensures { Reassembles }
{}

/// The line that `dis` shows, assembled at its even address, gives the bytes that it stands for;
/// and so do the lines of a whole listing, joined by newlines.
pub fn relists()
    ensures line { RelistsLine }
    ensures listing { RelistsListing }
{}
