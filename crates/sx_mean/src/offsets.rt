//! Where things lie in the private section of a compiled module: offsets in bytes from its start.

ghost use Rattle.std.specs.Prelude.{◌≡◌, ◌<◌, ◌≤◌};
ghost use Rattle.sx_mean.specs.Offsets.{cell_at, end_at, end_key_at, end_number_at, end_open_at};
ghost use Rattle.sx_mean.specs.Working.{local_at, saved_at};

/// The event's value.
pub const EVENT: u16 = 2;

/// The count of pieces that an invocation has made.
pub const PIECES: u16 = 4;

/// The copied packet, 40 bytes.
pub const PACKET: u16 = 16;

/// The plain body of a copied set-key packet: the connection's key, 16 bytes.
pub const PLAIN: u16 = 56;

/// The first of sixteen locals.
pub const LOCALS: u16 = 72;

/// What only templates use, up to the stack.
pub const SCRATCH: u16 = 104;

/// The first byte of the stack's place.
pub const STACK_FROM: u16 = 152;

/// The byte after the stack's place, from which the stack grows down.
pub const STACK_TO: u16 = 512;

/// The words that the stack holds at most.
pub const STACK_WORDS: u16 = 160;

/// The first byte of the ends' slots.
pub const SLOTS: u16 = 512;

/// The bytes of an end's slot.
pub const SLOT_SIZE: u16 = 24;

/// The word that keeps the caller's register, one of R12 to R15.
pub fn saved_at(register: u8) -> u16
    requires least { 12 ≤ register }
    requires most { register ≤ 15 }
    ensures { result ≡ saved_at register }
{
    2 * u16::from(register) - 18
}

/// The word of a local. A handler has at most 16.
pub fn local_at(index: usize) -> u16
    requires { index < 16 }
    ensures { result ≡ local_at index }
{
    LOCALS + 2 * index as u16
}

/// The slot of the end of this index: its connection field.
pub fn end_at(end: u8) -> u16
    ensures { result ≡ end_at end }
{
    SLOTS + SLOT_SIZE * u16::from(end)
}

/// The number in an end's slot.
pub fn end_number_at(end: u8) -> u16
    ensures { result ≡ end_number_at end }
{
    end_at(end) + 2
}

/// The word in an end's slot that tells whether the end is open: 0 where it is closed.
pub fn end_open_at(end: u8) -> u16
    ensures { result ≡ end_open_at end }
{
    end_at(end) + 4
}

/// The key in an end's slot.
pub fn end_key_at(end: u8) -> u16
    ensures { result ≡ end_key_at end }
{
    end_at(end) + 8
}

/// The word of the cell of this index, after the slots of `ends` ends.
pub fn cell_at(ends: usize, cell: usize) -> u16
    requires few_ends { ends ≤ 16 }
    requires few_cells { cell ≤ 1024 }
    ensures { result ≡ cell_at ends cell }
{
    (usize::from(SLOTS) + usize::from(SLOT_SIZE) * ends + 2 * cell) as u16
}
