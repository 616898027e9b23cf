//! Texts that take no memory.

ghost use Rattle.std.specs.Prelude.{◌≡◌, ◌+◌, ◌≤◌, ◌++◌, length};

use arrayvec::ArrayVec;

/// A text of at most 96 bytes.
pub type Text = ArrayVec<u8, 96>;

/// Appends a part that there is room for.
pub fn put<const N: usize>(text: &mut ArrayVec<u8, N>, part: &[u8])
    requires { length text.old.items + length part.now ≤ N }
    ensures { text.new.items ≡ text.old.items ++ part.now }
{
    match text.try_extend_from_slice(part) {
        Ok(()) => (),
        Err(_) => unreachable!(),
    }
}
