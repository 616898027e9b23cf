//! The trait of tags.

ghost use Rattle.std.specs.Prelude.{◌≡◌, ℕ, ◌≤◌, List, [], ◌++◌, length};
ghost use Rattle.sx_tag.specs.Mac.{IsTag};

/// A function of a key and a message that gives 32 bytes, fed piece by piece.
pub trait Tag: Drop {
    /// A run that was begun with a key and takes the message.
    type Run: Drop;

    ghost mac: { List ℕ → List ℕ → List ℕ };

    // The run was begun with this key, and fed this message.
    ghost has: { Self.Run → List ℕ → List ℕ → Type 0 };

    /// A tag of its own with the same function.
    fn another(&self) -> Self;

    /// Says that runs with this key are begun next, so that a tag may keep one to begin them from.
    fn keep(&mut self, key: &[u8; 16]);

    /// A run with this key, of at most 64 bytes, and the empty message.
    fn begin(&self, key: &[u8]) -> Self::Run
        requires { length key.now ≤ 64 }
        ensures { has result key.now [] };

    /// A run of its own with the same key and message.
    fn copy(&self, run: &Self::Run) -> Self::Run
        ensures { (key message : List ℕ) → has run.now key message → has result key message };

    /// Appends a part to the message.
    fn feed(&self, run: &mut Self::Run, part: &[u8])
        ensures { (key message : List ℕ) → has run.old key message
            → has run.new key (message ++ part.now) };

    /// The tag of the key and the whole message.
    fn finish(&self, run: Self::Run) -> [u8; 32]
        ensures { (key message : List ℕ) → has run key message → result ≡ mac key message };

    // Each tag has 32 bytes, each below 256.
    ghost is_tag: { IsTag mac };
}
