//! What a module instruction tells the node that runs it.

/// What a module instruction did, for the node that runs it.
#[derive(Clone, Copy, Debug, PartialEq, Eq)]
pub enum SancusEvent {
    /// Nothing that others must know.
    Quiet,
    /// A module was protected under this id.
    Protected(u16),
    /// The module with this id removed itself.
    Removed(u16),
    /// The module wrapped a body.
    Wrapped,
    /// The module unwrapped a body, and the tag was right.
    Unwrapped,
}
