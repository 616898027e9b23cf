//! What holds of every invocation of a module. Each law is a function that does nothing: its
//! contract is the law.

ghost use Rattle.spec_invocation.specs.Laws.{PiecesMarked, UnwrapsOnce};

/// An invocation unwraps at most once, before it makes any other mark.
pub fn unwraps_once()
    ensures { UnwrapsOnce }
{}

/// The pieces that were made have the bytes that the marks make: 24 for each wrap of an event, 16
/// for each wrap under the module's own key.
pub fn pieces_marked()
    ensures { PiecesMarked }
{}
