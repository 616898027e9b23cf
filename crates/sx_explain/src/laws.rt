//! What holds of what a judge says. Each law is a function that does nothing: its contract is the
//! law.

ghost use Rattle.sx_explain.specs.Laws.{LegalHasCauses};
ghost use Rattle.sx_explain.specs.Laws.{IllegalIsRefused, JudgesLegal, LegalIsExplained};
ghost use Rattle.sx_explain.specs.Laws.{InOrderFinishes, InOrderTakesBehind};

/// In a legal trace each reading, taking and output has its cause before it, and from each output
/// causes lead to a sensor's value.
pub fn legal_has_causes()
    ensures { LegalHasCauses }
{}

/// In a trace that is legal up to its first forged item, a judge says of each reading, taking and
/// output before it which earlier item caused it.
pub fn legal_is_explained()
    ensures { LegalIsExplained }
{}

/// A judge finds nothing illegal exactly in the traces that are legal up to the first forged item.
pub fn judges_legal()
    ensures { JudgesLegal }
{}

/// Where a judge says of an item that it is illegal, the source doesn't allow it after the items
/// before it.
pub fn illegal_is_refused()
    ensures { IllegalIsRefused }
{}

/// In a trace that is legal with acts in their order, each word that is taken was sent by an event,
/// and what its handler emits before the sending was put out since that event began.
pub fn in_order_takes_behind()
    ensures { InOrderTakesBehind }
{}

/// Where besides a node shows one event at a time, an event is finished, with all that its handler
/// emits put out in order, before its node shows anything else, unless the node is reset.
pub fn in_order_finishes()
    ensures { InOrderFinishes }
{}
