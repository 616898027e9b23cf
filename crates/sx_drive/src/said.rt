//! What an honest run says.

use sx_sched::lines::Line;
use sx_trace::items::Item;

/// A line of the honest schedule, and what it showed.
#[derive(Drop)]
pub struct Said {
    /// The line.
    pub line: Line,
    /// The items that it showed, in order.
    pub items: Vec<Item>,
}

/// How far a part of an honest run came.
#[derive(Clone, Copy, PartialEq, Eq, Debug)]
pub enum Drove {
    /// To its end.
    Done,
    /// A line was due, but a schedule has room for 65,536 lines only.
    Long,
}
