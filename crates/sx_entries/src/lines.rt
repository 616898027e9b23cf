//! Lines of the table of rules, on entries that stay.
ghost use Rattle.std.specs.Prelude.{◌≡◌, Bool, List, []};
ghost use Rattle.sx_entries.specs.Lines.{entries, first_bad, whole};

use crate::fault::{DeployFault, Place, Sort, nth};

/// A line of the table that is tried on each entry, after those before it.
pub trait Line<T> {
    ghost bad: { Self → List T → T → Bool };

    /// Whether the entry breaks the line, by itself or with those before it.
    fn is_bad(&self, earlier: &[T], row: &T) -> bool
        ensures { result ≡ bad self.now earlier.now row.now };
}

fn first_bad<T, L: Line<T>>(line: &L, rows: &[T]) -> Option<usize>
    ensures { result ≡ first_bad (L.bad line.now) [] rows.now }
{
    for i in 0..rows.len() {
        if line.is_bad(&rows[..i], &rows[i]) {
            return Some(i);
        }
    }
    None
}

/// The first entry at which a line of the rule is broken.
pub fn entries<T, L: Line<T>>(rule: u8, sort: Sort, line: &L, rows: &[T]) -> Option<DeployFault>
    ensures { result ≡ entries rule sort (L.bad line.now) rows.now }
{
    match first_bad(line, rows) {
        Some(index) => Some(DeployFault {
            rule,
            place: nth(sort, index),
        }),
        None => None,
    }
}

/// A line of the rule that is tried once.
pub fn whole(rule: u8, sort: Sort, is_bad: bool) -> Option<DeployFault>
    ensures { result ≡ whole rule sort is_bad }
{
    if is_bad {
        Some(DeployFault {
            rule,
            place: Place::Kind(sort),
        })
    } else {
        None
    }
}
