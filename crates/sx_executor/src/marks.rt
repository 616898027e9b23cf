//! The marks of vacant pages.

ghost use Rattle.std.specs.Prelude.{◌≡◌, ◌<◌, ◌≤◌, ◌+◌, ◌/◌, ◌==◌, ◌&&◌, not, nat_lt, ℕ, false, []};
ghost use Rattle.std.specs.Prelude.{length, slice_index_or};
ghost use Rattle.sx_bus.specs.Windows.{has_place};
ghost use Rattle.sx_executor.specs.Occupancy.{is_bare, is_vacant, IsVacantIndex};

use sx_rules::Table;

/// How many pages the memory has, of 256 bytes each.
pub(crate) const PAGE_COUNT: usize = 256;

/// Whether there is such a page, and no section meets it.
fn is_open(table: &Table, page: u16) -> bool
    ensures { result ≡ is_bare table.now.live [] page }
{
    page < 256 && table.is_open(256 * page)
}

/// Marks each page that no section meets, nor the next one.
fn mark_open(marks: &mut [bool], table: &Table)
    requires { length marks.old ≤ PAGE_COUNT }
    ensures { (page : ℕ) → page < length marks.new → slice_index_or marks.new page false
        ≡ is_vacant table.now.live [] page }
{
    let mut here = is_open(table, 0);
    for (page, kept) in marks.iter_mut().enumerate() {
        let next = is_open(table, page as u16 + 1);
        *kept = here && next;
        here = next;
    }
}

/// Marks each page that has a next one.
fn mark_all(marks: &mut [bool])
    requires { length marks.old ≤ PAGE_COUNT }
    ensures { (page : ℕ) → page < length marks.new → slice_index_or marks.new page false
        ≡ nat_lt (page + 1) 256 }
{
    for (page, kept) in marks.iter_mut().enumerate() {
        *kept = page + 1 < PAGE_COUNT;
    }
}

/// Takes the marks of the page that a device is on and of the one before.
#[tactic(auto, using(crate::proofs::Marking::unmarked))]
fn unmark(marks: &mut [bool], place: u16)
    requires { length marks.old ≡ PAGE_COUNT }
    ensures { (page : ℕ) → slice_index_or marks.new page false ≡ (slice_index_or marks.old page false
        && (not (place / 256 == page) && not (place / 256 == page + 1))) }
{
    let page = usize::from(place / 256);
    marks[page] = false;
    marks[page.saturating_sub(1)] = false;
}

#[tactic(auto, using(crate::proofs::Marking::turn))]
fn unmark_each(marks: &mut [bool], places: &[u16])
    requires { length marks.old ≡ PAGE_COUNT }
    ensures { (page : ℕ) → slice_index_or marks.new page false ≡ (slice_index_or marks.old page false
        && (not (has_place page places.now) && not (has_place (page + 1) places.now))) }
{
    for place in places {
        unmark(marks, *place);
    }
}

/// The marks beside these sections and the devices at these places.
#[tactic(auto, using(crate::proofs::Marking::beside))]
pub(crate) fn of(table: &Table, places: &[u16]) -> [bool; PAGE_COUNT]
    ensures { IsVacantIndex result table.now.live places.now }
{
    let mut marks = [false; PAGE_COUNT];
    mark_open(&mut marks, table);
    unmark_each(&mut marks, places);
    marks
}

/// The same where there is no section.
#[tactic(auto, using(crate::proofs::Marking::beside_devices))]
pub(crate) fn without_sections(places: &[u16]) -> [bool; PAGE_COUNT]
    ensures { IsVacantIndex result [] places.now }
{
    let mut marks = [false; PAGE_COUNT];
    mark_all(&mut marks);
    unmark_each(&mut marks, places);
    marks
}

/// Whether a page is marked, by an address on it.
#[inline(always)]
pub(crate) fn is_marked(marks: &[bool; PAGE_COUNT], at: u16) -> bool
    ensures { result ≡ slice_index_or marks.now (at / 256) false }
{
    marks[usize::from(at / 256)]
}
