//! Which sections meet a page of memory.

ghost use Rattle.std.specs.Prelude.{◌≡◌, ◌≤◌, ◌<◌, ℕ, length, slice_index};
ghost use Rattle.sx_rules.specs.Pages.{reaches, meets, meeting};

use crate::section::Section;

/// How many pages the memory has.
pub const PAGE_COUNT: usize = 256;

fn reaches(from: u16, to: u16, page: u8) -> bool
    ensures { result ≡ reaches from to page }
{
    from / 256 <= u16::from(page) && 256 * u16::from(page) < to
}

impl Section {
    /// Whether one of its parts has bytes of the page.
    fn meets(&self, page: u8) -> bool
        ensures { result ≡ meets page self.now }
    {
        let layout = &self.layout;
        reaches(layout.pub_from, layout.pub_to, page)
            || reaches(layout.priv_from, layout.priv_to, page)
    }
}

/// The sections that meet the page: bit i of the result is set where the i-th does.
fn meeting(live: &[Section], page: u8) -> u8
    requires { length live.now ≤ 8 }
    ensures { result ≡ meeting page live.now }
{
    let mut meeting = 0;
    for i in (0..live.len()).rev() {
        meeting = 2 * meeting + u8::from(live[i].meets(page));
    }
    meeting
}

/// Keeps for each page which sections meet it.
pub fn index(pages: &mut [u8], live: &[Section])
    requires pages { length pages.old ≤ PAGE_COUNT }
    requires room { length live.now ≤ 8 }
    ensures { (page : ℕ) → page < length pages.new →
        slice_index pages.new page ≡ meeting page live.now }
{
    for (page, kept) in pages.iter_mut().enumerate() {
        *kept = meeting(live, page as u8);
    }
}
