//! The line `load`: a deployed image is put into memory and protected.

ghost use Rattle.std.specs.Prelude.{◌≡◌, ℕ, ◌+◌, ◌/◌, ◌<◌, ◌≤◌, length, slice_get, Some};
ghost use Rattle.spec_machine.specs.State.{State};
ghost use Rattle.sx_world.specs.Held.{DoesAct, boots_of};
ghost use Rattle.sx_observe.specs.InMemory.{setting_in};
ghost use Rattle.sx_world.specs.Loading.{after_loading};
ghost use Rattle.spec_run.specs.Run.{protect_registers};
ghost use Rattle.spec_run.specs.Run as run;
ghost use Rattle.spec_run.specs.Setting.{Setting as AnySetting, Site as Placed};

use crate::registers::Register;
use crate::running::Running;
use std::alloc::AllocError;
use sx_bus::Copied;
use sx_observe::recording::push_item;
use sx_observe::settings::Setting;
use sx_observe::sites::Site;
use sx_tag::Tag;
use sx_trace::items::Item;

/// How many bytes of an image are put at once.
const PIECE: usize = 1024;

/// The instruction that protects a module.
const PROTECT: [u8; 2] = [0x81, 0x13];

/// What the instruction that protects a module is given; it is at address 0.
fn protect_registers(site: &Site) -> [Register; 6]
    ensures { result ≡ protect_registers site.now }
{
    let layout = &site.layout;
    [
        Register::new(9, site.provider),
        Register::new(10, layout.pub_from),
        Register::new(11, layout.pub_to),
        Register::new(12, layout.priv_from),
        Register::new(13, layout.priv_to),
        Register::new(0, 0),
    ]
}

impl<B: Copied, T: Tag> Running<B, T> {
    /// An image is put from an address on, piece by piece.
    fn put_pieces(
        &mut self,
        n: u8,
        at: u16,
        bytes: &[u8],
        items: &mut Vec<Item>,
    ) -> Result<(), AllocError>
        requires node { n < length self.old.nodes }
        requires within { at + length bytes.now ≤ 65536 }
        ensures does { (set : AnySetting) → DoesAct set result self.old self.new items.old.items
            items.new.items
            (run.put_pieces n ((length bytes.now + 1023) / 1024) at bytes.now) }
        ensures boots { boots_of self.new.nodes ≡ boots_of self.old.nodes }
        ensures steps { self.new.steps ≡ self.old.steps }
    {
        for i in 0..bytes.len().div_ceil(PIECE) {
            let start = i * PIECE;
            let end = bytes.len().min(start + PIECE);
            let to = (usize::from(at) + start) as u16;
            self.put_on(n, to, &bytes[start..end], items)?;
        }
        Ok(())
    }

    /// An image is put, and protected by an instruction at address 0.
    fn put_and_protect(
        &mut self,
        setting: &Setting<'_>,
        site: &Site,
        items: &mut Vec<Item>,
    ) -> Result<(), AllocError>
        requires node { site.now.node < length self.old.nodes }
        requires boot { (s : State) → slice_get self.old.nodes site.now.node ≡ Some s
            → s.boot < u32.MAX }
        requires steps { self.old.steps < u64.MAX }
        requires text { site.now.layout.pub_from + length site.now.text ≤ 65536 }
        ensures { DoesAct (setting_in T.mac setting.now) result
            self.old self.new items.old.items items.new.items
            (after_loading (setting_in T.mac setting.now) site.now) }
    {
        let n = site.node;
        self.put_pieces(n, site.layout.pub_from, &site.text, items)?;
        self.put_on(n, 0, &PROTECT, items)?;
        self.set_all(n, &protect_registers(site), items)?;
        self.steps_of(setting, n, 1, false, None, items)
    }

    /// A module's image is put and protected, unless a module of its node runs.
    pub(crate) fn load(
        &mut self,
        setting: &Setting<'_>,
        m: u8,
        items: &mut Vec<Item>,
    ) -> Result<(), AllocError>
        requires known { m < length setting.now.sites.now }
        requires node { (site : Placed) → slice_get setting.now.sites.now m ≡ Some site
            → site.node < length self.old.nodes }
        requires boot { (n : ℕ) (s : State) → slice_get self.old.nodes n ≡ Some s
            → s.boot < u32.MAX }
        requires steps { self.old.steps < u64.MAX }
        requires text { (site : Placed) → slice_get setting.now.sites.now m ≡ Some site
            → site.layout.pub_from + length site.text ≤ 65536 }
        ensures { DoesAct (setting_in T.mac setting.now) result
            self.old self.new items.old.items items.new.items
            (λ w. run.load (setting_in T.mac setting.now) w
            (slice_get setting.now.sites.now m)) }
    {
        let sites = setting.sites;
        let site = &sites[usize::from(m)];
        if self.is_idle(site.node) {
            self.put_and_protect(setting, site, items)
        } else {
            push_item(items, Item::Busy { node: site.node })
        }
    }
}
