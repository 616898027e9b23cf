//! The line `call`: a deployed module is called.

ghost use Rattle.std.specs.Prelude.{◌≡◌, ℕ, ◌+◌, ◌<◌, ◌≤◌, length, slice_get, Some};
ghost use Rattle.spec_machine.specs.State.{State};
ghost use Rattle.sx_world.specs.Held.{DoesAct};
ghost use Rattle.sx_observe.specs.InMemory.{setting_in};
ghost use Rattle.spec_run.specs.Run.{call_registers};
ghost use Rattle.spec_run.specs.Run as run;
ghost use Rattle.spec_run.specs.Setting.{Site as Placed};

use crate::registers::Register;
use crate::running::Running;
use std::alloc::AllocError;
use sx_bus::Copied;
use sx_observe::recording::push_item;
use sx_observe::settings::Setting;
use sx_observe::sites::Site;
use sx_tag::Tag;
use sx_trace::items::Item;

/// What a called module is given: its entry, its windows, no place to return to, and where its code
/// begins.
fn call_registers(site: &Site, entry: u16, input: u16, output: u16) -> [Register; 5]
    ensures { result ≡ call_registers site.now entry input output }
{
    [
        Register::new(12, entry),
        Register::new(13, input),
        Register::new(14, output),
        Register::new(15, 0),
        Register::new(0, site.layout.pub_from),
    ]
}

impl<B: Copied, T: Tag> Running<B, T> {
    /// A module is called at an entry with two windows, unless a module of its node runs.
    pub(crate) fn call(
        &mut self,
        setting: &Setting<'_>,
        m: u8,
        entry: u16,
        input: u16,
        output: u16,
        items: &mut Vec<Item>,
    ) -> Result<(), AllocError>
        requires known { m < length setting.now.sites.now }
        requires node { (site : Placed) → slice_get setting.now.sites.now m ≡ Some site
            → site.node < length self.old.nodes }
        requires boot { (n : ℕ) (s : State) → slice_get self.old.nodes n ≡ Some s
            → s.boot < u32.MAX }
        requires steps { self.old.steps + run.FINISH_STEPS ≤ u64.MAX }
        ensures { DoesAct (setting_in T.mac setting.now) result
            self.old self.new items.old.items items.new.items
            (λ w. run.call (setting_in T.mac setting.now) w entry input output
            (slice_get setting.now.sites.now m)) }
    {
        let sites = setting.sites;
        let site = &sites[usize::from(m)];
        if !self.is_idle(site.node) {
            return push_item(items, Item::Busy { node: site.node });
        }
        let registers = call_registers(site, entry, input, output);
        self.set_all(site.node, &registers, items)?;
        self.finish(setting, site.node, items)
    }
}
