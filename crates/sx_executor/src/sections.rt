//! The sections, the module whose code runs, and whether another one may be admitted.

ghost use Rattle.std.specs.Prelude.{◌≡◌, ◌<◌, ◌≤◌, length, OnOk};
ghost use Rattle.std.specs.Result.{result_err};
ghost use Rattle.sx_bus.specs.Devices.{places_of};
ghost use Rattle.sx_rules.specs.Access.{holder, section_of};
ghost use Rattle.sx_rules.specs.Admission.{refusal};

use crate::executor::Executor;
use sx_bus::Bus;
use sx_rules::{Layout, Refusal, Section};

impl<B: Bus> Executor<B> {
    /// The module whose public section holds the byte, else 0.
    pub fn holder(&self, at: u16) -> u16
        ensures { result ≡ holder self.now.sections.live at }
    {
        self.table().holder(at)
    }

    /// The live section with the id.
    pub fn section(&self, id: u16) -> Option<Section>
        ensures { result ≡ section_of self.now.sections.live id }
    {
        self.table().section(id)
    }

    /// The section of the module whose code runs.
    pub fn running(&self) -> Option<Section>
        ensures { result ≡ section_of self.now.sections.live self.now.own }
    {
        self.table().section(self.own())
    }

    /// Whether and why a module with this layout is refused. The error is the first refusal in the
    /// order of the table.
    pub fn test(&self, layout: Layout) -> Result<(), Refusal>
        ensures refused { result_err result
            ≡ refusal self.now.sections layout (places_of self.now.devices) }
        ensures room { OnOk result (length self.now.sections.live < 8) }
        ensures ids { OnOk result (self.now.sections.next ≤ 65535) }
    {
        self.table().test(layout, self.windows().places())
    }
}
