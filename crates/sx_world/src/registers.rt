//! Registers that are set together.

ghost use Rattle.std.specs.Prelude.{◌≡◌, ◌<◌, length};
ghost use Rattle.sx_world.specs.Held.{DoesAct, boots_of};
ghost use Rattle.sx_world.specs.Loading.{AreSettable};
ghost use Rattle.spec_run.specs.Run as run;
ghost use Rattle.spec_run.specs.Setting.{Setting};

use crate::running::Running;
use std::alloc::AllocError;
use std::marker::Model;
use sx_bus::Copied;
use sx_tag::Tag;
use sx_trace::items::Item;

/// A register and the value that it gets.
#[derive(Drop)]
pub(crate) struct Register {
    number: u8,
    value: u16,
}

impl Model for Register {
    ghost use Rattle.spec_run.specs.Run.{Register as Set};

    ghost Value = { Set };

    ghost view = { λ r. record { number = r.number; value = r.value } };
}

impl Register {
    /// This register, to get this value.
    pub(crate) fn new(number: u8, value: u16) -> Register
        ensures { result ≡ run.register number value }
    {
        Register { number, value }
    }
}

impl<B: Copied, T: Tag> Running<B, T> {
    /// Registers of a node are set one after the other.
    pub(crate) fn set_all(
        &mut self,
        n: u8,
        registers: &[Register],
        items: &mut Vec<Item>,
    ) -> Result<(), AllocError>
        requires node { n < length self.old.nodes }
        requires settable { AreSettable registers.now }
        ensures does { (set : Setting) → DoesAct set result self.old self.new items.old.items
            items.new.items
            (run.set_all n registers.now) }
        ensures boots { boots_of self.new.nodes ≡ boots_of self.old.nodes }
        ensures steps { self.new.steps ≡ self.old.steps }
    {
        for register in registers {
            self.set_on(n, register.number, register.value, items)?;
        }
        Ok(())
    }
}
