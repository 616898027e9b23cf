//! Reads and writes of an instruction: the access table first, and then the device at the place.

ghost use Rattle.std.specs.Prelude.{◌≡◌, ◌<◌, ℕ, Bool, true, None, Ok, length};
ghost use Rattle.std.specs.Prelude.{IsTrue, IfOk, IfSome};
ghost use Rattle.sx_alu.specs.Table.{limit};
ghost use Rattle.sx_rules.specs.declared.access.Access.{Access};
ghost use Rattle.sx_rules.specs.declared.access.Access.TheVariants.{Read, Write};
ghost use Rattle.sx_rules.specs.Access.{holder, in_order};
ghost use Rattle.sx_bus.specs.Devices.{device_at};
ghost use Rattle.spec_machine.specs.Step.{word_outside};
ghost use Rattle.spec_machine.specs.Run.{may_at, with_touch, device_of, fetch, sampled};
ghost use Rattle.sx_executor.specs.Machine.{moment_of, extends_word, KeepsSections, Loads, Stores};
ghost use Rattle.sx_executor.specs.Occupancy.{IsAhead, IsExtension};

use crate::executor::Executor;
use spec_machine::Touch;
use sx_bus::{Bus, Kind, Window};
use sx_rules::{Access, Violation};

/// Puts a touch into the first place that is quiet.
fn note(touches: &mut [Touch; 2], touch: Touch)
    ensures { touches.new ≡ with_touch touches.old touch }
{
    match *touches {
        [Touch::Quiet, _] => touches[0] = touch,
        [_, Touch::Quiet] => touches[1] = touch,
        [_, _] => {}
    }
}

impl<B: Bus> Executor<B> {
    /// Whether the running code may access the word, or in byte form the byte.
    #[inline(always)]
    #[tactic(auto, using(crate::proofs::Open::open_word))]
    pub(crate) fn may(&self, wide: bool, access: Access, at: u16) -> bool
        ensures { result ≡ may_at wide self.now.sections.live self.now.own access at }
    {
        if !wide {
            return self.table().may(self.own(), access, at);
        }
        if self.table().is_open(at) {
            return true;
        }
        self.table().may_word(self.own(), access, at)
    }

    /// Whether the running code may read and write a place, and no device is there: its page is
    /// vacant, it is the module's own data, or it lies in a gap. Then a read and a write ask no more.
    #[inline(always)]
    pub fn is_at_hand(&self, at: u16) -> bool
        ensures read { IsTrue result
            → (wide : Bool) → may_at wide self.now.sections.live self.now.own Read at ≡ true }
        ensures write { IsTrue result
            → (wide : Bool) → may_at wide self.now.sections.live self.now.own Write at ≡ true }
        ensures memory { IsTrue result → device_of self.now.devices at ≡ None }
    {
        self.is_vacant(at)
            || self.occupancy().has_bare_data(self.own(), at)
            || self.protection().has_gap(at) && self.windows().at(at).is_none()
    }

    /// Whether one look says that all code may read the word at a place and each byte of it, and no
    /// device is there: the place is in the text of the home, or around one where a read missed.
    #[inline(always)]
    pub fn is_readable(&self, at: u16) -> bool
        ensures read { IsTrue result
            → (wide : Bool) → may_at wide self.now.sections.live self.now.own Read at ≡ true }
        ensures memory { IsTrue result → device_of self.now.devices at ≡ None }
    {
        self.occupancy().has_text(at) || self.occupancy().has_readable(at)
    }

    /// Whether the running code may read a place, and no device is there: its page is vacant, it is
    /// the module's own data, or all code may read there. Then a read asks no more.
    #[inline(always)]
    pub fn is_readable_at_hand(&self, at: u16) -> bool
        ensures read { IsTrue result
            → (wide : Bool) → may_at wide self.now.sections.live self.now.own Read at ≡ true }
        ensures memory { IsTrue result → device_of self.now.devices at ≡ None }
    {
        self.is_vacant(at) || self.occupancy().has_bare_data(self.own(), at) || self.is_readable(at)
    }

    /// Whether one look says that no live section has a byte of the word at an address: none meets
    /// its page, or it lies in a gap. Then what a step asks of the sections needs no look at them.
    #[inline(always)]
    #[tactic(auto, using(crate::proofs::Open::open_outside, crate::proofs::Open::open_ordered, sx_rules::proofs::Away::open_holder))]
    pub fn is_apart(&self, at: u16) -> bool
        ensures outside { IsTrue result → word_outside self.now.sections.live at ≡ true }
        ensures order { IsTrue result
            → (cur : ℕ) → in_order self.now.sections.live cur at ≡ true }
        ensures none { IsTrue result → holder self.now.sections.live at ≡ 0 }
    {
        if self.table().is_open(at) {
            return true;
        }
        self.protection().has_gap(at)
    }

    /// Whether the word at an address is known to be code of the module `id`: it is in the public
    /// part of the home, which that module may go on to.
    #[inline(always)]
    pub fn is_at_home(&self, id: u16, at: u16) -> bool
        ensures held { IsTrue result → holder self.now.sections.live at ≡ id }
        ensures outside { IsTrue result → word_outside self.now.sections.live at ≡ true }
        ensures order { IsTrue result → in_order self.now.sections.live id at ≡ true }
    {
        self.protection().has_code(id, at)
    }

    /// Whether one look says that no section and no device is on the page of the word at an address
    /// nor on the next page. Then nothing is asked of the word, nor of the two after it.
    #[inline(always)]
    pub fn is_vacant(&self, at: u16) -> bool
        ensures outside { IsTrue result → word_outside self.now.sections.live at ≡ true }
        ensures order { IsTrue result
            → (cur : ℕ) → in_order self.now.sections.live cur at ≡ true }
        ensures none { IsTrue result → holder self.now.sections.live at ≡ 0 }
        ensures reached { IsTrue result → (own : ℕ) (wide : Bool) (access : Access)
            → may_at wide self.now.sections.live own access at ≡ true }
        ensures memory { IsTrue result → device_at self.now.devices at ≡ None }
        ensures ahead { IsTrue result
            → (own : ℕ) → IsAhead self.now.sections.live self.now.devices own at }
    {
        self.occupancy().is_vacant(at)
    }

    /// The same of a word in a gap that has the two after it as well.
    #[inline(always)]
    pub fn is_deep_in_gap(&self, at: u16) -> bool
        ensures outside { IsTrue result → word_outside self.now.sections.live at ≡ true }
        ensures order { IsTrue result
            → (cur : ℕ) → in_order self.now.sections.live cur at ≡ true }
        ensures none { IsTrue result → holder self.now.sections.live at ≡ 0 }
        ensures memory { IsTrue result → device_at self.now.devices at ≡ None }
        ensures ahead { IsTrue result
            → (own : ℕ) → IsAhead self.now.sections.live self.now.devices own at }
    {
        self.occupancy().is_deep_in_gap(at)
    }

    /// Whether the word at an address and the two after it are known to be code of the module `id`,
    /// as one is at home, and no device is there. Then nothing is asked of them.
    #[inline(always)]
    pub fn is_deep_at_home(&self, id: u16, at: u16) -> bool
        ensures held { IsTrue result → holder self.now.sections.live at ≡ id }
        ensures outside { IsTrue result → word_outside self.now.sections.live at ≡ true }
        ensures order { IsTrue result → in_order self.now.sections.live id at ≡ true }
        ensures memory { IsTrue result → device_at self.now.devices at ≡ None }
        ensures ahead { IsTrue result → IsAhead self.now.sections.live self.now.devices id at }
    {
        self.occupancy().is_deep_at_home(id, at)
    }

    /// The device whose word holds the byte, with its index.
    #[inline(always)]
    fn device_of(&self, at: u16) -> Option<(u8, Window)>
        ensures device { result ≡ device_of self.now.devices at }
        ensures within { IfSome result (λ d. d.0 < length self.now.devices) }
        ensures value { IfSome result (λ d. d.1.value < 32768) }
    {
        let device = self.windows().at(at)?;
        Some((device, self.windows().get(device)))
    }

    /// Keeps a touch.
    fn touch(&mut self, touch: Touch)
        ensures { self.new ≡ record self.old { touches = with_touch self.old.touches touch } }
    {
        note(&mut self.touches, touch);
    }

    /// A sensor's answer to a read of its word.
    #[tactic(auto, using(sx_bus::proofs::Changed::all_stale_cleared))]
    fn sample(&mut self, device: u8, window: &Window) -> u16
        requires device { device < length self.old.devices }
        requires value { window.now.value < 32768 }
        ensures run { (result, moment_of self.new)
            ≡ sampled device window.now (moment_of self.old) }
        ensures regs { self.new.regs ≡ self.old.regs }
        ensures kept { KeepsSections self.old self.new }
    {
        if !window.fresh {
            return 0;
        }
        self.clear(device);
        let value = window.value;
        note(&mut self.touches, Touch::DeviceRead { device, value });
        0x8000 + value
    }

    /// Reads a word, or in byte form a byte. `Read` where the access table refuses it, and else
    /// `Device` where the device there does.
    pub fn load(&mut self, wide: bool, at: u16) -> Result<u16, Violation>
        ensures run { Loads wide at self.old result self.new }
        ensures below { IfOk result (λ v. v < limit wide) }
    {
        if self.is_readable_at_hand(at) {
            return Ok(self.read(wide, at));
        }
        self.load_near(wide, at)
    }

    /// The same where a section may meet the page, or a device be there. What all code may read around
    /// the place is known from then on, and the gap if it lies in one. This code stays out of the way
    /// of what most accesses do.
    #[inline(never)]
    fn load_near(&mut self, wide: bool, at: u16) -> Result<u16, Violation>
        ensures run { Loads wide at self.old result self.new }
        ensures below { IfOk result (λ v. v < limit wide) }
    {
        self.learn_readable(at);
        if self.is_at_hand(at) {
            return Ok(self.read(wide, at));
        }
        self.learn_gap(at);
        if !self.may(wide, Access::Read, at) {
            return Err(Violation::Read);
        }
        match self.device_of(at) {
            None => Ok(self.read(wide, at)),
            Some((device, window)) => match window.kind {
                Kind::Sensor if wide => Ok(self.sample(device, &window)),
                Kind::Sensor | Kind::Actuator => Err(Violation::Device),
            },
        }
    }

    /// Writes a word, or in byte form a byte. `Write` where the access table refuses it, and else
    /// `Device` where the device there does.
    pub fn store(&mut self, wide: bool, at: u16, value: u16) -> Result<(), Violation>
        ensures { Stores wide at value self.old result self.new }
    {
        if self.is_at_hand(at) {
            self.write(wide, at, value);
            return Ok(());
        }
        self.store_near(wide, at, value)
    }

    /// The same where a section may meet the page, or a device be there, as for a read.
    #[inline(never)]
    fn store_near(&mut self, wide: bool, at: u16, value: u16) -> Result<(), Violation>
        ensures { Stores wide at value self.old result self.new }
    {
        self.learn_gap(at);
        if !self.may(wide, Access::Write, at) {
            return Err(Violation::Write);
        }
        match self.device_of(at) {
            None => {
                self.write(wide, at, value);
                Ok(())
            }
            Some((device, window)) => match window.kind {
                Kind::Actuator if wide => {
                    self.touch(Touch::DeviceWrite { device, value });
                    Ok(())
                }
                Kind::Sensor | Kind::Actuator => Err(Violation::Device),
            },
        }
    }

    /// Whether an extension word of the running code may be at the place.
    #[inline(always)]
    #[tactic(auto, using(crate::proofs::Rights::extends_readable, crate::proofs::Open::open_extends, crate::proofs::Open::open_word))]
    fn may_extend(&self, at: u16) -> bool
        ensures word { result ≡ extends_word self.now at }
        ensures readable { IsTrue result
            → may_at true self.now.sections.live self.now.own Read at ≡ true }
    {
        if self.table().is_open(at)
            || self.protection().has_code(self.own(), at)
            || self.protection().has_gap(at)
        {
            return true;
        }
        self.table().extends_word(self.own(), at)
    }

    /// Fetches an extension word. `Fetch` where no extension word of the running code may be,
    /// and else `Device` on a device's word.
    #[inline(always)]
    pub fn fetch(&self, at: u16) -> Result<u16, Violation>
        ensures { fetch self.now.sections.live self.now.own at (moment_of self.now) ≡ result }
    {
        if !self.may_extend(at) {
            return Err(Violation::Fetch);
        }
        match self.device_of(at) {
            None => Ok(self.read(true, at)),
            Some(_) => Err(Violation::Device),
        }
    }

    /// Fetches an extension word that is known to be one. Nothing is asked.
    #[inline(always)]
    pub fn fetch_known(&self, at: u16) -> u16
        requires { IsExtension self.now.sections.live self.now.devices self.now.own at }
        ensures { fetch self.now.sections.live self.now.own at (moment_of self.now) ≡ Ok result }
    {
        self.read(true, at)
    }
}
