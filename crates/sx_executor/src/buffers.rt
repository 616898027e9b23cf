//! Reads and writes of whole buffers: the access table is asked for each byte before the first is
//! touched, unless the buffer as a whole is apart from all that it guards, or is known to be
//! the running module's own data.

ghost use Rattle.std.specs.Prelude.{◌≡◌, ◌+◌, ◌%◌, ◌≤◌, ◌∷◌, [], true, false, None, length};
ghost use Rattle.std.specs.Prelude.{IfErr, IsTrue, OnOk};
ghost use Rattle.sx_rules.specs.declared.access.Access.TheVariants.{Read, Write};
ghost use Rattle.sx_rules.specs.declared.access.Violation.TheVariants as bad;
ghost use Rattle.spec_machine.specs.Memory.{bytes_from};
ghost use Rattle.spec_machine.specs.Run.{device_of};
ghost use Rattle.sx_executor.specs.Machine.{reaches, with_bytes, IsClear};

use crate::buffer::Buffer;
use crate::executor::Executor;
use crate::range::Range;
use sx_bus::Bus;
use sx_rules::{Access, Violation};

impl<B: Bus> Executor<B> {
    /// Whether the buffer meets no private section. Then any code may read it.
    #[tactic(auto, using(crate::proofs::Rights::apart_readable))]
    fn is_public(&self, buffer: Buffer) -> bool
        ensures { IsTrue result → reaches self.now Read buffer.at buffer.count ≡ true }
    {
        !Range::of_buffer(buffer).meets_private(self.table().live())
    }

    /// Whether the buffer meets no section. Then any code may write it.
    #[tactic(auto, using(crate::proofs::Rights::apart_writable))]
    fn is_outside(&self, buffer: Buffer) -> bool
        ensures { IsTrue result → reaches self.now Write buffer.at buffer.count ≡ true }
    {
        let range = Range::of_buffer(buffer);
        let live = self.table().live();
        !range.meets_public(live) && !range.meets_private(live)
    }

    /// Whether the buffer is known to be the running module's own data, which it may read and
    /// write.
    fn is_own_data(&self, buffer: Buffer) -> bool
        ensures read { IsTrue result → reaches self.now Read buffer.at buffer.count ≡ true }
        ensures write { IsTrue result → reaches self.now Write buffer.at buffer.count ≡ true }
    {
        self.protection()
            .has_data_range(self.own(), buffer.at, buffer.count)
    }

    /// Whether the running code may reach each byte of the buffer.
    #[tactic(auto, using(crate::proofs::Reach::one_closed))]
    fn may_range(&self, access: Access, buffer: Buffer) -> bool
        ensures { result ≡ reaches self.now access buffer.at buffer.count }
    {
        for i in 0..buffer.count {
            if !self.may(false, access, buffer.at + i) {
                return false;
            }
        }
        true
    }

    /// The violation `Read` where the running code may not read each byte of the buffer.
    pub fn readable(&self, buffer: Buffer) -> Result<(), Violation>
        ensures closed { IfErr result (λ why. (why ≡ bad.Read)
            × (reaches self.now Read buffer.at buffer.count ≡ false)) }
        ensures open { OnOk result (reaches self.now Read buffer.at buffer.count ≡ true) }
    {
        if self.is_own_data(buffer)
            || self.is_public(buffer)
            || self.may_range(Access::Read, buffer)
        {
            return Ok(());
        }
        Err(Violation::Read)
    }

    /// The violation `Write` where the running code may not write each byte of the buffer.
    pub fn writable(&self, buffer: Buffer) -> Result<(), Violation>
        ensures closed { IfErr result (λ why. (why ≡ bad.Write)
            × (reaches self.now Write buffer.at buffer.count ≡ false)) }
        ensures open { OnOk result (reaches self.now Write buffer.at buffer.count ≡ true) }
    {
        if self.is_own_data(buffer)
            || self.is_outside(buffer)
            || self.may_range(Access::Write, buffer)
        {
            return Ok(());
        }
        Err(Violation::Write)
    }

    /// Copies the bytes from an address on. They may be read, and no device meets them.
    #[tactic(auto, unfolding(spec_machine::specs::Memory::bytes_from), using(crate::proofs::Reach::each_open, crate::proofs::Clear::each_clear, std::proofs::lemmas::List::take_more_set))]
    pub fn read_bytes(&self, at: u16, into: &mut [u8])
        requires within { at + length into.old ≤ 65536 }
        requires right { reaches self.now Read at (length into.old) ≡ true }
        requires memory { IsClear self.now.devices at (length into.old) }
        ensures { into.new ≡ bytes_from self.now.mem at (length into.old) }
    {
        for i in 0..into.len() {
            into[i] = self.read(false, (at as usize + i) as u16) as u8;
        }
    }

    /// Writes two bytes from an even address on, in one write of a word.
    #[tactic(auto, using(crate::proofs::Words::right, crate::proofs::Words::put_pair))]
    fn write_pair(&mut self, at: u16, low: u8, high: u8)
        requires even { at % 2 ≡ 0 }
        requires right { reaches self.old Write at 2 ≡ true }
        requires memory { device_of self.old.devices at ≡ None }
        ensures { self.new ≡ with_bytes self.old at (low ∷ high ∷ []) }
    {
        self.write(true, at, u16::from(low) + 256 * u16::from(high));
    }

    /// The same as `write_bytes`, from an even address on and of an even number of bytes.
    #[tactic(auto, using(crate::proofs::Clear::each_clear))]
    fn write_pairs(&mut self, at: u16, bytes: &[u8])
        requires even { at % 2 ≡ 0 }
        requires pairs { length bytes.now % 2 ≡ 0 }
        requires within { at + length bytes.now ≤ 65536 }
        requires right { reaches self.old Write at (length bytes.now) ≡ true }
        requires memory { IsClear self.old.devices at (length bytes.now) }
        ensures { self.new ≡ with_bytes self.old at bytes.now }
    {
        for i in 0..bytes.len() / 2 {
            let place = (at as usize + 2 * i) as u16;
            self.write_pair(place, bytes[2 * i], bytes[2 * i + 1]);
        }
    }

    /// The same as `write_bytes`, byte by byte.
    #[tactic(auto, using(crate::proofs::Reach::each_open, crate::proofs::Clear::each_clear))]
    fn write_each(&mut self, at: u16, bytes: &[u8])
        requires within { at + length bytes.now ≤ 65536 }
        requires right { reaches self.old Write at (length bytes.now) ≡ true }
        requires memory { IsClear self.old.devices at (length bytes.now) }
        ensures { self.new ≡ with_bytes self.old at bytes.now }
    {
        for (i, byte) in bytes.iter().enumerate() {
            self.write(false, (at as usize + i) as u16, u16::from(*byte));
        }
    }

    /// Writes bytes from an address on. Their places may be written, and no device meets them.
    pub fn write_bytes(&mut self, at: u16, bytes: &[u8])
        requires within { at + length bytes.now ≤ 65536 }
        requires right { reaches self.old Write at (length bytes.now) ≡ true }
        requires memory { IsClear self.old.devices at (length bytes.now) }
        ensures { self.new ≡ with_bytes self.old at bytes.now }
    {
        if at % 2 == 0 && bytes.len() % 2 == 0 {
            self.write_pairs(at, bytes);
        } else {
            self.write_each(at, bytes);
        }
    }
}
