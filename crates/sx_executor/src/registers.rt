//! Reads and writes of the sixteen registers.

ghost use Rattle.std.specs.Prelude.{◌≡◌, ◌<◌, true, slice_set};
ghost use Rattle.sx_alu.specs.Table.{limit};
ghost use Rattle.spec_machine.specs.Given.{concluded};
ghost use Rattle.spec_machine.specs.Registers.{at_pc, cut_value, reg, kept_in, set_reg, incremented};
ghost use Rattle.spec_machine.specs.Registers.{flags, set_flags};
ghost use Rattle.sx_executor.specs.Shortcuts.{is_general};

use crate::executor::Executor;
use sx_alu::StatusBits;
use sx_bus::Bus;

/// The program counter.
pub const PC: u8 = 0;

/// The stack pointer.
pub const SP: u8 = 1;

/// The status register.
pub const SR: u8 = 2;

/// The register that takes a module instruction's answer.
const ANSWER: u8 = 15;

/// A value cut to a word, or in byte form to a byte.
pub fn cut(wide: bool, value: u16) -> u16
    ensures value { result ≡ cut_value wide value }
    ensures below { result < limit wide }
{
    if wide { value } else { value & 0xff }
}

fn kept_in(r: u8, value: u16) -> u16
    ensures { result ≡ kept_in r value }
{
    match r {
        0 | 1 => value & !1,
        2 => value & 0x1ff,
        3 => 0,
        _ => value,
    }
}

fn put_register(regs: &mut [u16; 16], r: u8, value: u16)
    ensures { regs.new ≡ set_reg regs.old r value }
{
    let r = r % 16;
    regs[r as usize] = kept_in(r, value);
}

fn put_general(regs: &mut [u16; 16], r: u8, value: u16)
    requires { is_general r ≡ true }
    ensures { regs.new ≡ set_reg regs.old r value }
{
    regs[r as usize] = value;
}

fn put_flags(regs: &mut [u16; 16], flags: StatusBits)
    ensures { regs.new ≡ set_flags regs.old flags }
{
    regs[SR as usize] = flags.in_status(regs[SR as usize]);
}

fn put_word(regs: &mut [u16; 16], r: u8, value: u16)
    requires { r < 16 }
    ensures { regs.new ≡ slice_set regs.old r value }
{
    regs[r as usize] = value;
}

fn raise(regs: &mut [u16; 16], wide: bool, r: u8)
    ensures { regs.new ≡ incremented wide regs.old r }
{
    let by = if wide || r == 1 { 2 } else { 1 };
    let r = (r % 16) as usize;
    regs[r] = regs[r].wrapping_add(by);
}

fn put_answer(regs: &mut [u16; 16], answer: u16)
    ensures { regs.new ≡ concluded regs.old answer }
{
    regs[PC as usize] = regs[PC as usize].wrapping_add(2);
    regs[ANSWER as usize] = answer;
}

impl<B: Bus> Executor<B> {
    /// All registers.
    pub fn regs(&self) -> &[u16; 16]
        ensures { result.now ≡ self.now.regs }
    {
        &self.regs
    }

    /// A register, as an address.
    pub fn register(&self, r: u8) -> u16
        ensures { result ≡ reg self.now.regs r }
    {
        self.regs[(r % 16) as usize]
    }

    /// A register as an operand of a word or byte instruction.
    pub fn operand(&self, wide: bool, r: u8) -> u16
        ensures value { result ≡ cut_value wide (reg self.now.regs r) }
        ensures below { result < limit wide }
    {
        cut(wide, self.register(r))
    }

    /// A general register as an operand of a word instruction.
    #[inline(always)]
    pub fn general(&self, r: u8) -> u16
        requires { is_general r ≡ true }
        ensures { result ≡ cut_value true (reg self.now.regs r) }
    {
        cut(true, self.regs[r as usize])
    }

    /// The flags in SR.
    pub fn flags(&self) -> StatusBits
        ensures { result ≡ flags self.now.regs }
    {
        StatusBits::of_status(self.regs[SR as usize])
    }

    /// Writes a register, which keeps what it can of the value.
    pub fn set_register(&mut self, r: u8, value: u16)
        ensures { self.new ≡ record self.old { regs = set_reg self.old.regs r value } }
    {
        put_register(&mut self.regs, r, value);
    }

    /// Writes a general register, which keeps all of the value.
    #[inline(always)]
    pub fn set_general(&mut self, r: u8, value: u16)
        requires { is_general r ≡ true }
        ensures { self.new ≡ record self.old { regs = set_reg self.old.regs r value } }
    {
        put_general(&mut self.regs, r, value);
    }

    /// Writes the flags into SR.
    pub fn set_flags(&mut self, flags: StatusBits)
        ensures { self.new ≡ record self.old { regs = set_flags self.old.regs flags } }
    {
        put_flags(&mut self.regs, flags);
    }

    /// Moves PC.
    pub fn set_pc(&mut self, pc: u16)
        ensures { self.new ≡ record self.old { regs = at_pc self.old.regs pc } }
    {
        put_word(&mut self.regs, PC, pc);
    }

    /// Writes a word to a register as it is: what it can keep of it is the caller's.
    pub fn set_word(&mut self, r: u8, value: u16)
        requires { r < 16 }
        ensures { self.new ≡ record self.old { regs = slice_set self.old.regs r value } }
    {
        put_word(&mut self.regs, r, value);
    }

    /// The increment of `@Rn+`.
    pub fn increment(&mut self, wide: bool, r: u8)
        ensures { self.new ≡ record self.old { regs = incremented wide self.old.regs r } }
    {
        raise(&mut self.regs, wide, r);
    }

    /// The end of a module instruction: moves PC on, and answers in R15.
    pub fn conclude(&mut self, answer: u16)
        ensures { self.new ≡ record self.old { regs = concluded self.old.regs answer } }
    {
        put_answer(&mut self.regs, answer);
    }
}
