//! The flags as bits of the status register.

ghost use Rattle.std.specs.Prelude.{◌≡◌, ◌==◌, ◌<◌, ◌+◌, ◌*◌, ◌/◌, ◌%◌};
ghost use Rattle.sx_alu.specs.Status.{flags_of, with_flags_in};

use crate::flags::Flags;
use std::marker::Model;

/// The flags, each at its bit of the status register. Contracts see them as `Flags`.
#[derive(Clone, Copy)]
pub struct StatusBits {
    bits: u16,
}

impl Model for StatusBits {
    ghost use Rattle.std.specs.Prelude.{◌≡◌};
    ghost use Rattle.std.proofs.Common.{ap, sym};
    ghost use Rattle.sx_alu.specs.Status.{flags_of, with_flags_in};
    ghost use Rattle.sx_alu.specs.declared.flags.Flags.{Flags};

    ghost Value = { Flags };

    ghost view = { λ s. flags_of s.bits };

    ghost invariant = { λ s. s.bits ≡ with_flags_in 0 (flags_of s.bits) };

    ghost inverse = { λ f. record { bits = with_flags_in 0 f } };

    ghost inverse_ok = { λ s h. ap (λ bits. record { bits = bits }) (sym h) };
}

/// A status register with its flags clear.
#[tactic(auto, using(crate::proofs::KeptBits::kept_bits))]
fn without_flags(sr: u16) -> u16
    ensures { result ≡ sr / 512 * 512 + sr / 8 % 32 * 8 }
{
    sr & !0x107
}

impl StatusBits {
    /// These flags.
    pub fn new(c: bool, z: bool, n: bool, v: bool) -> StatusBits
        ensures { result ≡ record { c = c; z = z; n = n; v = v } }
    {
        let bits = u16::from(v) * 0x100 + u16::from(n) * 4 + u16::from(z) * 2 + u16::from(c);
        StatusBits { bits }
    }

    /// The same with N and V as numbers, 0 or 1.
    pub fn of_numbers(c: bool, z: bool, n: u16, v: u16) -> StatusBits
        requires n { n < 2 }
        requires v { v < 2 }
        ensures { result ≡ record { c = c; z = z; n = n == 1; v = v == 1 } }
    {
        let bits = v * 0x100 + n * 4 + u16::from(z) * 2 + u16::from(c);
        StatusBits { bits }
    }

    /// The same of the flags one by one.
    pub fn of_flags(flags: Flags) -> StatusBits
        ensures { result ≡ flags }
    {
        StatusBits::new(flags.c, flags.z, flags.n, flags.v)
    }

    /// The flags that a status register holds.
    pub fn of_status(sr: u16) -> StatusBits
        ensures { result ≡ flags_of sr }
    {
        StatusBits {
            bits: sr - without_flags(sr),
        }
    }

    /// The status register with these flags in place of its own; its other bits stay.
    pub fn in_status(self, sr: u16) -> u16
        ensures { result ≡ with_flags_in sr self }
    {
        without_flags(sr) + self.bits
    }

    /// Carry.
    pub fn c(self) -> bool
        ensures { result ≡ self.c }
    {
        self.bits & 1 == 1
    }

    /// Zero.
    pub fn z(self) -> bool
        ensures { result ≡ self.z }
    {
        self.bits >> 1 & 1 == 1
    }

    /// Negative.
    pub fn n(self) -> bool
        ensures { result ≡ self.n }
    {
        self.bits >> 2 & 1 == 1
    }

    /// Overflow.
    pub fn v(self) -> bool
        ensures { result ≡ self.v }
    {
        self.bits >> 8 & 1 == 1
    }

    /// The flags one by one.
    pub fn flags(self) -> Flags
        ensures { result ≡ self }
    {
        Flags {
            c: self.c(),
            z: self.z(),
            n: self.n(),
            v: self.v(),
        }
    }
}
