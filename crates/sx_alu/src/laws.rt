//! What the flags say, in terms of arithmetic. Each law is a function that does nothing: its
//! contract is the law.

ghost use Rattle.std.specs.Prelude.{◌≡◌, ◌↔◌, ℕ, ◌<◌, ◌≤◌, ◌+◌, ◌-◌, ◌/◌, ◌%◌, Bool, IsTrue, ◌<ℤ◌};
ghost use Rattle.std.specs.Prelude.{◌+ℤ◌, ◌-ℤ◌, pos, false};
ghost use Rattle.sx_alu.specs.Status.{flags_of, with_flags_in};
ghost use Rattle.sx_alu.specs.Table.{limit, row, differ, sum_row, difference_row};
ghost use Rattle.sx_alu.specs.Widths.{signed};
ghost use Rattle.sx_alu.specs.declared.flags.Flags.{Flags};
ghost use Rattle.sx_alu.specs.declared.calculation.Calc.TheVariants.{Sub};
ghost use Rattle.lemmas.specs.Truth.{truth};

/// After a subtraction of s from d, as for a comparison: C says that s is at most d, Z that they
/// are equal, and N differs from V exactly where d is below s as signed numbers. The value is the
/// difference modulo the width.
pub fn comparison()
    ensures carry { (wide : Bool) (s d : ℕ) (f : Flags) → s < limit wide → d < limit wide →
        IsTrue (row Sub wide s d f).1.c ↔ (s ≤ d) }
    ensures zero { (wide : Bool) (s d : ℕ) (f : Flags) → s < limit wide → d < limit wide →
        IsTrue (row Sub wide s d f).1.z ↔ (s ≡ d) }
    ensures less { (wide : Bool) (s d : ℕ) (f : Flags) → s < limit wide → d < limit wide →
        IsTrue (differ (row Sub wide s d f).1.n (row Sub wide s d f).1.v)
        ↔ (signed wide d <ℤ signed wide s) }
    ensures value { (wide : Bool) (s d : ℕ) (f : Flags) → s < limit wide → d < limit wide →
        (row Sub wide s d f).0 ≡ (d + limit wide - s) % limit wide }
{}

/// V is clear exactly where the signed result is right: the sum with its carry, or the difference
/// less 1 where the carry was clear.
pub fn overflow()
    ensures sum { (wide c : Bool) (s d : ℕ) → s < limit wide → d < limit wide →
        let r = sum_row wide s d (truth c) in
        r.1.v ≡ false ↔ (signed wide r.0 ≡ signed wide d +ℤ signed wide s +ℤ pos (truth c)) }
    ensures difference { (wide c : Bool) (s d : ℕ) → s < limit wide → d < limit wide →
        let r = difference_row wide s d (truth c) in
        r.1.v ≡ false ↔ (signed wide r.0 ≡ signed wide d -ℤ signed wide s -ℤ pos (1 - truth c)) }
{}

/// Flags that were written into a status register are read back, and its other bits stay.
pub fn status()
    ensures read_back { (sr : ℕ) (f : Flags) → flags_of (with_flags_in sr f) ≡ f }
    ensures high { (sr : ℕ) (f : Flags) → with_flags_in sr f / 512 ≡ sr / 512 }
    ensures middle { (sr : ℕ) (f : Flags) → with_flags_in sr f / 8 % 32 ≡ sr / 8 % 32 }
    ensures written_back { (sr : ℕ) → with_flags_in sr (flags_of sr) ≡ sr }
{}
