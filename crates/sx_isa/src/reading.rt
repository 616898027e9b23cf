//! From instruction words to instructions.

ghost use Rattle.std.specs.Prelude.{◌≡◌, ℕ, ◌<◌, ◌∷◌, [], ◌↔◌, IfSome, IsNone, length};
ghost use Rattle.sx_isa.specs.Instructions.{BeginsWith, IsInstruction, IsIllegal, first_word};
ghost use Rattle.sx_isa.specs.Spelling.{spelling};
ghost use Rattle.sx_isa.specs.declared.instruction.Instr.{Instr};
ghost use Rattle.sx_isa.specs.Reading.{two_at, one_at, instruction_at, length_of};

use crate::fields::{
    destination, is_allowed, offset, one_fields, op1, op2, source, takes_word, two_fields,
};
use crate::instruction::Instr;

#[tactic(auto, unfolding(crate::specs::Reading::two_at))]
fn two(w0: u16, w1: u16, w2: u16) -> Option<(Instr, u8)>
    ensures { result ≡ two_at w0 w1 w2 }
{
    let f = two_fields(w0);
    let op = op2(f.op)?;
    let byte = f.byte;
    let src = source(f.source, f.mode, w1);
    let first = takes_word(f.source, f.mode);
    let dst = destination(f.destination, f.ad, if first { w2 } else { w1 })?;
    let second = takes_word(f.destination, f.ad);
    Some((
        Instr::Two { op, byte, src, dst },
        1 + u8::from(first) + u8::from(second),
    ))
}

#[tactic(auto, unfolding(crate::specs::Reading::one_at))]
fn one(w0: u16, w1: u16) -> Option<(Instr, u8)>
    ensures { result ≡ one_at w0 w1 }
{
    let f = one_fields(w0);
    let op = op1(f.op)?;
    let byte = f.byte;
    let arg = source(f.register, f.mode, w1);
    if !is_allowed(op, byte, arg) {
        return None;
    }
    Some((
        Instr::One { op, byte, arg },
        1 + u8::from(takes_word(f.register, f.mode)),
    ))
}

#[tactic(auto, unfolding(crate::specs::Reading::instruction_at))]
fn front(w0: u16, w1: u16, w2: u16) -> Option<(Instr, u8)>
    ensures { result ≡ instruction_at w0 w1 w2 }
{
    match w0 {
        0..=0xfff => None,
        0x1000..=0x12ff => one(w0, w1),
        0x1300 => Some((Instr::Reti, 1)),
        0x1380..=0x1382 | 0x1384..=0x1387 => Some((Instr::Sancus((w0 - 0x1380) as u8), 1)),
        0x1301..=0x1fff => None,
        0x2000..=0x3fff => Some((
            Instr::Jump {
                cond: (w0 >> 10 & 7) as u8,
                offset: offset(w0 & 0x3ff),
            },
            1,
        )),
        _ => two(w0, w1, w2),
    }
}

#[tactic(auto, unfolding(crate::specs::Reading::length_of))]
fn length_at(w0: u16) -> Option<u8>
    ensures { result ≡ length_of w0 }
{
    Some(front(w0, 0, 0)?.1)
}

/// The instruction at the start of three words, and how many of them are its own, 1 to 3. None
/// exactly where no instruction has the first word. The words past the instruction don't matter.
/// The words are those of TI's MSP430x2xx Family User's Guide, "CPU"; those of the module
/// instructions are our own.
pub fn decode(w0: u16, w1: u16, w2: u16) -> Option<(Instr, u8)>
    ensures computed { result ≡ instruction_at w0 w1 w2 }
    ensures found { IfSome result (λ f. BeginsWith (w0 ∷ w1 ∷ w2 ∷ []) f.0 f.1) }
    ensures only { (i : Instr) (n : ℕ) → BeginsWith (w0 ∷ w1 ∷ w2 ∷ []) i n →
        result ≡ Some (record { 0 = i; 1 = n }) }
    ensures none { IsNone result ↔ IsIllegal w0 }
{
    front(w0, w1, w2)
}

/// How many words an instruction has whose first is `w0`, 1 to 3. None exactly where no instruction
/// has it.
pub fn length(w0: u16) -> Option<u8>
    ensures computed { result ≡ length_of w0 }
    ensures only { (i : Instr) → IsInstruction i → first_word i ≡ w0
        → result ≡ Some (length (spelling i)) }
    ensures none { IsNone result ↔ IsIllegal w0 }
{
    length_at(w0)
}
