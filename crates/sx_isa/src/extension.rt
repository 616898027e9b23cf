//! The extension words of a decoded instruction.
//!
//! An instruction that was decoded before its extension words were available isn't decoded again:
//! by the law `extending`, the words are put into its operands.

ghost use Rattle.std.specs.Prelude.{◌≡◌, if◌then◌else◌};
ghost use Rattle.sx_isa.specs.Extending.{has_word, with_word};

use crate::instruction::Operand;

fn has_word(operand: Operand) -> bool
    ensures { result ≡ has_word operand }
{
    matches!(
        operand,
        Operand::Indexed(_, _) | Operand::Symbolic(_) | Operand::Absolute(_) | Operand::Immediate(_)
    )
}

/// The operand with this word in place of its extension word; an operand that has none stays.
#[inline(always)]
pub fn with_word(operand: Operand, word: u16) -> Operand
    ensures { result ≡ with_word operand word }
{
    match operand {
        Operand::Indexed(register, _) => Operand::Indexed(register, word),
        Operand::Symbolic(_) => Operand::Symbolic(word),
        Operand::Absolute(_) => Operand::Absolute(word),
        Operand::Immediate(_) => Operand::Immediate(word),
        Operand::Reg(_) | Operand::Indirect(_) | Operand::Increment(_) | Operand::Const(_) =>
            operand,
    }
}

/// Which of two words is the destination's: the source's comes first.
#[inline(always)]
fn word_behind(src: Operand, w1: u16, w2: u16) -> u16
    ensures { result ≡ if has_word src then w2 else w1 }
{
    if has_word(src) { w2 } else { w1 }
}

/// The operands of an instruction that has two, with these words in place of their extension words,
/// the source's first.
#[inline(always)]
pub fn with_words(src: Operand, dst: Operand, w1: u16, w2: u16) -> (Operand, Operand)
    ensures { result ≡ (with_word src w1, with_word dst (if has_word src then w2 else w1)) }
{
    (with_word(src, w1), with_word(dst, word_behind(src, w1, w2)))
}
