//! Appending of words to a text.

ghost use Rattle.std.specs.Prelude.{◌≡◌, true, ◌∷◌, [], OnOk};
ghost use Rattle.sx_isa.specs.Spelling.{spelling};
ghost use Rattle.sx_isa.specs.Standing.{words_of};
ghost use Rattle.sx_isa.specs.Shaped.{are_shaped, is_shaped};
ghost use Rattle.sx_tmpl.specs.Text.{PutsWords};

use std::alloc::AllocError as OutOfMemory;
use sx_isa::{Instr, encode};

/// Appends a word, its low byte first.
fn put_word(text: &mut Vec<u8>, word: u16) -> Result<(), OutOfMemory>
    ensures { OnOk result (PutsWords (word ∷ []) text.old.items text.new.items) }
{
    text.push((word % 256) as u8)?;
    text.push((word / 256) as u8)?;
    Ok(())
}

/// Appends words, one after the other. The error says that memory ran out.
#[inline(always)]
pub fn put_words(text: &mut Vec<u8>, words: &[u16]) -> Result<(), OutOfMemory>
    ensures { OnOk result (PutsWords words.now text.old.items text.new.items) }
{
    for word in words {
        put_word(text, *word)?;
    }
    Ok(())
}

/// Appends the words of an instruction.
#[inline(always)]
fn put_instruction(text: &mut Vec<u8>, instruction: Instr) -> Result<(), OutOfMemory>
    requires { is_shaped instruction ≡ true }
    ensures { OnOk result (PutsWords (spelling instruction) text.old.items text.new.items) }
{
    let words = encode(&instruction);
    put_words(text, &words.w[..usize::from(words.len)])
}

/// Appends the words of one instruction. The error says that memory ran out. Inlined where the
/// instruction is written, most of its words are known before the program runs.
#[inline(always)]
#[tactic(auto, using(crate::proofs::Putting::shaped_alone))]
pub fn put_one(text: &mut Vec<u8>, instruction: Instr) -> Result<(), OutOfMemory>
    requires { are_shaped (instruction ∷ []) ≡ true }
    ensures { OnOk result (PutsWords (words_of (instruction ∷ [])) text.old.items text.new.items) }
{
    put_instruction(text, instruction)
}

/// As `put_one`, for two instructions.
#[inline(always)]
pub fn put_two(text: &mut Vec<u8>, first: Instr, second: Instr) -> Result<(), OutOfMemory>
    requires { are_shaped (first ∷ second ∷ []) ≡ true }
    ensures { OnOk result (PutsWords (words_of (first ∷ second ∷ [])) text.old.items
        text.new.items) }
{
    put_one(text, first)?;
    put_one(text, second)
}

/// As `put_one`, for three instructions.
#[inline(always)]
pub fn put_three(
    text: &mut Vec<u8>,
    first: Instr,
    second: Instr,
    third: Instr,
) -> Result<(), OutOfMemory>
    requires { are_shaped (first ∷ second ∷ third ∷ []) ≡ true }
    ensures { OnOk result (PutsWords (words_of (first ∷ second ∷ third ∷ [])) text.old.items
        text.new.items) }
{
    put_one(text, first)?;
    put_two(text, second, third)
}

/// As `put_one`, for four instructions.
#[inline(always)]
pub fn put_four(
    text: &mut Vec<u8>,
    first: Instr,
    second: Instr,
    third: Instr,
    fourth: Instr,
) -> Result<(), OutOfMemory>
    requires { are_shaped (first ∷ second ∷ third ∷ fourth ∷ []) ≡ true }
    ensures { OnOk result (PutsWords (words_of (first ∷ second ∷ third ∷ fourth ∷ []))
        text.old.items text.new.items) }
{
    put_one(text, first)?;
    put_three(text, second, third, fourth)
}

/// Appends the words of instructions, one after the other. The error says that memory ran out.
#[tactic(auto, using(crate::proofs::Putting::written, crate::proofs::Putting::shaped_here, crate::proofs::Putting::shaped_behind))]
pub fn put_instructions(text: &mut Vec<u8>, instructions: &[Instr]) -> Result<(), OutOfMemory>
    requires { are_shaped instructions.now ≡ true }
    ensures { OnOk result (PutsWords (words_of instructions.now) text.old.items text.new.items) }
{
    for instruction in instructions {
        put_instruction(text, *instruction)?;
    }
    Ok(())
}

/// Appends the words of these instructions, each ended by `;`. Up to four take no array and no loop.
macro_rules! put {
    ($text:expr; $n1:ident $($o1:expr),*;) => {
        crate::put::put_one($text, sx_isa::instruction!($n1 $($o1),*))
    };
    ($text:expr; $n1:ident $($o1:expr),*; $n2:ident $($o2:expr),*;) => {
        crate::put::put_two(
            $text,
            sx_isa::instruction!($n1 $($o1),*),
            sx_isa::instruction!($n2 $($o2),*),
        )
    };
    ($text:expr; $n1:ident $($o1:expr),*; $n2:ident $($o2:expr),*; $n3:ident $($o3:expr),*;) => {
        crate::put::put_three(
            $text,
            sx_isa::instruction!($n1 $($o1),*),
            sx_isa::instruction!($n2 $($o2),*),
            sx_isa::instruction!($n3 $($o3),*),
        )
    };
    (
        $text:expr;
        $n1:ident $($o1:expr),*;
        $n2:ident $($o2:expr),*;
        $n3:ident $($o3:expr),*;
        $n4:ident $($o4:expr),*;
    ) => {
        crate::put::put_four(
            $text,
            sx_isa::instruction!($n1 $($o1),*),
            sx_isa::instruction!($n2 $($o2),*),
            sx_isa::instruction!($n3 $($o3),*),
            sx_isa::instruction!($n4 $($o4),*),
        )
    };
    ($text:expr; $($name:ident $($operand:expr),*;)*) => {
        crate::put::put_instructions(
            $text,
            &[$(sx_isa::instruction!($name $($operand),*)),*],
        )
    };
}

pub(crate) use put;
