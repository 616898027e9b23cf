//! Counts of a run's items, and the lines that tell them.

ghost use Rattle.std.specs.Prelude.{◌≡◌, ◌+◌, ◌^◌, ◌<◌, ◌≤◌, ◌++◌, IfOk, OnOk, [], length};
ghost use Rattle.command_gen.specs.Counts.{counts, is_lit, is_output, numbered, summary};
ghost use Rattle.command_gen.specs.Counting.{plus};

use itoa::Buffer;
use std::alloc::{AllocError, Global};
use sx_trace::items::Item;

/// How many items a run has, how many of them are outputs, and how many of these have the value 1.
/// One line's items lie in memory, so that 128 bits are enough for those of 65,536 lines.
#[derive(Clone, Copy)]
pub(crate) struct Counts {
    items: u128,
    outputs: u128,
    lit: u128,
}

/// Whether an actuator was written by its driver.
fn is_output(item: &Item) -> bool
    ensures { result ≡ is_output item.now }
{
    matches!(item, Item::Out { .. })
}

/// Whether it was written with the value 1.
fn is_lit(item: &Item) -> bool
    ensures { result ≡ is_lit item.now }
{
    matches!(item, Item::Out { value: 1, .. })
}

impl Counts {
    /// The counts of no items.
    pub(crate) fn new() -> Counts
        ensures { result ≡ counts [] }
    {
        Counts {
            items: 0,
            outputs: 0,
            lit: 0,
        }
    }

    /// Counts further items.
    pub(crate) fn add(&mut self, items: &[Item])
        requires items { self.old.items + length items.now < 2 ^ 128 }
        requires outputs { self.old.outputs ≤ self.old.items }
        requires lit { self.old.lit ≤ self.old.items }
        ensures { self.new ≡ plus self.old (counts items.now) }
    {
        self.items += items.len() as u128;
        self.outputs += items.iter().filter(|item| is_output(item)).count() as u128;
        self.lit += items.iter().filter(|item| is_lit(item)).count() as u128;
    }
}

/// Appends a line of a word and a number.
#[tactic(auto, unfolding(crate::specs::Counts::numbered))]
fn push_numbered(text: &mut Vec<u8>, word: &[u8], number: u128) -> Result<(), AllocError>
    ensures { OnOk result (text.new.items ≡ text.old.items ++ numbered word.now number) }
{
    let mut digits = Buffer::new();
    text.extend_from_slice(word)?;
    text.extend_from_slice(b" ")?;
    text.extend_from_slice(digits.format(number).as_bytes())?;
    text.extend_from_slice(b"\n")
}

/// The last six lines: of this many lines of a schedule, of what was counted, and of this many
/// steps.
#[tactic(auto, unfolding(crate::specs::Counts::summary, command_text::specs::Output::end_line))]
pub(crate) fn summary(
    alloc: Global,
    lines: u32,
    counts: &Counts,
    steps: u64,
) -> Result<Vec<u8>, AllocError>
    ensures { IfOk result (λ text. text.items ≡ summary lines counts.now steps) }
{
    let mut text = Vec::new(alloc);
    push_numbered(&mut text, b"lines", u128::from(lines))?;
    push_numbered(&mut text, b"items", counts.items)?;
    push_numbered(&mut text, b"outputs", counts.outputs)?;
    push_numbered(&mut text, b"lit", counts.lit)?;
    push_numbered(&mut text, b"steps", u128::from(steps))?;
    text.extend_from_slice(b"end\n")?;
    Ok(text)
}
