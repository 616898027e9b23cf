//! From an item to its line.

ghost use Rattle.std.specs.Prelude.{◌≡◌, ℕ, ◌+◌, ◌≤◌, List, [], ◌∷◌, ◌++◌, length, take, drop};
ghost use Rattle.std.specs.Prelude.{codes, decimal};
ghost use Rattle.sx_trace.specs.Items.{name_at, name_or, cause_word, side_word, epoch_words};
ghost use Rattle.sx_trace.specs.Items.{spaced_words, item_text};
ghost use Rattle.sx_trace.specs.Written.{IsWrittenText};

use crate::items::{Cause, Item};
use crate::names::{DEPLOYER, Names};
use itoa::{Buffer, Integer};
use sx_lang::names::Name;
use sx_lang::sides::Side;

/// The name at an index of its list, or no bytes where the list has none.
pub fn name_at(names: &[Name], index: u8) -> &[u8]
    ensures name { result.now ≡ name_at names.now index }
    ensures short { length result.now ≤ 16 }
{
    match names.get(usize::from(index)) {
        Some(name) => name.bytes(),
        None => b"",
    }
}

/// The name at an index of its list, or another word where there is no index.
fn name_or<'a>(other: &'a [u8], names: &'a [Name], index: Option<u8>) -> &'a [u8]
    requires small { length other.now ≤ 16 }
    ensures word { result.now ≡ name_or other.now names.now index }
    ensures short { length result.now ≤ 16 }
{
    match index {
        Some(index) => name_at(names, index),
        None => other,
    }
}

impl Cause {
    /// The word of a cause.
    fn word(self) -> &'static [u8]
        ensures word { result.now ≡ cause_word self }
        ensures short { length result.now ≤ 7 }
    {
        match self {
            Cause::Order => b"order",
            Cause::Fetch => b"fetch",
            Cause::Read => b"read",
            Cause::Write => b"write",
            Cause::Device => b"device",
            Cause::Illegal => b"illegal",
            Cause::Range => b"range",
            Cause::Asked => b"asked",
        }
    }
}

/// The word of a side.
fn side_word(side: Side) -> &'static [u8]
    ensures word { result.now ≡ side_word side }
    ensures short { length result.now ≤ 4 }
{
    match side {
        Side::From => b"from",
        Side::To => b"to",
    }
}

/// Writes bytes from an offset on.
fn write_at(into: &mut [u8; 128], at: usize, part: &[u8])
    requires { at + length part.now ≤ 128 }
    ensures { into.new ≡ take at into.old ++ (part.now ++ drop (at + length part.now) into.old) }
{
    into[at..at + part.len()].copy_from_slice(part);
}

/// Writes a space and one more word after what is written, and answers how many bytes that makes.
fn write_next(into: &mut [u8; 128], written: usize, word: &[u8]) -> usize
    requires { written + 1 + length word.now ≤ 128 }
    ensures { (text first : List ℕ) → IsWrittenText text first written into.old
        → IsWrittenText (text ++ 32 ∷ word.now) first result into.new }
{
    write_at(into, written, b" ");
    write_at(into, written + 1, word);
    written + 1 + word.len()
}

/// Writes two words with a space between them, and answers how many bytes they take.
pub fn write_two(into: &mut [u8; 128], a: &[u8], b: &[u8]) -> usize
    requires { length a.now + length b.now ≤ 127 }
    ensures { IsWrittenText (spaced_words (a.now ∷ b.now ∷ [])) into.old result into.new }
{
    write_at(into, 0, a);
    write_next(into, a.len(), b)
}

/// Writes three words as `write_two` does.
pub fn write_three(into: &mut [u8; 128], a: &[u8], b: &[u8], c: &[u8]) -> usize
    requires { length a.now + length b.now + length c.now ≤ 126 }
    ensures { IsWrittenText (spaced_words (a.now ∷ b.now ∷ c.now ∷ [])) into.old result into.new }
{
    let written = write_two(into, a, b);
    write_next(into, written, c)
}

/// Writes four words as `write_two` does.
pub fn write_four(into: &mut [u8; 128], a: &[u8], b: &[u8], c: &[u8], d: &[u8]) -> usize
    requires { length a.now + length b.now + length c.now + length d.now ≤ 125 }
    ensures { IsWrittenText (spaced_words (a.now ∷ b.now ∷ c.now ∷ d.now ∷ [])) into.old result
        into.new }
{
    let written = write_three(into, a, b, c);
    write_next(into, written, d)
}

/// Writes five words as `write_two` does.
pub fn write_five(into: &mut [u8; 128], a: &[u8], b: &[u8], c: &[u8], d: &[u8], e: &[u8]) -> usize
    requires { length a.now + length b.now + length c.now + length d.now + length e.now ≤ 124 }
    ensures { IsWrittenText (spaced_words (a.now ∷ b.now ∷ c.now ∷ d.now ∷ e.now ∷ [])) into.old
        result into.new }
{
    let written = write_four(into, a, b, c, d);
    write_next(into, written, e)
}

/// Writes a kind, and a name with its number.
fn write_pair<N: Integer>(
    into: &mut [u8; 128],
    kind: &[u8],
    names: &[Name],
    index: u8,
    number: N,
) -> usize
    requires { length kind.now ≤ 16 }
    ensures { IsWrittenText (spaced_words (kind.now ∷ name_at names.now index ∷ N.text number ∷ []))
        into.old result into.new }
{
    let mut digits = Buffer::new();
    write_three(
        into,
        kind,
        name_at(names, index),
        digits.format(number).as_bytes(),
    )
}

/// Writes `reset N CAUSE`.
fn write_reset(into: &mut [u8; 128], names: &Names, node: u8, cause: Cause) -> usize
    ensures { IsWrittenText (spaced_words (codes "reset" ∷ name_at names.now.nodes node
        ∷ cause_word cause ∷ []))
        into.old result into.new }
{
    write_three(into, b"reset", name_at(&names.nodes, node), cause.word())
}

/// Writes `protect N M`, or `-` where it's no module.
fn write_protect(into: &mut [u8; 128], names: &Names, node: u8, module: Option<u8>) -> usize
    ensures { IsWrittenText (spaced_words (codes "protect" ∷ name_at names.now.nodes node
        ∷ name_or (codes "-") names.now.modules «module» ∷ [])) into.old result into.new }
{
    let module = name_or(b"-", &names.modules, module);
    write_three(into, b"protect", name_at(&names.nodes, node), module)
}

/// Writes `open M c SIDE EPOCH`, of an epoch 0 without it.
fn write_open(
    into: &mut [u8; 128],
    names: &Names,
    module: u8,
    link: u8,
    side: Side,
    epoch: u8,
) -> usize
    ensures { IsWrittenText (spaced_words (codes "open" ∷ name_at names.now.modules «module»
        ∷ name_at names.now.links link
        ∷ side_word side ∷ epoch_words epoch)) into.old result into.new }
{
    let module = name_at(&names.modules, module);
    let link = name_at(&names.links, link);
    if epoch == 0 {
        return write_four(into, b"open", module, link, side_word(side));
    }
    let mut digits = Buffer::new();
    let epoch = digits.format(epoch).as_bytes();
    write_five(into, b"open", module, link, side_word(side), epoch)
}

/// Writes `take M c NUMBER VALUE`.
fn write_take(
    into: &mut [u8; 128],
    names: &Names,
    module: u8,
    link: u8,
    number: u32,
    value: u16,
) -> usize
    ensures { IsWrittenText (spaced_words (codes "take" ∷ name_at names.now.modules «module»
        ∷ name_at names.now.links link
        ∷ decimal number ∷ decimal value ∷ [])) into.old result into.new }
{
    let module = name_at(&names.modules, module);
    let link = name_at(&names.links, link);
    let mut first = Buffer::new();
    let mut second = Buffer::new();
    let number = first.format(number).as_bytes();
    let value = second.format(value).as_bytes();
    write_five(into, b"take", module, link, number, value)
}

/// Writes `done M STATUS PIECES`.
fn write_done(into: &mut [u8; 128], names: &Names, module: u8, status: u16, pieces: u16) -> usize
    ensures { IsWrittenText (spaced_words (codes "done" ∷ name_at names.now.modules «module»
        ∷ decimal status
        ∷ decimal pieces ∷ [])) into.old result into.new }
{
    let mut first = Buffer::new();
    let mut second = Buffer::new();
    let status = first.format(status).as_bytes();
    let pieces = second.format(pieces).as_bytes();
    write_four(
        into,
        b"done",
        name_at(&names.modules, module),
        status,
        pieces,
    )
}

/// Writes `packet NUMBER LENGTH`.
fn write_packet(into: &mut [u8; 128], number: u32, len: u16) -> usize
    ensures { IsWrittenText (spaced_words (codes "packet" ∷ decimal number ∷ decimal len ∷ []))
        into.old result into.new }
{
    let mut first = Buffer::new();
    let mut second = Buffer::new();
    let number = first.format(number).as_bytes();
    let len = second.format(len).as_bytes();
    write_three(into, b"packet", number, len)
}

/// Writes an item's line, without a newline, at the start of the buffer, and answers how many bytes
/// the line has. The bytes after it stay. An index past the end of its list writes no bytes.
#[tactic(auto, unfolding(crate::specs::Items::item_text))]
pub fn write_item(names: &Names, item: &Item, into: &mut [u8; 128]) -> usize
    ensures { IsWrittenText (item_text names.now item.now) into.old result into.new }
{
    let modules = &names.modules;
    match *item {
        Item::Reset { node, cause } => write_reset(into, names, node, cause),
        Item::Protect { node, module } => write_protect(into, names, node, module),
        Item::Sense { device, value } => write_pair(into, b"sense", &names.devices, device, value),
        Item::Read { module, value } => write_pair(into, b"read", modules, module, value),
        Item::Drain { device } => write_two(into, b"drain", name_at(&names.devices, device)),
        Item::Ask { module, challenge } => write_pair(into, b"ask", modules, module, challenge),
        Item::Attested { module, boot } => write_pair(into, b"attested", modules, module, boot),
        Item::Denied { module } => write_two(into, b"denied", name_at(modules, module)),
        Item::Vouch { module, challenge } => write_pair(into, b"vouch", modules, module, challenge),
        Item::Open {
            module,
            link,
            side,
            epoch,
        } => write_open(into, names, module, link, side, epoch),
        Item::Take {
            module,
            link,
            number,
            value,
        } => write_take(into, names, module, link, number, value),
        Item::Out { module, value } => write_pair(into, b"out", modules, module, value),
        Item::Raw { device, value } => write_pair(into, b"raw", &names.devices, device, value),
        Item::Done {
            module,
            status,
            pieces,
        } => write_done(into, names, module, status, pieces),
        Item::Packet { number, len } => write_packet(into, number, len),
        Item::Forged { module } => write_two(into, b"forged", name_or(&DEPLOYER, modules, module)),
        Item::Busy { node } => write_two(into, b"busy", name_at(&names.nodes, node)),
        Item::Skip { node } => write_two(into, b"skip", name_at(&names.nodes, node)),
        Item::Budget { node } => write_two(into, b"budget", name_at(&names.nodes, node)),
    }
}
