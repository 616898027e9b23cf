//! From a line to its item. Each part of a line is taken only as an item's line has it, so what is
//! read needs no second look.

ghost use Rattle.std.specs.Prelude.{◌≡◌, ◌<◌, ◌≤◌, ◌^◌, length, position, IsTrue, IfSome};
ghost use Rattle.std.specs.Prelude.{MatchOption, None, Some};
ghost use Rattle.std.specs.Str.{bytes_eq};
ghost use Rattle.sx_trace.specs.ValidNames.{are_valid};
ghost use Rattle.sx_trace.specs.Names.{NameLists};
ghost use Rattle.sx_trace.specs.Items.{item_text};
ghost use Rattle.sx_trace.specs.KnownItems.{IsItem, IsSizedItem, IsNoItem, IsIndexOrNone};
ghost use Rattle.sx_trace.specs.Finding.{is_space, cut, has_first, with_digit, number_below};
ghost use Rattle.sx_trace.specs.Finding.{index_or_none, cause_of, side_of, later_open, side_in};
ghost use Rattle.sx_trace.specs.Finding.{open_in, take_in, done_in, packet_in, numbered_in};
ghost use Rattle.sx_trace.specs.Finding.{module_in, device_in, node_in, refused_in, has_one_name};
ghost use Rattle.sx_trace.specs.Finding.{named_in, is_of_node, is_of_device, first_in, kind_in};
ghost use Rattle.sx_trace.specs.Finding.{item_in};

use crate::items::{Cause, Item};
use crate::names::{DEPLOYER, Names};
use std::simd::prelude::*;
use sx_lang::sides::Side;

/// The offset of the first space, where a text has 8 bytes or more and one of the first 8 is one.
#[inline(always)]
fn near_space(text: &[u8]) -> Option<usize>
    ensures offset { IfSome result (λ i. position is_space text.now ≡ Some i) }
    ensures within { IfSome result (λ i. i < length text.now) }
{
    if text.len() < 8 {
        return None;
    }
    let spaces = u8x8::from_slice(text)
        .simd_eq(u8x8::splat(b' '))
        .to_bitmask();
    if spaces == 0 {
        return None;
    }
    Some(spaces.trailing_zeros() as usize)
}

/// The offset of the first space. It is code of its own: where it is inlined, each place that is
/// computed from the offset is kept up at every byte.
#[inline(never)]
fn first_space(text: &[u8]) -> Option<usize>
    ensures offset { result ≡ position is_space text.now }
    ensures within { IfSome result (λ i. i < length text.now) }
{
    match near_space(text) {
        Some(offset) => Some(offset),
        None => text.iter().position(|byte| *byte == b' '),
    }
}

/// What is before the first space, and what follows it; None exactly without a space.
#[tactic(auto, using(std::proofs::lemmas::List::take_rest), unfolding(crate::specs::Finding::cut))]
fn cut(text: &[u8]) -> Option<(&[u8], &[u8])>
    ensures { MatchOption result (cut text.now ≡ None)
        (λ parts. cut text.now ≡ Some (parts.0.now, parts.1.now)) }
{
    let end = first_space(text)?;
    Some((&text[..end], &text[end + 1..]))
}

/// Whether some byte is first, and a 0 only if it is alone.
fn has_first(text: &[u8]) -> bool
    ensures { result ≡ has_first text.now }
{
    match text.split_first() {
        Some((first, rest)) => *first != b'0' || rest.is_empty(),
        None => false,
    }
}

/// The number with one more digit, below a limit.
fn with_digit(limit: u64, number: u64, byte: u8) -> Option<u64>
    requires few { limit ≤ 4294967296 }
    requires below { number < limit }
    ensures more { result ≡ with_digit limit number byte }
    ensures below { IfSome result (λ n. n < limit) }
{
    if !byte.is_ascii_digit() {
        return None;
    }
    let more = number * 10 + u64::from(byte - b'0');
    if more < limit { Some(more) } else { None }
}

/// The number below a limit that a text writes without leading zeros.
#[tactic(auto, unfolding(crate::specs::Finding::number_below))]
fn number_below(limit: u64, text: &[u8]) -> Option<u64>
    requires some { 0 < limit }
    requires few { limit ≤ 4294967296 }
    ensures number { result ≡ number_below limit text.now }
    ensures below { IfSome result (λ n. n < limit) }
{
    if !has_first(text) {
        return None;
    }
    let mut number = 0;
    for byte in text {
        number = with_digit(limit, number, *byte)?;
    }
    Some(number)
}

/// A number of 16 bits.
fn number16(text: &[u8]) -> Option<u16>
    ensures { result ≡ number_below (2 ^ 16) text.now }
{
    let number = number_below(65_536, text)?;
    Some(number as u16)
}

/// A number of 32 bits.
fn number32(text: &[u8]) -> Option<u32>
    ensures { result ≡ number_below (2 ^ 32) text.now }
{
    let number = number_below(4_294_967_296, text)?;
    Some(number as u32)
}

/// The number of 128 bits with one more digit.
fn with_digit128(number: u128, byte: u8) -> Option<u128>
    ensures { result ≡ with_digit (2 ^ 128) number byte }
{
    if !byte.is_ascii_digit() {
        return None;
    }
    number.checked_mul(10)?.checked_add(u128::from(byte - b'0'))
}

/// A number of 128 bits.
#[tactic(auto, unfolding(crate::specs::Finding::number_below))]
fn number128(text: &[u8]) -> Option<u128>
    ensures { result ≡ number_below (2 ^ 128) text.now }
{
    if !has_first(text) {
        return None;
    }
    let mut number = 0;
    for byte in text {
        number = with_digit128(number, *byte)?;
    }
    Some(number)
}

/// The index of a module, or None for the other word.
fn index_or_none(other: &[u8], names: &Names, word: &[u8]) -> Option<Option<u8>>
    requires { IsTrue (are_valid names.now) }
    ensures index { result ≡ index_or_none other.now names.now.modules word.now }
    ensures named { IfSome result (λ m. IsIndexOrNone names.now.modules m) }
{
    if word == other {
        return Some(None);
    }
    let module = names.module(word)?;
    Some(Some(module))
}

/// Whether a text is this word. As arrays they are compared without a call: their length is known.
#[inline(always)]
fn is_word<const N: usize>(text: &[u8], word: &[u8; N]) -> bool
    ensures { result ≡ bytes_eq text.now word.now }
{
    match <&[u8; N]>::try_from(text) {
        Ok(text) => *text == *word,
        Err(_) => false,
    }
}

fn cause_of(word: &[u8]) -> Option<Cause>
    ensures { result ≡ cause_of word.now }
{
    if is_word(word, b"order") {
        Some(Cause::Order)
    } else if is_word(word, b"fetch") {
        Some(Cause::Fetch)
    } else if is_word(word, b"read") {
        Some(Cause::Read)
    } else if is_word(word, b"write") {
        Some(Cause::Write)
    } else if is_word(word, b"device") {
        Some(Cause::Device)
    } else if is_word(word, b"illegal") {
        Some(Cause::Illegal)
    } else if is_word(word, b"range") {
        Some(Cause::Range)
    } else if is_word(word, b"asked") {
        Some(Cause::Asked)
    } else {
        None
    }
}

fn side_of(word: &[u8]) -> Option<Side>
    ensures { result ≡ side_of word.now }
{
    if is_word(word, b"from") {
        Some(Side::From)
    } else if is_word(word, b"to") {
        Some(Side::To)
    } else {
        None
    }
}

/// The item `open` with this side and this epoch, which isn't 0.
fn later_open(names: &Names, module: u8, link: u8, side: &[u8], epoch: &[u8]) -> Option<Item>
    requires named { «module» < length names.now.modules }
    requires linked { link < length names.now.links }
    ensures item { result ≡ later_open «module» link side.now epoch.now }
    ensures fit { IfSome result (λ item. IsItem names.now item) }
{
    let side = side_of(side)?;
    let epoch = number_below(256, epoch)?;
    if epoch == 0 {
        return None;
    }
    Some(Item::Open {
        module,
        link,
        side,
        epoch: epoch as u8,
    })
}

/// The item `open` of what follows its connection: without an epoch it is 0.
fn side_in(names: &Names, module: u8, link: u8, fields: &[u8]) -> Option<Item>
    requires named { «module» < length names.now.modules }
    requires linked { link < length names.now.links }
    ensures item { result ≡ side_in «module» link fields.now }
    ensures fit { IfSome result (λ item. IsItem names.now item) }
{
    if let Some(side) = side_of(fields) {
        return Some(Item::Open {
            module,
            link,
            side,
            epoch: 0,
        });
    }
    let (side, epoch) = cut(fields)?;
    later_open(names, module, link, side, epoch)
}

fn open_in(names: &Names, module: u8, fields: &[u8]) -> Option<Item>
    requires valid { IsTrue (are_valid names.now) }
    requires named { «module» < length names.now.modules }
    ensures item { result ≡ open_in names.now «module» fields.now }
    ensures fit { IfSome result (λ item. IsItem names.now item) }
{
    let (link, fields) = cut(fields)?;
    let link = names.link(link)?;
    side_in(names, module, link, fields)
}

fn take_in(names: &Names, module: u8, fields: &[u8]) -> Option<Item>
    requires valid { IsTrue (are_valid names.now) }
    requires named { «module» < length names.now.modules }
    ensures item { result ≡ take_in names.now «module» fields.now }
    ensures fit { IfSome result (λ item. IsItem names.now item) }
{
    let (link, fields) = cut(fields)?;
    let (number, value) = cut(fields)?;
    let link = names.link(link)?;
    let number = number32(number)?;
    let value = number16(value)?;
    Some(Item::Take {
        module,
        link,
        number,
        value,
    })
}

fn done_in(names: &Names, module: u8, fields: &[u8]) -> Option<Item>
    requires { «module» < length names.now.modules }
    ensures item { result ≡ done_in «module» fields.now }
    ensures fit { IfSome result (λ item. IsItem names.now item) }
{
    let (status, pieces) = cut(fields)?;
    let status = number16(status)?;
    let pieces = number16(pieces)?;
    Some(Item::Done {
        module,
        status,
        pieces,
    })
}

fn packet_in(fields: &[u8]) -> Option<Item>
    ensures item { result ≡ packet_in fields.now }
    ensures fit { IfSome result IsSizedItem }
{
    let (number, len) = cut(fields)?;
    let number = number32(number)?;
    let len = number16(len)?;
    Some(Item::Packet { number, len })
}

/// What a module did with one number.
fn numbered_in(names: &Names, kind: &[u8], module: u8, fields: &[u8]) -> Option<Item>
    requires { «module» < length names.now.modules }
    ensures item { result ≡ numbered_in kind.now «module» fields.now }
    ensures fit { IfSome result (λ item. IsItem names.now item) }
{
    if is_word(kind, b"read") {
        let value = number16(fields)?;
        return Some(Item::Read { module, value });
    }
    if is_word(kind, b"out") {
        let value = number16(fields)?;
        return Some(Item::Out { module, value });
    }
    if is_word(kind, b"ask") {
        let challenge = number128(fields)?;
        return Some(Item::Ask { module, challenge });
    }
    if is_word(kind, b"vouch") {
        let challenge = number128(fields)?;
        return Some(Item::Vouch { module, challenge });
    }
    if is_word(kind, b"attested") {
        let boot = number32(fields)?;
        return Some(Item::Attested { module, boot });
    }
    None
}

/// An item whose first field is a module, and not its only one.
fn module_in(names: &Names, kind: &[u8], module: u8, fields: &[u8]) -> Option<Item>
    requires valid { IsTrue (are_valid names.now) }
    requires named { «module» < length names.now.modules }
    ensures item { result ≡ module_in names.now kind.now «module» fields.now }
    ensures fit { IfSome result (λ item. IsItem names.now item) }
{
    if is_word(kind, b"done") {
        return done_in(names, module, fields);
    }
    if is_word(kind, b"take") {
        return take_in(names, module, fields);
    }
    if is_word(kind, b"open") {
        return open_in(names, module, fields);
    }
    numbered_in(names, kind, module, fields)
}

/// An item of a device and one number.
fn device_in(names: &Names, kind: &[u8], device: u8, fields: &[u8]) -> Option<Item>
    requires { device < length names.now.devices }
    ensures item { result ≡ device_in kind.now device fields.now }
    ensures fit { IfSome result (λ item. IsItem names.now item) }
{
    if is_word(kind, b"sense") {
        let value = number16(fields)?;
        return Some(Item::Sense { device, value });
    }
    let value = number16(fields)?;
    Some(Item::Raw { device, value })
}

/// An item of a node and one other word.
fn node_in(names: &Names, kind: &[u8], node: u8, fields: &[u8]) -> Option<Item>
    requires valid { IsTrue (are_valid names.now) }
    requires named { node < length names.now.nodes }
    ensures item { result ≡ node_in names.now kind.now node fields.now }
    ensures fit { IfSome result (λ item. IsItem names.now item) }
{
    if is_word(kind, b"reset") {
        let cause = cause_of(fields)?;
        return Some(Item::Reset { node, cause });
    }
    let module = index_or_none(b"-", names, fields)?;
    Some(Item::Protect { node, module })
}

/// An item of a node alone.
fn refused_in(kind: &[u8], node: u8) -> Item
    ensures item { result ≡ refused_in kind.now node }
    ensures fit { (n : NameLists) → node < length n.nodes → IsItem n result }
{
    if is_word(kind, b"busy") {
        Item::Busy { node }
    } else if is_word(kind, b"skip") {
        Item::Skip { node }
    } else {
        Item::Budget { node }
    }
}

fn has_one_name(kind: &[u8]) -> bool
    ensures { result ≡ has_one_name kind.now }
{
    is_word(kind, b"busy")
        || is_word(kind, b"skip")
        || is_word(kind, b"budget")
        || is_word(kind, b"drain")
        || is_word(kind, b"denied")
        || is_word(kind, b"forged")
}

/// An item of this kind and one name.
fn named_in(names: &Names, kind: &[u8], name: &[u8]) -> Option<Item>
    requires { IsTrue (are_valid names.now) }
    ensures item { result ≡ named_in names.now kind.now name.now }
    ensures fit { IfSome result (λ item. IsItem names.now item) }
{
    if is_word(kind, b"drain") {
        let device = names.device(name)?;
        return Some(Item::Drain { device });
    }
    if is_word(kind, b"denied") {
        let module = names.module(name)?;
        return Some(Item::Denied { module });
    }
    if is_word(kind, b"forged") {
        let module = index_or_none(&DEPLOYER, names, name)?;
        return Some(Item::Forged { module });
    }
    let node = names.node(name)?;
    Some(refused_in(kind, node))
}

fn is_of_node(kind: &[u8]) -> bool
    ensures { result ≡ is_of_node kind.now }
{
    is_word(kind, b"reset") || is_word(kind, b"protect")
}

fn is_of_device(kind: &[u8]) -> bool
    ensures { result ≡ is_of_device kind.now }
{
    is_word(kind, b"sense") || is_word(kind, b"raw")
}

/// An item of this kind, whose first field is this name.
fn first_in(names: &Names, kind: &[u8], name: &[u8], fields: &[u8]) -> Option<Item>
    requires { IsTrue (are_valid names.now) }
    ensures item { result ≡ first_in names.now kind.now name.now fields.now }
    ensures fit { IfSome result (λ item. IsItem names.now item) }
{
    if is_of_node(kind) {
        let node = names.node(name)?;
        return node_in(names, kind, node, fields);
    }
    if is_of_device(kind) {
        let device = names.device(name)?;
        return device_in(names, kind, device, fields);
    }
    let module = names.module(name)?;
    module_in(names, kind, module, fields)
}

/// An item of this kind and these fields.
fn kind_in(names: &Names, kind: &[u8], fields: &[u8]) -> Option<Item>
    requires { IsTrue (are_valid names.now) }
    ensures item { result ≡ kind_in names.now kind.now fields.now }
    ensures fit { IfSome result (λ item. IsItem names.now item) }
{
    if is_word(kind, b"packet") {
        return packet_in(fields);
    }
    if has_one_name(kind) {
        return named_in(names, kind, fields);
    }
    let (name, fields) = cut(fields)?;
    first_in(names, kind, name, fields)
}

/// The item that has this line.
#[tactic(auto, unfolding(crate::specs::Finding::item_in))]
fn item_in(names: &Names, line: &[u8]) -> Option<Item>
    requires { IsTrue (are_valid names.now) }
    ensures item { result ≡ item_in names.now line.now }
    ensures fit { IfSome result (λ item. IsItem names.now item) }
{
    let (kind, fields) = cut(line)?;
    kind_in(names, kind, fields)
}

/// The item that has this line; None exactly if no item has it.
pub fn read_item(names: &Names, line: &[u8]) -> Option<Item>
    requires { IsTrue (are_valid names.now) }
    ensures { MatchOption result (IsNoItem names.now line.now) (λ item.
        IsItem names.now item × (item_text names.now item ≡ line.now)) }
{
    item_in(names, line)
}
