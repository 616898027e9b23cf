//! The texts of answers.

ghost use Rattle.std.specs.Prelude.{◌≡◌, ◌+◌, ◌≤◌, ◌++◌, IfOk, OnOk};
ghost use Rattle.spec_machine.specs.Memory.{bytes_from};
ghost use Rattle.command_snap.specs.Answers.{bytes_line, item_line, items_text, register_text};
ghost use Rattle.command_snap.specs.Answers.{registers_line, registers_text};

use command_text::address::address;
use hex::encode;
use itoa::Buffer;
use std::alloc::{AllocError, Global};
use sx_bus::{Bus, Copied};
use sx_node::Node;
use sx_tag::Tag;
use sx_trace::items::Item;
use sx_trace::names::Names;
use sx_trace::writing::{name_at, write_item};

/// Appends a space and the four digits of a register.
#[tactic(auto, unfolding(crate::specs::Answers::register_text))]
fn push_register(text: &mut Vec<u8>, value: u16) -> Result<(), AllocError>
    ensures { OnOk result (text.new.items ≡ text.old.items ++ register_text value) }
{
    let digits = address(value);
    text.push(b' ')?;
    text.extend_from_slice(&digits[2..])
}

/// Appends the first so many registers of a node.
#[tactic(auto, unfolding(crate::specs::Answers::registers_text))]
fn push_registers<B: Bus, T: Tag>(
    text: &mut Vec<u8>,
    node: &Node<B, T>,
    count: u8,
) -> Result<(), AllocError>
    requires { count ≤ 16 }
    ensures { OnOk result
        (text.new.items ≡ text.old.items ++ registers_text count 0 node.now.regs) }
{
    for k in 0..count {
        push_register(text, node.reg(k))?;
    }
    Ok(())
}

/// The line of a node's registers after so many lines.
#[tactic(auto, unfolding(crate::specs::Answers::registers_line))]
pub(crate) fn registers_line<B: Bus, T: Tag>(
    alloc: Global,
    names: &Names,
    number: u8,
    at: u32,
    node: &Node<B, T>,
) -> Result<Vec<u8>, AllocError>
    ensures { IfOk result (λ text. text.items ≡ registers_line names.now number at node.now) }
{
    let mut digits = Buffer::new();
    let mut text = Vec::new(alloc);
    text.extend_from_slice(b"regs ")?;
    text.extend_from_slice(name_at(&names.nodes, number))?;
    text.extend_from_slice(b" ")?;
    text.extend_from_slice(digits.format(at).as_bytes())?;
    push_registers(&mut text, node, 16)?;
    text.extend_from_slice(b"\n")?;
    Ok(text)
}

/// So many bytes of a node's memory from an address on.
#[tactic(auto, unfolding(spec_machine::specs::Memory::bytes_from))]
fn bytes_of<B: Copied, T: Tag>(
    alloc: Global,
    node: &Node<B, T>,
    from: u16,
    len: u16,
) -> Result<Vec<u8>, AllocError>
    requires { from + len ≤ 65536 }
    ensures { IfOk result (λ bytes. bytes.items ≡ bytes_from node.now.mem from len) }
{
    let mut bytes = Vec::new(alloc);
    for i in 0..len {
        bytes.push(node.byte(from + i))?;
    }
    Ok(bytes)
}

/// Where bytes are that are asked for: a node of this number, from an address on.
#[derive(Clone, Copy)]
pub(crate) struct Range {
    pub(crate) number: u8,
    pub(crate) from: u16,
    pub(crate) len: u16,
}

/// The line of bytes of a node's memory after so many lines.
#[tactic(auto, unfolding(crate::specs::Answers::bytes_line))]
pub(crate) fn bytes_line<B: Copied, T: Tag>(
    alloc: Global,
    names: &Names,
    range: Range,
    at: u32,
    node: &Node<B, T>,
) -> Result<Vec<u8>, AllocError>
    requires { range.from + range.len ≤ 65536 }
    ensures { IfOk result (λ text. text.items
        ≡ bytes_line names.now range.number range.from range.len at node.now) }
{
    let bytes = bytes_of(alloc, node, range.from, range.len)?;
    let memory = encode(alloc, bytes.as_slice())?;
    let mut digits = Buffer::new();
    let mut text = Vec::new(alloc);
    text.extend_from_slice(b"bytes ")?;
    text.extend_from_slice(name_at(&names.nodes, range.number))?;
    text.extend_from_slice(b" ")?;
    text.extend_from_slice(&address(range.from))?;
    text.extend_from_slice(b" ")?;
    text.extend_from_slice(digits.format(at).as_bytes())?;
    text.extend_from_slice(b" ")?;
    text.extend_from_slice(memory.as_bytes())?;
    text.extend_from_slice(b"\n")?;
    Ok(text)
}

/// Appends the line of an item.
#[tactic(auto, unfolding(crate::specs::Answers::item_line))]
fn push_item(text: &mut Vec<u8>, names: &Names, at: u32, item: &Item) -> Result<(), AllocError>
    ensures { OnOk result (text.new.items ≡ text.old.items ++ item_line names.now at item.now) }
{
    let mut digits = Buffer::new();
    let mut into = [0; 128];
    let count = write_item(names, item, &mut into);
    text.extend_from_slice(b"item ")?;
    text.extend_from_slice(digits.format(at).as_bytes())?;
    text.extend_from_slice(b" ")?;
    text.extend_from_slice(&into[..count])?;
    text.extend_from_slice(b"\n")
}

/// The lines of the items of the line with this number.
pub(crate) fn items_text(
    alloc: Global,
    names: &Names,
    at: u32,
    items: &[Item],
) -> Result<Vec<u8>, AllocError>
    ensures { IfOk result (λ text. text.items ≡ items_text names.now at items.now) }
{
    let mut text = Vec::new(alloc);
    for item in items {
        push_item(&mut text, names, at, item)?;
    }
    Ok(text)
}
