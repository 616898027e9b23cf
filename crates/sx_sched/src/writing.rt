//! From a line to its text.

ghost use Rattle.std.specs.Prelude.{◌≡◌, [], ◌∷◌, codes, decimal, take, IsTrue, Ok};
ghost use Rattle.sx_asm.specs.Assembled.{assembled};
ghost use Rattle.sx_asm.specs.Shown.{hex};
ghost use Rattle.sx_trace.specs.ValidNames.{are_valid};
ghost use Rattle.sx_trace.specs.Items.{name_at, spaced_words};
ghost use Rattle.sx_trace.specs.Written.{IsWrittenText};
ghost use Rattle.sx_sched.specs.Seen.{line_of};
ghost use Rattle.sx_sched.specs.InForm.{IsLine, IsWritten};
ghost use Rattle.sx_sched.specs.Reading.{said_line};
ghost use Rattle.sx_sched.specs.Written.{line_text};

use crate::lines::Line;
use itoa::Buffer;
use sx_asm::hex;
use sx_lang::names::Name;
use sx_trace::names::Names;
use sx_trace::writing::{name_at, write_five, write_four, write_three, write_two};

/// Writes `take N ADDRESS LENGTH`.
fn write_take(into: &mut [u8; 128], nodes: &[Name], node: u8, at: u16, len: u16) -> usize
    ensures { IsWrittenText (spaced_words (codes "take" ∷ name_at nodes.now node ∷ hex at
        ∷ decimal len ∷ [])) into.old result into.new }
{
    let at = hex(at);
    let mut digits = Buffer::new();
    let len = digits.format(len).as_bytes();
    write_four(into, b"take", name_at(nodes, node), at.as_slice(), len)
}

/// Writes `give PACKET N ADDRESS`.
fn write_give(into: &mut [u8; 128], nodes: &[Name], packet: u32, node: u8, at: u16) -> usize
    ensures { IsWrittenText (spaced_words (codes "give" ∷ decimal packet ∷ name_at nodes.now node
        ∷ hex at ∷ [])) into.old result into.new }
{
    let at = hex(at);
    let mut digits = Buffer::new();
    let packet = digits.format(packet).as_bytes();
    write_four(into, b"give", packet, name_at(nodes, node), at.as_slice())
}

/// Writes `sense D VALUE`.
fn write_sense(into: &mut [u8; 128], devices: &[Name], device: u8, value: u16) -> usize
    ensures { IsWrittenText (spaced_words (codes "sense" ∷ name_at devices.now device
        ∷ decimal value ∷ [])) into.old result into.new }
{
    let mut digits = Buffer::new();
    let value = digits.format(value).as_bytes();
    write_three(into, b"sense", name_at(devices, device), value)
}

/// Writes `answer M BOOT PACKET`.
fn write_answer(into: &mut [u8; 128], modules: &[Name], module: u8, boot: u32, packet: u32) -> usize
    ensures { IsWrittenText (spaced_words (codes "answer" ∷ name_at modules.now «module»
        ∷ decimal boot ∷ decimal packet ∷ [])) into.old result into.new }
{
    let mut first = Buffer::new();
    let mut second = Buffer::new();
    let boot = first.format(boot).as_bytes();
    let packet = second.format(packet).as_bytes();
    write_four(into, b"answer", name_at(modules, module), boot, packet)
}

/// Writes `call M ENTRY ADDRESS ADDRESS`.
fn write_call(
    into: &mut [u8; 128],
    modules: &[Name],
    module: u8,
    entry: u16,
    input: u16,
    output: u16,
) -> usize
    ensures { IsWrittenText (spaced_words (codes "call" ∷ name_at modules.now «module»
        ∷ decimal entry ∷ hex input ∷ hex output ∷ [])) into.old result into.new }
{
    let input = hex(input);
    let output = hex(output);
    let mut digits = Buffer::new();
    let entry = digits.format(entry).as_bytes();
    let module = name_at(modules, module);
    write_five(
        into,
        b"call",
        module,
        entry,
        input.as_slice(),
        output.as_slice(),
    )
}

/// Writes a line's text at the start of the buffer.
#[tactic(auto, unfolding(crate::specs::Written::line_text))]
fn write_text(names: &Names, line: &Line, into: &mut [u8; 128]) -> usize
    requires { IsWritten (line_of line.now) }
    ensures { IsWrittenText (line_text names.now (line_of line.now)) into.old result into.new }
{
    let (nodes, modules) = (&names.nodes, &names.modules);
    match line {
        Line::Take { node, at, len } => write_take(into, nodes, *node, *at, *len),
        Line::Give { packet, node, at } => write_give(into, nodes, *packet, *node, *at),
        Line::Sense { device, value } => write_sense(into, &names.devices, *device, *value),
        Line::Ask { module } => write_two(into, b"ask", name_at(modules, *module)),
        Line::Answer {
            module,
            boot,
            packet,
        } => write_answer(into, modules, *module, *boot, *packet),
        Line::Load { module } => write_two(into, b"load", name_at(modules, *module)),
        Line::Call {
            module,
            entry,
            input,
            output,
        } => write_call(into, modules, *module, *entry, *input, *output),
        _ => unreachable!(),
    }
}

/// Writes the text of a `load`, `call`, `ask`, `answer`, `give`, `take` or `sense`, which is in
/// form for the names, without a newline at the start of the buffer, and answers how many bytes the
/// text has. The bytes after it stay. What is written says the line: `parse_line` gives it back.
/// Addresses are written as `0x` and lower-case hexadecimal digits, other numbers in decimal, all
/// without leading zeros.
pub fn write_line(names: &Names, line: &Line, into: &mut [u8; 128]) -> usize
    requires valid { IsTrue (are_valid names.now) }
    requires kind { IsWritten (line_of line.now) }
    requires in_form { IsLine names.now (line_of line.now) }
    ensures text { IsWrittenText (line_text names.now (line_of line.now)) into.old result into.new }
    ensures said { said_line assembled names.now (take result into.new) ≡ Ok (line_of line.now) }
{
    write_text(names, line, into)
}
