//! From a text to a line, kind by kind: first the number of words, then word by word.

ghost use Rattle.std.specs.Prelude.{◌≡◌, IfOk, IfErr, IsTrue};
ghost use Rattle.sx_asm.specs.Assembled.{assembled};
ghost use Rattle.sx_trace.specs.ValidNames.{are_valid};
ghost use Rattle.sx_sched.specs.Words.{words_of, text_behind};
ghost use Rattle.sx_sched.specs.Lines.{Run, Finish, Put, Set, Take, Give, Forge};
ghost use Rattle.sx_sched.specs.Seen.{line_of, seen_line};
ghost use Rattle.sx_sched.specs.InForm.{IsLine};
ghost use Rattle.sx_sched.specs.Lines.{Sense, Irq, Reset, Ask, Answer, Load, Call};
ghost use Rattle.sx_sched.specs.Reading.{node_of, sensor_of, module_of, register_of};
ghost use Rattle.sx_sched.specs.Answers.{IsBrokenRule, TakesMemory, MayWant, Answers};
ghost use Rattle.sx_sched.specs.Reading.{number_in, number16, number32, bytes_of, one, two, three};
ghost use Rattle.sx_sched.specs.Reading.{four, code_line, module_kinds, plain_kinds, kinds};
ghost use Rattle.sx_sched.specs.Reading.{said_by, said_line};

use crate::fields::{
    bytes_of, code_of, module_of, node_of, number_in, number16, number32, register_of, sensor_of,
};
use crate::lines::{Line, LineError, NO_KIND, WRONG_COUNT};
use crate::words::{
    four_words, is_comment, one_word, split_word, three_words, two_before, two_words,
};
use std::alloc::Global;
use sx_trace::names::Names;

fn run_line(names: &Names, fields: &[u8]) -> Result<Line, LineError>
    requires { IsTrue (are_valid names.now) }
    ensures line { seen_line result ≡ two (node_of names.now) (number_in 1 65535) Run
        (words_of fields.now) }
    ensures fault { IfErr result IsBrokenRule }
{
    let (name, count) = two_words(fields).ok_or(WRONG_COUNT)?;
    let node = node_of(names, name)?;
    let steps = number_in(1, 65535, count)?;
    Ok(Line::Run {
        node,
        steps: steps as u16,
    })
}

fn finish_line(names: &Names, fields: &[u8]) -> Result<Line, LineError>
    requires { IsTrue (are_valid names.now) }
    ensures line { seen_line result ≡ one (node_of names.now) Finish (words_of fields.now) }
    ensures fault { IfErr result IsBrokenRule }
{
    let name = one_word(fields).ok_or(WRONG_COUNT)?;
    let node = node_of(names, name)?;
    Ok(Line::Finish { node })
}

fn set_line(names: &Names, fields: &[u8]) -> Result<Line, LineError>
    requires { IsTrue (are_valid names.now) }
    ensures line { seen_line result ≡ three (node_of names.now) register_of number16 Set
        (words_of fields.now) }
    ensures fault { IfErr result IsBrokenRule }
{
    let (name, reg, value) = three_words(fields).ok_or(WRONG_COUNT)?;
    let node = node_of(names, name)?;
    let reg = register_of(reg)?;
    let value = number16(value)?;
    Ok(Line::Set { node, reg, value })
}

fn take_line(names: &Names, fields: &[u8]) -> Result<Line, LineError>
    requires { IsTrue (are_valid names.now) }
    ensures line { seen_line result ≡ three (node_of names.now) number16 (number_in 1 384) Take
        (words_of fields.now) }
    ensures fault { IfErr result IsBrokenRule }
{
    let (name, at, len) = three_words(fields).ok_or(WRONG_COUNT)?;
    let node = node_of(names, name)?;
    let at = number16(at)?;
    let len = number_in(1, 384, len)?;
    Ok(Line::Take {
        node,
        at,
        len: len as u16,
    })
}

fn give_line(names: &Names, fields: &[u8]) -> Result<Line, LineError>
    requires { IsTrue (are_valid names.now) }
    ensures line { seen_line result ≡ three number32 (node_of names.now) number16 Give
        (words_of fields.now) }
    ensures fault { IfErr result IsBrokenRule }
{
    let (packet, name, at) = three_words(fields).ok_or(WRONG_COUNT)?;
    let packet = number32(packet)?;
    let node = node_of(names, name)?;
    let at = number16(at)?;
    Ok(Line::Give { packet, node, at })
}

fn sense_line(names: &Names, fields: &[u8]) -> Result<Line, LineError>
    requires { IsTrue (are_valid names.now) }
    ensures line { seen_line result ≡ two (sensor_of names.now) (number_in 0 32767) Sense
        (words_of fields.now) }
    ensures fault { IfErr result IsBrokenRule }
{
    let (name, value) = two_words(fields).ok_or(WRONG_COUNT)?;
    let device = sensor_of(names, name)?;
    let value = number_in(0, 32767, value)?;
    Ok(Line::Sense {
        device,
        value: value as u16,
    })
}

fn irq_line(names: &Names, fields: &[u8]) -> Result<Line, LineError>
    requires { IsTrue (are_valid names.now) }
    ensures line { seen_line result ≡ two (node_of names.now) (number_in 0 14) Irq
        (words_of fields.now) }
    ensures fault { IfErr result IsBrokenRule }
{
    let (name, line) = two_words(fields).ok_or(WRONG_COUNT)?;
    let node = node_of(names, name)?;
    let line = number_in(0, 14, line)?;
    Ok(Line::Irq {
        node,
        line: line as u8,
    })
}

fn reset_line(names: &Names, fields: &[u8]) -> Result<Line, LineError>
    requires { IsTrue (are_valid names.now) }
    ensures line { seen_line result ≡ one (node_of names.now) Reset (words_of fields.now) }
    ensures fault { IfErr result IsBrokenRule }
{
    let name = one_word(fields).ok_or(WRONG_COUNT)?;
    let node = node_of(names, name)?;
    Ok(Line::Reset { node })
}

fn ask_line(names: &Names, fields: &[u8]) -> Result<Line, LineError>
    requires { IsTrue (are_valid names.now) }
    ensures line { seen_line result ≡ one (module_of names.now) Ask (words_of fields.now) }
    ensures fault { IfErr result IsBrokenRule }
{
    let name = one_word(fields).ok_or(WRONG_COUNT)?;
    let module = module_of(names, name)?;
    Ok(Line::Ask { module })
}

fn answer_line(names: &Names, fields: &[u8]) -> Result<Line, LineError>
    requires { IsTrue (are_valid names.now) }
    ensures line { seen_line result ≡ three (module_of names.now) number32 number32 Answer
        (words_of fields.now) }
    ensures fault { IfErr result IsBrokenRule }
{
    let (name, boot, packet) = three_words(fields).ok_or(WRONG_COUNT)?;
    let module = module_of(names, name)?;
    let boot = number32(boot)?;
    let packet = number32(packet)?;
    Ok(Line::Answer {
        module,
        boot,
        packet,
    })
}

fn load_line(names: &Names, fields: &[u8]) -> Result<Line, LineError>
    requires { IsTrue (are_valid names.now) }
    ensures line { seen_line result ≡ one (module_of names.now) Load (words_of fields.now) }
    ensures fault { IfErr result IsBrokenRule }
{
    let name = one_word(fields).ok_or(WRONG_COUNT)?;
    let module = module_of(names, name)?;
    Ok(Line::Load { module })
}

fn call_line(names: &Names, fields: &[u8]) -> Result<Line, LineError>
    requires { IsTrue (are_valid names.now) }
    ensures line { seen_line result ≡ four (module_of names.now) number16 number16 number16 Call
        (words_of fields.now) }
    ensures fault { IfErr result IsBrokenRule }
{
    let (name, entry, input, output) = four_words(fields).ok_or(WRONG_COUNT)?;
    let module = module_of(names, name)?;
    let entry = number16(entry)?;
    let input = number16(input)?;
    let output = number16(output)?;
    Ok(Line::Call {
        module,
        entry,
        input,
        output,
    })
}

/// A line that begins with a module.
fn module_line(names: &Names, first: &[u8], fields: &[u8]) -> Result<Line, LineError>
    requires { IsTrue (are_valid names.now) }
    ensures line { seen_line result ≡ said_by (module_kinds names.now) first.now
        (words_of fields.now) }
    ensures fault { IfErr result IsBrokenRule }
{
    if first == b"ask".as_slice() {
        return ask_line(names, fields);
    }
    if first == b"answer".as_slice() {
        return answer_line(names, fields);
    }
    if first == b"load".as_slice() {
        return load_line(names, fields);
    }
    if first == b"call".as_slice() {
        return call_line(names, fields);
    }
    Err(NO_KIND)
}

/// A line without bytes.
fn plain_line(names: &Names, first: &[u8], fields: &[u8]) -> Result<Line, LineError>
    requires { IsTrue (are_valid names.now) }
    ensures line { seen_line result ≡ said_by (plain_kinds names.now) first.now
        (words_of fields.now) }
    ensures fault { IfErr result IsBrokenRule }
{
    if first == b"run".as_slice() {
        return run_line(names, fields);
    }
    if first == b"finish".as_slice() {
        return finish_line(names, fields);
    }
    if first == b"set".as_slice() {
        return set_line(names, fields);
    }
    if first == b"take".as_slice() {
        return take_line(names, fields);
    }
    if first == b"give".as_slice() {
        return give_line(names, fields);
    }
    if first == b"sense".as_slice() {
        return sense_line(names, fields);
    }
    if first == b"irq".as_slice() {
        return irq_line(names, fields);
    }
    if first == b"reset".as_slice() {
        return reset_line(names, fields);
    }
    module_line(names, first, fields)
}

fn put_line(alloc: Global, names: &Names, fields: &[u8]) -> Result<Line, LineError>
    requires { IsTrue (are_valid names.now) }
    ensures { Answers line_of (MayWant TakesMemory (text_behind 2 fields.now))
        (three (node_of names.now) number16 (bytes_of 1024) Put (words_of fields.now)) result }
{
    let (name, at, text) = three_words(fields).ok_or(WRONG_COUNT)?;
    let node = node_of(names, name)?;
    let at = number16(at)?;
    let bytes = bytes_of(alloc, 1024, text)?;
    Ok(Line::Put { node, at, bytes })
}

fn forge_line(alloc: Global, fields: &[u8]) -> Result<Line, LineError>
    ensures { Answers line_of (MayWant TakesMemory (text_behind 2 fields.now))
        (one (bytes_of 384) Forge (words_of fields.now)) result }
{
    let text = one_word(fields).ok_or(WRONG_COUNT)?;
    let bytes = bytes_of(alloc, 384, text)?;
    Ok(Line::Forge { bytes })
}

/// Assembled code is put where it is.
fn code_line(alloc: Global, names: &Names, fields: &[u8]) -> Result<Line, LineError>
    requires { IsTrue (are_valid names.now) }
    ensures { Answers line_of (MayWant TakesMemory (text_behind 2 fields.now))
        (code_line assembled names.now (text_behind 2 fields.now) (words_of fields.now)) result }
{
    let (name, at, text) = two_before(fields).ok_or(WRONG_COUNT)?;
    let node = node_of(names, name)?;
    let at = number16(at)?;
    let bytes = code_of(alloc, at, text)?;
    Ok(Line::Put { node, at, bytes })
}

/// A line of the kind of its first word.
#[tactic(auto)]
fn kind_line(alloc: Global, names: &Names, first: &[u8], fields: &[u8]) -> Result<Line, LineError>
    requires { IsTrue (are_valid names.now) }
    ensures { Answers line_of (MayWant TakesMemory (text_behind 2 fields.now))
        (said_by (kinds assembled names.now (text_behind 2 fields.now)) first.now
        (words_of fields.now)) result }
{
    if first == b"put".as_slice() {
        return put_line(alloc, names, fields);
    }
    if first == b"forge".as_slice() {
        return forge_line(alloc, fields);
    }
    if first == b"asm".as_slice() {
        return code_line(alloc, names, fields);
    }
    plain_line(names, first, fields)
}

/// The line that a text says. An `asm` says the `put` of its code: what is assembled is all that
/// follows the address and the blanks that follow it. `Fault` has the number of the first rule that
/// the text breaks: 3, 7, then word by word 4, 5 or 6, and last 8. `OutOfMemory` comes only of a
/// `put` or a `forge` that breaks none, and of an `asm` that breaks none before rule 8 and whose
/// text is UTF-8: whether it breaks rule 8 isn't known then. The line is in form for the names.
#[tactic(auto, unfolding(crate::specs::Reading::said_line))]
pub fn parse_line(alloc: Global, names: &Names, text: &[u8]) -> Result<Line, LineError>
    requires { IsTrue (are_valid names.now) }
    ensures answer { Answers line_of (MayWant TakesMemory (text_behind 3 text.now))
        (said_line assembled names.now text.now) result }
    ensures in_form { IfOk result (λ line. IsLine names.now (line_of line)) }
{
    let Some((first, fields)) = split_word(text) else {
        return Ok(Line::Blank);
    };
    if is_comment(first) {
        return Ok(Line::Blank);
    }
    kind_line(alloc, names, first, fields)
}
