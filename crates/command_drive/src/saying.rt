//! The lines that an honest run says: those of its schedule, and the items that they show.

ghost use Rattle.std.specs.Prelude.{◌≡◌, ◌≢◌, ◌+◌, ◌≤◌, [], ◌++◌, IsTrue, List, length};
ghost use Rattle.sx_io.specs.Reading.{Answer};
ghost use Rattle.command_promise.specs.declared.status.Status.TheVariants.{OutOfMemory};
ghost use Rattle.command_promise.specs.Told.{Output, behind};
ghost use Rattle.command_promise.specs.Parts.{DoesPart};
ghost use Rattle.sx_trace.specs.ValidNames.{are_valid};
ghost use Rattle.sx_sched.specs.InForm.{IsLine, IsWritten};
ghost use Rattle.sx_sched.specs.Seen.{line_of};
ghost use Rattle.sx_drive.specs.Driving.{all_said, said_of};
ghost use Rattle.sx_drive.specs.Honest.{SaidLine};
ghost use Rattle.command_text.specs.Batch.{Writes};
ghost use Rattle.command_drive.specs.Output.{said_line, said_text};
ghost use Rattle.command_drive.specs.Parts.{AreNamed, IsNamed};

use command_promise::{Status, Turned};
use command_text::batch::{Batch, make_room};
use command_text::text::put;
use command_world::items::add_items;
use sx_drive::said::Said;
use sx_io::{Failed, Sink, put_all};
use sx_sched::lines::Line;
use sx_sched::write_line;
use sx_trace::names::Names;

/// A line whose indices, lengths and values are in their ranges can be written: its other numbers
/// are in those of their types. It does nothing: a number that is read brings its type's range.
fn can_be_written(names: &Names, line: &Line)
    requires { IsNamed names.now (line_of line.now) }
    ensures kind { IsWritten (line_of line.now) }
    ensures form { IsLine names.now (line_of line.now) }
{
    match line {
        Line::Take { at, .. } => {
            let _at = *at;
        }
        Line::Give { packet, at, .. } => {
            let _numbers = (*packet, *at);
        }
        Line::Answer { boot, packet, .. } => {
            let _numbers = (*boot, *packet);
        }
        Line::Call {
            entry,
            input,
            output,
            ..
        } => {
            let _numbers = (*entry, *input, *output);
        }
        _ => (),
    }
}

/// Appends a line of the schedule, which there is room for.
#[tactic(auto, unfolding(crate::specs::Output::said_line))]
fn push_line(batch: &mut Batch, names: &Names, line: &Line)
    requires names { IsTrue (are_valid names.now) }
    requires named { IsNamed names.now (line_of line.now) }
    requires room { length batch.old.items + 131 ≤ 8192 }
    ensures { batch.new.items
        ≡ batch.old.items ++ said_line names.now (SaidLine (line_of line.now)) }
{
    can_be_written(names, line);
    let mut into = [0; 128];
    let count = write_line(names, line, &mut into);
    put(batch, b"> ");
    put(batch, &into[..count]);
    put(batch, b"\n");
}

/// Appends a line of the schedule to a batch, which may be written before.
fn add_line<K: Sink>(
    output: &mut K,
    batch: &mut Batch,
    names: &Names,
    line: &Line,
) -> Result<(), Failed>
    requires names { IsTrue (are_valid names.now) }
    requires named { IsNamed names.now (line_of line.now) }
    ensures { Writes K.tells (K.at output.old) (K.at output.new)
        (batch.old.items ++ said_line names.now (SaidLine (line_of line.now))) batch.new.items
        result }
{
    make_room(output, batch)?;
    push_line(batch, names, line);
    Ok(())
}

/// Appends a line with its items to a batch, which may be written before each.
fn add_said<K: Sink>(
    output: &mut K,
    batch: &mut Batch,
    names: &Names,
    said: &Said,
) -> Result<(), Failed>
    requires names { IsTrue (are_valid names.now) }
    requires named { AreNamed names.now (said_of said.now) }
    ensures { Writes K.tells (K.at output.old) (K.at output.new)
        (batch.old.items ++ said_text names.now (said_of said.now)) batch.new.items result }
{
    add_line(output, batch, names, &said.line)?;
    add_items(output, batch, names, &said.items)
}

/// Writes all that was said, several lines together.
fn put_lines<K: Sink>(output: &mut K, names: &Names, said: &[Said]) -> Result<(), Failed>
    requires names { IsTrue (are_valid names.now) }
    requires named { AreNamed names.now (all_said said.now) }
    ensures { Writes K.tells (K.at output.old) (K.at output.new)
        (said_text names.now (all_said said.now)) [] result }
{
    let mut batch = Batch::new();
    for one in said {
        add_said(output, &mut batch, names, one)?;
    }
    put_all(output, batch.as_slice())
}

/// Writes all that was said, or stops with `WriteFailed`. It takes no memory.
pub(crate) fn put_said<K: Sink>(output: &mut K, names: &Names, said: &[Said]) -> Turned
    requires names { IsTrue (are_valid names.now) }
    requires named { AreNamed names.now (all_said said.now) }
    ensures does { (left : List Answer → Output) → DoesPart K.tells (K.at output.old)
        (K.at output.new) (λ more. behind (said_text names.now (all_said said.now)) (left more))
        result left }
    ensures whole { result ≡ Turned.On → IsTrue K.tells → (K.at output.new).written
        ≡ (K.at output.old).written ++ said_text names.now (all_said said.now) }
    ensures memory { result ≢ Turned.Stop OutOfMemory }
{
    match put_lines(output, names, said) {
        Ok(()) => Turned::On,
        Err(_) => Turned::Stop(Status::WriteFailed),
    }
}
