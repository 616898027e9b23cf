//! A schedule's lines by their numbers.

ghost use Rattle.std.specs.Prelude.{◌≡◌, ◌≢◌, ℕ, ◌≤◌, Err, Ok, IfOk, OnOk, IsTrue};
ghost use Rattle.sx_asm.specs.Assembled.{assembled};
ghost use Rattle.sx_trace.specs.ValidNames.{are_valid};
ghost use Rattle.sx_sched.specs.Seen.{line_of};
ghost use Rattle.sx_sched.specs.InForm.{IsLine};
ghost use Rattle.command_promise.specs.declared.status.Status.TheVariants.{OutOfMemory};
ghost use Rattle.command_promise.specs.Told.{CommandEnds};
ghost use Rattle.command_world.specs.Broken.{broken_output};
ghost use Rattle.command_world.specs.Schedule.{judged_line};
ghost use Rattle.command_world.specs.Turning.{MayRunOut};

use command_promise::Status;
use command_text::fault::finish_fault;
use std::alloc::Global;
use sx_io::Sink;
use sx_sched::lines::{Line, LineError};
use sx_sched::parse_line;
use sx_trace::names::Names;

/// A schedule has at most this many lines, blank ones counted.
const MOST_LINES: u32 = 65_536;

/// The rule that says how long a line may be, and the one that says how many lines there may be.
pub const TOO_LONG: u8 = 1;

const TOO_MANY: u8 = 2;

/// The line of this number, counted from 1, or the first rule that it breaks. The number is tested
/// first: a line too many breaks its rule whatever it says, and that is found without memory.
#[tactic(auto, unfolding(crate::specs::Schedule::judged_line))]
pub fn judge_line(alloc: Global, names: &Names, text: &[u8], number: u32) -> Result<Line, LineError>
    requires { IsTrue (are_valid names.now) }
    ensures line { IfOk result (λ line.
        judged_line assembled names.now number text.now ≡ Ok (line_of line)) }
    ensures form { IfOk result (λ line. IsLine names.now (line_of line)) }
    ensures few { OnOk result (number ≤ 65536) }
    ensures rule { (rule : ℕ) → result ≡ Err (LineError.Fault rule)
        → judged_line assembled names.now number text.now ≡ Err rule }
    ensures memory { result ≡ Err LineError.OutOfMemory
        → MayRunOut (judged_line assembled names.now number text.now) }
{
    if number > MOST_LINES {
        return Err(LineError::Fault(TOO_MANY));
    }
    parse_line(alloc, names, text)
}

/// Writes which rule the line of this number breaks. It takes no memory.
#[tactic(auto, unfolding(crate::specs::Broken::broken_line))]
pub fn break_off<K: Sink>(output: &mut K, rule: u8, number: u32) -> Status
    ensures ends { CommandEnds K.tells (K.at output.old) (K.at output.new) result
        (broken_output rule number) }
    ensures memory { result ≢ OutOfMemory }
{
    finish_fault(output, b"fault schedule S", rule, number, Status::Broken)
}
