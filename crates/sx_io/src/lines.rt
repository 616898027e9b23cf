//! The lines of a source, one after another.

ghost use Rattle.std.specs.Prelude.{◌≡◌, ℕ, ◌-◌, ◌<◌, ◌≤◌, [], List, ◌++◌, length, take, drop};
ghost use Rattle.std.specs.Prelude.{Contains, IfSome, IsTrue, None, false};
ghost use Rattle.sx_io.specs.Reading.{newline, longest, IsPlain};
ghost use Rattle.sx_io.specs.Streams.{SourceAt, NoReadFault, OneReadFault, OneEnd};
ghost use Rattle.sx_io.specs.Next.{GivesHeld, Next, Took};
ghost use Rattle.sx_io.specs.Parts.{AskedInTurn, IsBegun, IsWithin, TakesFront, TakesHeld};
ghost use Rattle.sx_io.specs.Parts.{TakesPart, TakesTurn, TurnFaults};
ghost use Rattle.sx_io.specs.Passing.{Passes, as_read};
ghost use Rattle.sx_io.specs.Passed.{longest_passed};

use crate::line_parts::{Begun, NOTHING, Part, take_chunk};
use crate::outside::Source;
use std::marker::Model;

/// The most bytes that a line has before its newline, a carriage return among them.
pub const LONGEST: usize = 4096;

/// The answer to a call for the next line.
#[derive(Clone, Copy, Debug, PartialEq, Eq)]
pub enum LineRead {
    /// A line's text, which has this many bytes.
    Text(usize),
    /// The end of the input.
    End,
    /// More than 4,096 bytes come without a newline.
    TooLong,
    /// A read failed; the line that was begun isn't given.
    Failed,
}

/// The most bytes that a line has before its newline where it is passed.
pub const LONGEST_PASSED: usize = 131_072;

/// The answer to a call that passes the next line.
#[derive(Clone, Copy, Debug, PartialEq, Eq)]
pub enum PassRead {
    /// A line's text has this many bytes.
    Text(u32),
    /// The end of the input.
    End,
    /// More than 131,072 bytes come without a newline.
    TooLong,
    /// A read failed; the line that was begun isn't given.
    Failed,
}

fn pass_read(answer: LineRead) -> PassRead
    requires { IsWithin longest_passed answer }
    ensures { as_read result ≡ answer }
{
    match answer {
        LineRead::Text(count) => PassRead::Text(count as u32),
        LineRead::End => PassRead::End,
        LineRead::TooLong => PassRead::TooLong,
        LineRead::Failed => PassRead::Failed,
    }
}

/// What a reader of lines may still give: more lines, or only the last answer again.
#[derive(Clone, Copy, Debug, PartialEq, Eq)]
pub enum ReaderState {
    /// More lines may come.
    Open,
    /// The input ended.
    AtEnd,
    /// A line was too long.
    TooLong,
    /// A read failed.
    Failed,
}

/// What one turn of reading makes of the line: an answer, or more of it.
#[derive(Clone, Copy)]
enum Turn {
    Done(LineRead),
    More(Begun),
}

/// How a read went: bytes are held, or the input is at its end, or the read failed.
#[derive(Clone, Copy)]
enum Filled {
    Some,
    AtEnd,
    Failed,
}

/// Reads lines from a source, without memory. A line ends at a newline, or at the end of a rest
/// that isn't empty.
#[derive(Drop)]
pub struct Lines {
    held: [u8; LONGEST],
    from: usize,
    to: usize,
    state: ReaderState,
}

impl Model for Lines {
    ghost use Rattle.std.specs.Prelude.{◌-◌, ◌≤◌, take, drop};
    ghost use Rattle.sx_io.specs.Next.{Ahead};

    ghost Value = { Ahead };

    ghost view = { λ l. record { held = take (l.to - l.from) (drop l.from l.held); state = l.state } };

    ghost invariant = { λ l. (l.from ≤ l.to) × (l.to ≤ 4096) };
}

impl Lines {
    /// A reader that has read nothing yet.
    pub fn new() -> Lines
        ensures { result ≡ record { held = []; state = ReaderState.Open } }
    {
        Lines {
            held: [0; LONGEST],
            from: 0,
            to: 0,
            state: ReaderState::Open,
        }
    }

    /// A reader that holds the same: what it gives of that, this one still gives.
    pub fn copy(&self) -> Lines
        ensures { result ≡ self.now }
    {
        Lines {
            held: self.held,
            from: self.from,
            to: self.to,
            state: self.state,
        }
    }

    /// The next line, without its newline and one carriage return before it: its text is at the
    /// start of `into`. It reads only where it holds no newline, and never after the end of the
    /// input or a failed read.
    pub fn next<S: Source>(&mut self, source: &mut S, into: &mut [u8; LONGEST]) -> LineRead
        // The answer is what is next in the input, and what isn't given stays held.
        ensures next { Next longest S.tells (S.at source.old) (S.at source.new) self.old self.new
            into.new result }

        // It reads only where it must, and never once it has given its last answer.
        ensures unread { Contains self.old.held newline → source.new ≡ source.old }
        ensures untouched { (self.old.state ≡ ReaderState.Open → ⊥) → source.new ≡ source.old }
    {
        self.next_within(source, into)
    }

    /// The next line, as `next`, where a line may have as many bytes as `into` has room for.
    pub fn next_within<S: Source>(&mut self, source: &mut S, into: &mut [u8]) -> LineRead
        ensures next { Next (length into.old) S.tells (S.at source.old) (S.at source.new) self.old
            self.new into.new result }
        ensures unread { Contains self.old.held newline → source.new ≡ source.old }
        ensures untouched { (self.old.state ≡ ReaderState.Open → ⊥) → source.new ≡ source.old }
    {
        let limit = into.len();
        match self.state() {
            ReaderState::Open => self.take_line(source, into, limit),
            ReaderState::AtEnd => LineRead::End,
            ReaderState::TooLong => LineRead::TooLong,
            ReaderState::Failed => LineRead::Failed,
        }
    }

    /// Takes the next line, which has at most `limit` bytes, where no last answer was given: its
    /// first bytes are in `front`.
    fn take_line<S: Source>(&mut self, source: &mut S, front: &mut [u8], limit: usize) -> LineRead
        requires { self.old.state ≡ ReaderState.Open }
        ensures takes { TakesFront limit S.tells (S.at source.old) (S.at source.new) self.old
            self.new front.new result }
        ensures unread { Contains self.old.held newline → source.new ≡ source.old }
        ensures within { IsWithin limit result }
        ensures room { length front.new ≡ length front.old }
    {
        let mut begun = NOTHING;
        'turns: loop {
            match self.turn(source, front, limit, begun) {
                Turn::Done(answer) => return answer,
                Turn::More(more) => begun = more,
            }
        }
    }

    /// One turn: reads where nothing is held, and takes a part of the line.
    fn turn<S: Source>(
        &mut self,
        source: &mut S,
        front: &mut [u8],
        limit: usize,
        begun: Begun,
    ) -> Turn
        requires open { self.old.state ≡ ReaderState.Open }
        requires few { begun.count ≤ limit }
        ensures turns { (line : List ℕ) → IsBegun front.old begun line → TakesTurn limit S.tells
            (S.at source.old) (S.at source.new) line self.old.held begun.count result self.new
            front.new }
        ensures unread { 0 < length self.old.held → source.new ≡ source.old }
        ensures end { self.new.state ≡ ReaderState.AtEnd → IsTrue S.tells
            → OneEnd (S.at source.old) (S.at source.new) }
        ensures no_end { (self.new.state ≡ ReaderState.AtEnd → ⊥) → IsTrue S.tells
            → (S.at source.new).ends ≡ (S.at source.old).ends }
        ensures asked { IsTrue S.tells → AskedInTurn self.old.held (S.at source.old)
            (S.at source.new) }
        ensures faults { TurnFaults result (S.at source.old) (S.at source.new) }
        ensures held { length self.new.held ≤ longest }
        ensures room { length front.new ≡ length front.old }
    {
        if !self.is_empty() {
            return self.turn_held(front, limit, begun);
        }
        match self.fill(source) {
            Filled::AtEnd => {
                if begun.count == 0 {
                    return Turn::Done(LineRead::End);
                }
                Turn::Done(LineRead::Text(begun.count))
            }
            Filled::Failed => Turn::Done(LineRead::Failed),
            Filled::Some => self.turn_held(front, limit, begun),
        }
    }

    /// One turn over what is held.
    fn turn_held(&mut self, front: &mut [u8], limit: usize, begun: Begun) -> Turn
        requires open { self.old.state ≡ ReaderState.Open }
        requires some { 0 < length self.old.held }
        requires few { begun.count ≤ limit }
        ensures turns { (line : List ℕ) → IsBegun front.old begun line
            → TakesHeld limit line self.old.held begun.count result self.new front.new }
        ensures not_at_end { self.new.state ≡ ReaderState.AtEnd → ⊥ }
        ensures faults { (s0 s1 : SourceAt) → NoReadFault s0 s1 → TurnFaults result s0 s1 }
        ensures held { length self.new.held ≤ longest }
        ensures room { length front.new ≡ length front.old }
    {
        match self.take_part(front, limit, begun) {
            Part::Whole(count) => Turn::Done(LineRead::Text(count)),
            Part::More(more) => Turn::More(more),
            Part::TooLong => {
                self.set_too_long();
                Turn::Done(LineRead::TooLong)
            }
        }
    }

    /// Reads where nothing is held.
    fn fill<S: Source>(&mut self, source: &mut S) -> Filled
        requires nothing { self.old.held ≡ [] }
        requires open { self.old.state ≡ ReaderState.Open }
        ensures read { IsTrue S.tells → (S.at source.old).rest
            ≡ self.new.held ++ (S.at source.new).rest }
        ensures some { result ≡ Filled.Some → (0 < length self.new.held)
            × (self.new.state ≡ ReaderState.Open) }
        ensures end { result ≡ Filled.AtEnd → (self.new
            ≡ record self.old { state = ReaderState.AtEnd })
            × (IsTrue S.tells → OneEnd (S.at source.old) (S.at source.new)) }
        ensures no_end { (result ≡ Filled.AtEnd → ⊥) → IsTrue S.tells
            → (S.at source.new).ends ≡ (S.at source.old).ends }
        ensures asked { IsTrue S.tells → (S.at source.new).asked ≡ (S.at source.old).rest }
        ensures failed { result ≡ Filled.Failed → (self.new
            ≡ record self.old { state = ReaderState.Failed })
            × OneReadFault (S.at source.old) (S.at source.new) }
        ensures quiet { (result ≡ Filled.Failed → ⊥)
            → NoReadFault (S.at source.old) (S.at source.new) }
        ensures few { length self.new.held ≤ longest }
    {
        match source.read(&mut self.held) {
            Ok(0) => {
                self.from = 0;
                self.to = 0;
                self.state = ReaderState::AtEnd;
                Filled::AtEnd
            }
            Ok(count) => {
                self.from = 0;
                self.to = count;
                Filled::Some
            }
            Err(_) => {
                self.from = 0;
                self.to = 0;
                self.state = ReaderState::Failed;
                Filled::Failed
            }
        }
    }

    /// Takes what is held of the line after what has come of it.
    fn take_part(&mut self, front: &mut [u8], limit: usize, begun: Begun) -> Part
        requires few { begun.count ≤ limit }
        ensures takes { (line : List ℕ) → IsBegun front.old begun line
            → TakesPart limit line self.old.held result front.new self.new.held }
        ensures state { self.new.state ≡ self.old.state }
        ensures few { (length self.old.held ≤ longest) × (length self.new.held ≤ longest) }
        ensures room { length front.new ≡ length front.old }
    {
        let (part, used) = take_chunk(front, limit, begun, &self.held[self.from..self.to]);
        self.from += used;
        part
    }

    /// The next line, where all of it is held: its text is at the start of `into`, as after
    /// `next`. It reads nothing. `None` says that `next` would read, or give its last answer again.
    pub fn next_held(&mut self, into: &mut [u8; LONGEST]) -> Option<usize>
        ensures { GivesHeld self.old self.new into.new result }
    {
        match self.state() {
            ReaderState::Open => self.held_line(into),
            ReaderState::AtEnd => None,
            ReaderState::TooLong => None,
            ReaderState::Failed => None,
        }
    }

    /// The line that is held whole, where no last answer was given.
    fn held_line(&mut self, into: &mut [u8]) -> Option<usize>
        requires open { self.old.state ≡ ReaderState.Open }
        requires few { length self.old.held ≤ longest }
        requires room { length into.old ≡ longest }
        ensures state { self.new.state ≡ self.old.state }
        ensures took { IfSome result (λ n. Took longest self.old.held (LineRead.Text n) into.new
            self.new) }
        ensures none { result ≡ None → self.new ≡ self.old }
        ensures plain { result ≡ None → IsPlain self.old.held }
    {
        let limit = into.len();
        let (part, used) = take_chunk(into, limit, NOTHING, &self.held[self.from..self.to]);
        match part {
            Part::Whole(count) => {
                self.from += used;
                Some(count)
            }
            Part::More(_) => None,
            Part::TooLong => None,
        }
    }

    /// Passes the next line: its length, and its first bytes in `front`. It answers what `next`
    /// would, had a line 131,072 bytes of room.
    pub fn pass<S: Source>(&mut self, source: &mut S, front: &mut [u8; 8]) -> PassRead
        ensures passes { Passes S.tells (S.at source.old) (S.at source.new) self.old self.new
            front.new result }
        ensures unread { Contains self.old.held newline → source.new ≡ source.old }
        ensures untouched { (self.old.state ≡ ReaderState.Open → ⊥) → source.new ≡ source.old }
    {
        match self.state() {
            ReaderState::Open => pass_read(self.take_line(source, front, LONGEST_PASSED)),
            ReaderState::AtEnd => PassRead::End,
            ReaderState::TooLong => PassRead::TooLong,
            ReaderState::Failed => PassRead::Failed,
        }
    }

    fn state(&self) -> ReaderState
        ensures state { result ≡ self.now.state }
        ensures bound { length self.now.held ≤ longest }
    {
        self.state
    }

    fn is_empty(&self) -> bool
        ensures empty { IsTrue result → self.now.held ≡ [] }
        ensures some { result ≡ false → 0 < length self.now.held }
    {
        self.from == self.to
    }

    fn set_too_long(&mut self)
        ensures { self.new ≡ record self.old { state = ReaderState.TooLong } }
    {
        self.state = ReaderState::TooLong;
    }
}
