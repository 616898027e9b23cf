//! How a command ends: its exit status.

ghost use Rattle.std.specs.Prelude.{◌≡◌};
ghost use Rattle.command_promise.specs.Status.{status_number};

/// How a command ends. Its number is the exit status.
#[derive(Clone, Copy, Debug, PartialEq, Eq)]
pub enum Status {
    /// The whole output is written.
    Done = 0,
    /// The deployment breaks a rule.
    Refused = 1,
    /// The words are no command.
    Misused = 2,
    /// A line of a schedule, of readings or of a trace breaks a rule.
    Broken = 3,
    /// A read failed.
    ReadFailed = 4,
    /// A write failed.
    WriteFailed = 5,
    /// Memory ran out.
    OutOfMemory = 6,
    /// The property breaks a rule.
    NoProperty = 7,
    /// The sources don't allow an item of the trace.
    Illegal = 8,
    /// There are more lines or schedules than there may be.
    TooLong = 9,
    /// Assembly text, or bytes in hexadecimal, break a rule.
    NoCode = 10,
    /// A line of queries breaks a rule.
    NoQuery = 11,
    /// An item of the trace breaks the property.
    PropertyBroken = 12,
    /// Nothing was shown of the property.
    Unknown = 13,
}

impl Status {
    /// The exit status.
    pub fn number(self) -> u8
        ensures { result ≡ status_number self }
    {
        self as u8
    }
}
