//! From a text to a reading: first the number of words, then word by word.

ghost use Rattle.std.specs.Prelude.{◌≡◌, ◌<◌, ◌≤◌, IfOk, IsTrue, OnOk};
ghost use Rattle.sx_trace.specs.ValidNames.{are_valid};
ghost use Rattle.sx_sched.specs.Words.{words_of};
ghost use Rattle.sx_deploy.specs.Law.{IsSoundDeployment};
ghost use Rattle.sx_deploy.specs.SeenDeployment.{deployed_as};
ghost use Rattle.sx_drive.specs.Driving.{IsDrivenSensor};
ghost use Rattle.command_drive.specs.Parts.{IsGiven, drives, is_driven};
ghost use Rattle.command_drive.specs.Input.{judged_reading, reading_in, rule_number, sensor_in};
ghost use Rattle.command_drive.specs.Input.{value_in};

use sx_deploy::deployment::Deployment;
use sx_io::number;
use sx_mean::apps::Part;
use sx_sched::words::{is_comment, one_word, split_word};

/// The rules that a line of readings can break, by which it is refused.
#[derive(Clone, Copy)]
pub(crate) enum ReadingRule {
    /// A line has more than 4,096 bytes.
    TooLong = 1,
    /// 65,536 lines come before it.
    TooMany = 2,
    /// The number of words is wrong.
    WrongCount = 3,
    /// The first word names no sensor that a module drives.
    NoSensor = 4,
    /// The second word is no number below 32,768.
    NoValue = 5,
}

impl ReadingRule {
    /// The number that is printed.
    pub(crate) fn number(self) -> u8
        ensures { result ≡ rule_number self }
    {
        self as u8
    }
}

/// There are at most this many lines of readings, blank ones counted.
pub(crate) const MOST_LINES: u32 = 65_536;

/// What a line of readings says.
#[derive(Clone, Copy)]
pub(crate) enum ReadingLine {
    /// Nothing: a line without a word, or a comment.
    Blank,
    /// That a sensor, which a module drives, has a value below 32,768.
    Reading { device: u8, value: u16 },
}

/// Whether a module drives a device.
fn drives(part: &Part, device: u8) -> bool
    ensures { result ≡ drives device part.now }
{
    match part.device {
        Some(own) => device == own,
        None => false,
    }
}

/// Whether one of these modules drives a device.
fn is_driven(parts: &[Part], device: u8) -> bool
    ensures { result ≡ is_driven parts.now device }
{
    parts.iter().any(|part| drives(part, device))
}

/// The sensor of this name, which a module drives. The error is `NoSensor`.
fn sensor_in(deployment: &Deployment, word: &[u8]) -> Result<u8, ReadingRule>
    requires sound { IsSoundDeployment (deployed_as deployment.now) }
    requires names { IsTrue (are_valid (deployed_as deployment.now).names) }
    ensures sensor { result ≡ sensor_in (deployed_as deployment.now) word.now }
    ensures driven { IfOk result (λ device.
        IsDrivenSensor (deployed_as deployment.now) device) }
{
    let Some(device) = deployment.names.sensor(word) else {
        return Err(ReadingRule::NoSensor);
    };
    if is_driven(&deployment.app.parts, device) {
        Ok(device)
    } else {
        Err(ReadingRule::NoSensor)
    }
}

/// A value that a sensor can have. The error is `NoValue`.
fn value_in(word: &[u8]) -> Result<u16, ReadingRule>
    ensures value { result ≡ value_in word.now }
    ensures few { IfOk result (λ value. value < 32768) }
{
    match number(word, 32_767) {
        Some(value) => Ok(value as u16),
        None => Err(ReadingRule::NoValue),
    }
}

/// A sensor and its value.
fn reading_in(
    deployment: &Deployment,
    first: &[u8],
    words: &[u8],
) -> Result<ReadingLine, ReadingRule>
    requires sound { IsSoundDeployment (deployed_as deployment.now) }
    requires names { IsTrue (are_valid (deployed_as deployment.now).names) }
    ensures reading { result
        ≡ reading_in (deployed_as deployment.now) first.now (words_of words.now) }
    ensures given { IfOk result (IsGiven (deployed_as deployment.now)) }
{
    let second = one_word(words).ok_or(ReadingRule::WrongCount)?;
    let device = sensor_in(deployment, first)?;
    let value = value_in(second)?;
    Ok(ReadingLine::Reading { device, value })
}

/// What the line with this number, counted from 1, says; or the first rule that it breaks.
#[tactic(auto, unfolding(crate::specs::Input::judged_reading))]
pub(crate) fn judge_reading(
    deployment: &Deployment,
    number: u32,
    text: &[u8],
) -> Result<ReadingLine, ReadingRule>
    requires sound { IsSoundDeployment (deployed_as deployment.now) }
    requires names { IsTrue (are_valid (deployed_as deployment.now).names) }
    ensures reading { result ≡ judged_reading (deployed_as deployment.now) number text.now }
    ensures given { IfOk result (IsGiven (deployed_as deployment.now)) }
    ensures few { OnOk result (number ≤ MOST_LINES) }
{
    if number > MOST_LINES {
        return Err(ReadingRule::TooMany);
    }
    let Some((first, words)) = split_word(text) else {
        return Ok(ReadingLine::Blank);
    };
    if is_comment(first) {
        return Ok(ReadingLine::Blank);
    }
    reading_in(deployment, first, words)
}
