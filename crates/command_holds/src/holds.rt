//! The command `holds`: it reads a deployment and a property, and says whether a table shows that no
//! run breaks the property.

ghost use Rattle.std.specs.Prelude.{◌≡◌, IfErr, IfOk, IsTrue, OnErr};
ghost use Rattle.command_promise.specs.Told.{CommandEnds, command_at};
ghost use Rattle.sx_trace.specs.ValidNames.{are_valid};
ghost use Rattle.sx_deploy.specs.SeenDeployment.{deployed_as};
ghost use Rattle.sx_watch.specs.Watching.{property_as};
ghost use Rattle.command_head.specs.Ends.{EndsRefused};
ghost use Rattle.command_holds.specs.Ending.{AnswersOf, DeployedEnds, EndsOf, GivesUp};
ghost use Rattle.command_holds.specs.Ending.{TextEnds, ToldOf};
ghost use Rattle.command_holds.specs.Output.{Decision, decided_output};
ghost use Rattle.command_holds.specs.Promise.{HoldsPromise};

use crate::gap::gap_line;
use command_head::refusing::{refuse, refuse_head};
use command_promise::{HeadFault, Status, finish, read_head, read_text};
use command_property::{refuse_no_property, refuse_property};
use std::alloc::Global;
use sx_deploy::DeployError;
use sx_deploy::deployment::{Deployment, read_deployment};
use sx_io::{Lines, Sink, Source};
use sx_search::decide::{Decided, decide};
use sx_search::gaps::Gap;
use sx_trace::names::Names;
use sx_watch::property::Property;
use sx_watch::reading::{PropertyError, read_property};

/// Writes where the search gave up.
fn give_up<K: Sink>(alloc: Global, names: &Names, gap: &Gap, output: &mut K) -> Status
    ensures { GivesUp K.tells (K.at output.old) (K.at output.new) result }
{
    match gap_line(alloc, names, gap) {
        Ok(text) => finish(output, &text, Status::Unknown),
        Err(_) => Status::OutOfMemory,
    }
}

/// Writes that a property holds.
#[tactic(auto, unfolding(crate::specs::Output::holds_line, command_text::specs::Output::end_line))]
fn affirm<K: Sink>(output: &mut K) -> Status
    ensures { CommandEnds K.tells (K.at output.old) (K.at output.new) result
        (decided_output Decision.Holds) }
{
    finish(output, b"holds\nend\n", Status::Done)
}

/// Decides whether a property holds, and writes the answer.
fn answer<K: Sink>(
    alloc: Global,
    deployment: &Deployment,
    property: &Property,
    output: &mut K,
) -> Status
    ensures { AnswersOf K.tells (K.at output.old) (K.at output.new) result
        (deployed_as deployment.now) (property_as property.now) }
{
    match decide(alloc, &deployment.app, property) {
        Ok(Decided::Holds) => affirm(output),
        Ok(Decided::Unknown(gap)) => give_up(alloc, &deployment.names, &gap, output),
        Err(_) => Status::OutOfMemory,
    }
}

/// Writes what is said of a property's text.
fn judge_text<K: Sink>(
    alloc: Global,
    deployment: &Deployment,
    text: &[u8],
    output: &mut K,
) -> Status
    requires names { IsTrue (are_valid deployment.now.names) }
    ensures { EndsOf K.tells (K.at output.old) (K.at output.new) result
        (deployed_as deployment.now) text.now }
{
    match read_property(alloc, &deployment.names, &deployment.app, text) {
        Ok(property) => answer(alloc, deployment, &property, output),
        Err(PropertyError::Fault(fault)) => refuse_property(fault, output),
        Err(PropertyError::OutOfMemory) => Status::OutOfMemory,
    }
}

/// Reads the property after a deployment, and writes what is said of it.
fn judge_rest<S: Source, K: Sink>(
    alloc: Global,
    deployment: &Deployment,
    lines: &mut Lines,
    input: &mut S,
    output: &mut K,
) -> Status
    requires names { IsTrue (are_valid deployment.now.names) }
    ensures { DeployedEnds S.tells K.tells (S.at input.old) (S.at input.new) lines.old
        (K.at output.old) (K.at output.new) result (deployed_as deployment.now) }
{
    match read_text(alloc, lines, input) {
        Ok(text) => judge_text(alloc, deployment, &text, output),
        Err(HeadFault::TooLong) => refuse_no_property(output),
        Err(HeadFault::NoMark) => refuse_no_property(output),
        Err(HeadFault::Failed) => finish(output, b"fault read\n", Status::ReadFailed),
        Err(HeadFault::OutOfMemory) => Status::OutOfMemory,
    }
}

/// Writes what is said after a text by what reading it gave.
fn judge_read<S: Source, K: Sink>(
    alloc: Global,
    read: Result<Deployment, DeployError>,
    lines: &mut Lines,
    input: &mut S,
    output: &mut K,
) -> Status
    requires names { IfOk read (λ deployment. IsTrue (are_valid deployment.names)) }
    ensures accepted { IfOk read (λ deployment.
        DeployedEnds S.tells K.tells (S.at input.old) (S.at input.new) lines.old
        (K.at output.old) (K.at output.new) result (deployed_as deployment)) }
    ensures refused { IfErr read (λ error.
        EndsRefused K.tells (K.at output.old) (K.at output.new) result error) }
    ensures unread { OnErr read (S.at input.new ≡ S.at input.old) }
{
    match read {
        Ok(deployment) => judge_rest(alloc, &deployment, lines, input, output),
        Err(error) => refuse(error, output),
    }
}

/// Writes what is said after the text of a deployment.
fn judge_head<S: Source, K: Sink>(
    alloc: Global,
    text: &[u8],
    lines: &mut Lines,
    input: &mut S,
    output: &mut K,
) -> Status
    ensures { TextEnds S.tells K.tells (S.at input.old) (S.at input.new) lines.old
        (K.at output.old) (K.at output.new) result text.now }
{
    judge_read(alloc, read_deployment(alloc, text), lines, input, output)
}

/// What `holds` writes is that of the two heads that it took.
fn holds_told<S: Source, K: Sink>(alloc: Global, input: &mut S, output: &mut K) -> Status
    ensures { ToldOf S.tells K.tells (command_at (S.at input.old) (K.at output.old))
        (command_at (S.at input.new) (K.at output.new)) result }
{
    let mut lines = Lines::new();
    match read_head(alloc, &mut lines, input) {
        Ok(text) => judge_head(alloc, &text, &mut lines, input, output),
        Err(fault) => refuse_head(fault, output),
    }
}

/// The command `holds`: a deployment, the line `%%`, a property, and the line `%%`. Gives the exit
/// status, as `top` does for this command. What follows the second line `%%` isn't judged, and at
/// most 4,096 bytes of it are read.
pub fn holds_over<S: Source, K: Sink>(alloc: Global, input: &mut S, output: &mut K) -> Status
    ensures { HoldsPromise S.tells K.tells (command_at (S.at input.old) (K.at output.old))
        (command_at (S.at input.new) (K.at output.new)) result }
{
    holds_told(alloc, input, output)
}
