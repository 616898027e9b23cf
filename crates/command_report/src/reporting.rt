//! What a command that reports on a deployment does: it reads the head, judges the deployment, and
//! writes the command's lines.

ghost use Rattle.std.specs.Prelude.{◌≡◌, ◌++◌, IfErr, IfOk, Ok};
ghost use Rattle.command_promise.specs.Told.{Told, CommandEnds, command_at};
ghost use Rattle.command_promise.specs.Head.{head_lines};
ghost use Rattle.sx_deploy.specs.Law.{IsSoundDeployment};
ghost use Rattle.sx_deploy.specs.SeenDeployment.{deployed_as};
ghost use Rattle.command_text.specs.Output.{end_line};
ghost use Rattle.command_head.specs.Ends.{EndsRefused};
ghost use Rattle.command_head.specs.Found.{RunsOutBehindHead};
ghost use Rattle.command_head.specs.Meanings.{Meaning, IsMeaning};
ghost use Rattle.command_report.specs.Promise.{ReportPromise};
ghost use Rattle.command_report.specs.Output.{report_all, report_output};

use crate::reports::Reports;
use command_head::refusing::{refuse, refuse_head};
use command_promise::{Status, finish, read_head};
use std::alloc::{AllocError, Global};
use sx_deploy::DeployError;
use sx_deploy::deployment::{Deployment, read_deployment};
use sx_io::{Lines, Sink, Source};

/// What is said of a deployment that keeps the rules, with `end`.
#[tactic(auto, unfolding(command_text::specs::Output::end_line))]
fn accepted<C: Reports>(alloc: Global, deployment: &Deployment) -> Result<Vec<u8>, AllocError>
    requires { IsSoundDeployment (deployed_as deployment.now) }
    ensures { IfOk result (λ text.
        text.items ≡ C.report (deployed_as deployment.now) ++ end_line) }
{
    let mut text = C::report(alloc, deployment)?;
    text.extend_from_slice(b"end\n")?;
    Ok(text)
}

/// Writes what is said of a deployment that keeps the rules.
fn accept<C: Reports, K: Sink>(alloc: Global, deployment: &Deployment, output: &mut K) -> Status
    requires { IsSoundDeployment (deployed_as deployment.now) }
    ensures { CommandEnds K.tells (K.at output.old) (K.at output.new) result
        (report_output C.report (Ok (deployed_as deployment.now))) }
{
    match accepted::<C>(alloc, deployment) {
        Ok(text) => finish(output, &text, Status::Done),
        Err(_) => Status::OutOfMemory,
    }
}

/// Writes what is said of a text by what reading it gave. To say which rule it breaks takes no
/// memory.
fn report_read<C: Reports, K: Sink>(
    alloc: Global,
    read: Result<Deployment, DeployError>,
    output: &mut K,
) -> Status
    requires { IfOk read (λ deployment. IsSoundDeployment (deployed_as deployment)) }
    ensures accepted { IfOk read (λ deployment.
        CommandEnds K.tells (K.at output.old) (K.at output.new) result
        (report_output C.report (Ok (deployed_as deployment)))) }
    ensures refused { IfErr read (λ error.
        EndsRefused K.tells (K.at output.old) (K.at output.new) result error) }
{
    match read {
        Ok(deployment) => accept::<C, K>(alloc, &deployment, output),
        Err(error) => refuse(error, output),
    }
}

/// Writes what is said of a deployment's text.
fn report_text<C: Reports, K: Sink>(alloc: Global, text: &[u8], output: &mut K) -> Status
    ensures { (meaning : Meaning) → IsMeaning meaning
        → CommandEnds K.tells (K.at output.old) (K.at output.new) result
        (report_output C.report (meaning text.now)) }
{
    report_read::<C, K>(alloc, read_deployment(alloc, text), output)
}

/// What is written is that of the head that was taken. To say that there is no head takes no
/// memory.
fn report_told<C: Reports, S: Source, K: Sink>(
    alloc: Global,
    input: &mut S,
    output: &mut K,
) -> Status
    ensures { (meaning : Meaning) → IsMeaning meaning
        → Told S.tells K.tells head_lines (command_at (S.at input.old) (K.at output.old))
        (command_at (S.at input.new) (K.at output.new)) result (report_all C.report meaning)
        (RunsOutBehindHead result) }
{
    let mut lines = Lines::new();
    match read_head(alloc, &mut lines, input) {
        Ok(text) => report_text::<C, K>(alloc, &text, output),
        Err(fault) => refuse_head(fault, output),
    }
}

/// A command that reports on a deployment: the input is a deployment and the line `%%`. What follows
/// that line isn't judged, and at most 4,096 bytes of it are read. Gives the exit status: 0 if
/// the deployment keeps the rules, 1 if it breaks one or there is no head, 4 if a read failed,
/// 5 if a write failed, and 6 if memory ran out.
pub fn report_over<C: Reports, S: Source, K: Sink>(
    alloc: Global,
    input: &mut S,
    output: &mut K,
) -> Status
    ensures { ReportPromise C.report S.tells K.tells (command_at (S.at input.old) (K.at output.old))
        (command_at (S.at input.new) (K.at output.new)) result }
{
    report_told::<C, S, K>(alloc, input, output)
}
