//! The command `explain`: it reads a deployment and a trace, and judges the trace while it reads
//! it.

ghost use Rattle.std.specs.Prelude.{◌≡◌, IfErr, IfOk, IsTrue, OnErr};
ghost use Rattle.command_promise.specs.declared.status.Status.TheVariants.{OutOfMemory};
ghost use Rattle.command_promise.specs.Told.{Told, command_at};
ghost use Rattle.command_promise.specs.Parts.{Rest};
ghost use Rattle.sx_trace.specs.ValidNames.{are_valid};
ghost use Rattle.sx_deploy.specs.SeenDeployment.{deployed_as};
ghost use Rattle.sx_mean.specs.Validity.{is_valid};
ghost use Rattle.sx_mean.specs.View.{app_as};
ghost use Rattle.command_head.specs.Ends.{EndsRefused};
ghost use Rattle.command_explain.specs.Output.{explain_all, explain_deployed, explain_found};
ghost use Rattle.command_head.specs.Found.{RunsOutBehindHead};
ghost use Rattle.command_head.specs.Given.{RanOutSince};
ghost use Rattle.command_head.specs.Wanting.{RanOutAt};
ghost use Rattle.command_explain.specs.Promise.{ExplainPromise};
ghost use Rattle.command_explain.specs.Meant.{AreMeanings, Meanings};
ghost use Rattle.command_explain.specs.Trace.{explain_lines, image_lines, trace_lines};
ghost use Rattle.command_explain.specs.Turns.{ReadWants};
ghost use Rattle.command_explain.specs.Wants.{explain_may};

use crate::images::explain_images;
use command_head::refusing::{refuse, refuse_head};
use command_promise::{Status, read_head};
use std::alloc::Global;
use sx_deploy::DeployError;
use sx_deploy::deployment::{Deployment, read_deployment};
use sx_io::{Lines, Sink, Source};

/// Judges what follows the head of a text by what reading the text gave. To say which rule it
/// breaks takes no memory, and reads nothing.
fn explain_read<S: Source, K: Sink>(
    alloc: Global,
    read: Result<Deployment, DeployError>,
    lines: &mut Lines,
    input: &mut S,
    output: &mut K,
) -> Status
    requires app { IfOk read (λ deployment. IsTrue (is_valid (app_as deployment.app))) }
    requires names { IfOk read (λ deployment. IsTrue (are_valid deployment.names)) }
    ensures explains { IfOk read (λ deployment. (means : Meanings) → AreMeanings means
        → Rest S.tells K.tells image_lines lines.old
        (command_at (S.at input.old) (K.at output.old))
        (command_at (S.at input.new) (K.at output.new)) result
        (explain_deployed means (deployed_as deployment))) }
    ensures wanted { IfOk read (λ deployment. (means : Meanings) → AreMeanings means
        → result ≡ OutOfMemory
        → RanOutSince image_lines trace_lines (explain_may means (deployed_as deployment)) S.tells
        (S.at input.old) (S.at input.new) lines.old lines.new) }
    ensures refused { IfErr read (λ error.
        EndsRefused K.tells (K.at output.old) (K.at output.new) result error) }
    ensures unread { OnErr read (S.at input.new ≡ S.at input.old) }
{
    match read {
        Ok(deployment) => explain_images(alloc, lines, input, output, &deployment),
        Err(error) => refuse(error, output),
    }
}

/// Judges what follows the head of this text.
fn explain_text<S: Source, K: Sink>(
    alloc: Global,
    text: &[u8],
    lines: &mut Lines,
    input: &mut S,
    output: &mut K,
) -> Status
    ensures rest { (means : Meanings) → AreMeanings means
        → Rest S.tells K.tells image_lines lines.old
        (command_at (S.at input.old) (K.at output.old))
        (command_at (S.at input.new) (K.at output.new)) result
        (explain_found means (means.deployment text.now)) }
    ensures wanted { (means : Meanings) → AreMeanings means → result ≡ OutOfMemory
        → ReadWants means text.now S.tells (S.at input.old) (S.at input.new)
        lines.old lines.new }
{
    explain_read(alloc, read_deployment(alloc, text), lines, input, output)
}

/// What `explain` writes is what is defined for what it took. To say that there is no head takes no
/// memory.
fn explain_told<S: Source, K: Sink>(alloc: Global, input: &mut S, output: &mut K) -> Status
    ensures told { (means : Meanings) → AreMeanings means
        → Told S.tells K.tells explain_lines (command_at (S.at input.old) (K.at output.old))
        (command_at (S.at input.new) (K.at output.new)) result (explain_all means)
        (RunsOutBehindHead result) }
    ensures memory { (means : Meanings) → AreMeanings means → result ≡ OutOfMemory
        → RanOutAt explain_lines (explain_may means) S.tells
        (command_at (S.at input.old) (K.at output.old))
        (command_at (S.at input.new) (K.at output.new)) }
{
    let mut lines = Lines::new();
    match read_head(alloc, &mut lines, input) {
        Ok(text) => explain_text(alloc, &text, &mut lines, input, output),
        Err(fault) => refuse_head(fault, output),
    }
}

/// The command `explain`: a deployment, the line `%%`, and the output of a run of it, whose items
/// are judged by the deployment's sources alone while they are read. Gives the exit status, as
/// `top` does for this command. Nothing is read once the line of an illegal item was whole.
pub fn explain_over<S: Source, K: Sink>(alloc: Global, input: &mut S, output: &mut K) -> Status
    ensures { ExplainPromise S.tells K.tells (command_at (S.at input.old) (K.at output.old))
        (command_at (S.at input.new) (K.at output.new)) result }
{
    explain_told(alloc, input, output)
}
