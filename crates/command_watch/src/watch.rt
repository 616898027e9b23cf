//! The command `watch`: it reads a deployment, a property and a trace, and the property follows the
//! trace while it is read.

ghost use Rattle.std.specs.Prelude.{◌≡◌, ℕ, IfErr, IfOk, IsTrue, List, Ok, OnErr};
ghost use Rattle.command_promise.specs.declared.status.Status.TheVariants.{OutOfMemory};
ghost use Rattle.command_promise.specs.Told.{Told, command_at};
ghost use Rattle.command_promise.specs.Parts.{Rest};
ghost use Rattle.sx_trace.specs.ValidNames.{are_valid};
ghost use Rattle.sx_mean.specs.View.{app_as};
ghost use Rattle.sx_deploy.specs.SeenDeployment.{deployed_as};
ghost use Rattle.command_head.specs.Ends.{EndsRefused};
ghost use Rattle.command_head.specs.Found.{RunsOutBehindHead};
ghost use Rattle.command_explain.specs.Trace.{image_lines};
ghost use Rattle.command_watch.specs.Meant.{AreMeanings, Meanings};
ghost use Rattle.command_watch.specs.Following.{RefusesText, ReadsOn};
ghost use Rattle.command_watch.specs.Output.{watch_all, watch_lines};
ghost use Rattle.command_watch.specs.Parts.{watch_judged};
ghost use Rattle.command_watch.specs.Promise.{WatchPromise};

use crate::images::watch_images;
use command_head::refusing::{refuse, refuse_head};
use command_promise::{HeadFault, Status, finish, read_head, read_text};
use command_property::{refuse_no_property, refuse_property};
use std::alloc::Global;
use sx_deploy::DeployError;
use sx_deploy::deployment::{Deployment, read_deployment};
use sx_io::{Lines, Sink, Source};
use sx_watch::reading::{PropertyError, read_property};

/// Writes why a text gives no property. Nothing is written if memory ran out for one.
fn refuse_text<K: Sink>(error: PropertyError, output: &mut K) -> Status
    ensures { RefusesText K.tells (K.at output.old) (K.at output.new) result error }
{
    match error {
        PropertyError::Fault(fault) => refuse_property(fault, output),
        PropertyError::OutOfMemory => Status::OutOfMemory,
    }
}

/// Watches what follows this text of a property.
fn watch_text<S: Source, K: Sink>(
    alloc: Global,
    text: &[u8],
    lines: &mut Lines,
    input: &mut S,
    output: &mut K,
    deployment: &Deployment,
) -> Status
    requires names { IsTrue (are_valid deployment.now.names) }
    ensures rest { (means : Meanings) → AreMeanings means
        → Rest S.tells K.tells image_lines lines.old
        (command_at (S.at input.old) (K.at output.old))
        (command_at (S.at input.new) (K.at output.new)) result
        (watch_judged (means.trace.item deployment.now.names)
        (means.property deployment.now.names (app_as deployment.now.app) text.now)) }
    ensures starved { result ≡ OutOfMemory → K.at output.new ≡ K.at output.old }
{
    match read_property(alloc, &deployment.names, &deployment.app, text) {
        Ok(property) => { watch_images(alloc, lines, input, output, &deployment.names, property) }
        Err(error) => refuse_text(error, output),
    }
}

/// Watches what follows the head of a deployment.
fn watch_deployed<S: Source, K: Sink>(
    alloc: Global,
    lines: &mut Lines,
    input: &mut S,
    output: &mut K,
    deployment: &Deployment,
) -> Status
    requires names { IsTrue (are_valid deployment.now.names) }
    ensures reads { (means : Meanings) (text : List ℕ) → AreMeanings means
        → means.trace.deployment text ≡ Ok (deployed_as deployment.now)
        → ReadsOn means text S.tells K.tells (S.at input.old) lines.old (K.at output.old)
        (command_at (S.at input.new) (K.at output.new)) result }
    ensures starved { result ≡ OutOfMemory → K.at output.new ≡ K.at output.old }
{
    match read_text(alloc, lines, input) {
        Ok(text) => watch_text(alloc, &text, lines, input, output, deployment),
        Err(HeadFault::TooLong) => refuse_no_property(output),
        Err(HeadFault::NoMark) => refuse_no_property(output),
        Err(HeadFault::Failed) => finish(output, b"fault read\n", Status::ReadFailed),
        Err(HeadFault::OutOfMemory) => Status::OutOfMemory,
    }
}

/// Watches what follows the head of a text by what reading the text gave. To say which rule it
/// breaks takes no memory, and reads nothing.
fn watch_read<S: Source, K: Sink>(
    alloc: Global,
    read: Result<Deployment, DeployError>,
    lines: &mut Lines,
    input: &mut S,
    output: &mut K,
) -> Status
    requires names { IfOk read (λ deployment. IsTrue (are_valid deployment.names)) }
    ensures accepted { IfOk read (λ deployment. (means : Meanings) (text : List ℕ)
        → AreMeanings means → means.trace.deployment text ≡ Ok (deployed_as deployment)
        → ReadsOn means text S.tells K.tells (S.at input.old) lines.old (K.at output.old)
        (command_at (S.at input.new) (K.at output.new)) result) }
    ensures refused { IfErr read (λ error.
        EndsRefused K.tells (K.at output.old) (K.at output.new) result error) }
    ensures unread { OnErr read (S.at input.new ≡ S.at input.old) }
    ensures starved { result ≡ OutOfMemory → K.at output.new ≡ K.at output.old }
{
    match read {
        Ok(deployment) => watch_deployed(alloc, lines, input, output, &deployment),
        Err(error) => refuse(error, output),
    }
}

/// Watches what follows the head of this text.
fn watch_head<S: Source, K: Sink>(
    alloc: Global,
    text: &[u8],
    lines: &mut Lines,
    input: &mut S,
    output: &mut K,
) -> Status
    ensures reads { (means : Meanings) → AreMeanings means
        → ReadsOn means text.now S.tells K.tells (S.at input.old) lines.old (K.at output.old)
        (command_at (S.at input.new) (K.at output.new)) result }
    ensures starved { result ≡ OutOfMemory → K.at output.new ≡ K.at output.old }
{
    watch_read(alloc, read_deployment(alloc, text), lines, input, output)
}

/// What `watch` writes is what is defined for what it took. To say that there is no head takes no
/// memory.
fn watch_told<S: Source, K: Sink>(alloc: Global, input: &mut S, output: &mut K) -> Status
    ensures told { (means : Meanings) → AreMeanings means
        → Told S.tells K.tells watch_lines (command_at (S.at input.old) (K.at output.old))
        (command_at (S.at input.new) (K.at output.new)) result (watch_all means)
        (RunsOutBehindHead result) }
    ensures starved { result ≡ OutOfMemory → K.at output.new ≡ K.at output.old }
{
    let mut lines = Lines::new();
    match read_head(alloc, &mut lines, input) {
        Ok(text) => watch_head(alloc, &text, &mut lines, input, output),
        Err(fault) => refuse_head(fault, output),
    }
}

/// The command `watch`: a deployment, the line `%%`, a property of it, a second line `%%`, and the
/// output of a run. Gives the exit status, as `top` does for this command. Nothing is read once the
/// line of the first item was whole that breaks the property.
pub fn watch_over<S: Source, K: Sink>(alloc: Global, input: &mut S, output: &mut K) -> Status
    ensures { WatchPromise S.tells K.tells (command_at (S.at input.old) (K.at output.old))
        (command_at (S.at input.new) (K.at output.new)) result }
{
    watch_told(alloc, input, output)
}
