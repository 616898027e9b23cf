//! What a command that deploys does before its own part: it reads the head, judges the deployment,
//! and makes the images.
//!
//! The deployment that was read is handed on at once, by value, to the one function that ends with
//! it: it is dropped where that function ends, and each such drop costs a second of proof or two.

ghost use Rattle.std.specs.Prelude.{◌≡◌, ℕ, List, IfErr, IfOk, IsTrue, OnErr, Ok};
ghost use Rattle.command_promise.specs.Told.{command_at};
ghost use Rattle.sx_trace.specs.ValidNames.{are_valid};
ghost use Rattle.sx_deploy.specs.Deployment.{IsRead};
ghost use Rattle.sx_deploy.specs.Law.{IsSoundDeployment};
ghost use Rattle.sx_deploy.specs.SeenDeployment.{deployed_as};
ghost use Rattle.command_head.specs.Ends.{EndsRefused};
ghost use Rattle.command_deploy.specs.Afterwards.{DeployTold, DeploysOrRanOut};

use crate::deploys::Deploys;
use command_head::refusing::{refuse, refuse_head};
use command_promise::{Status, read_head};
use command_world::compiling::compile_all;
use std::alloc::Global;
use sx_deploy::DeployError;
use sx_deploy::deployment::{Deployment, read_deployment};
use sx_io::{Lines, Sink, Source};
use sx_tag::Tag;

/// Does what follows the head of a text by what reading the text gave: it makes the images of the
/// deployment's modules, and does the command's own part with them. To say which rule a text breaks
/// takes no memory, and reads nothing.
fn deploy_read<C: Deploys, S: Source, K: Sink, T: Tag>(
    alloc: Global,
    tag: T,
    read: Result<Deployment, DeployError>,
    lines: &mut Lines,
    input: &mut S,
    output: &mut K,
) -> Status
    requires sound { IfOk read (λ deployment. IsSoundDeployment (deployed_as deployment)) }
    requires names { IfOk read (λ deployment. IsTrue (are_valid (deployed_as deployment).names)) }
    ensures deploys { IfOk read (λ deployment. (text : List ℕ)
        → IsRead text (Ok (deployed_as deployment))
        → DeploysOrRanOut T.mac (C.behind T.mac) C.may S.tells K.tells lines.old
        (command_at (S.at input.old) (K.at output.old))
        (command_at (S.at input.new) (K.at output.new)) result text) }
    ensures refused { IfErr read (λ error.
        EndsRefused K.tells (K.at output.old) (K.at output.new) result error) }
    ensures unread { OnErr read (S.at input.new ≡ S.at input.old) }
{
    match read {
        Ok(deployment) => match compile_all(alloc, &tag, &deployment) {
            Ok(images) => C::perform(alloc, tag, lines, input, output, &deployment, &images),
            Err(_) => Status::OutOfMemory,
        },
        Err(error) => refuse(error, output),
    }
}

/// A command that deploys, over any tag: the input is a deployment, the line `%%`, and what the
/// command's own part reads after it. Gives the exit status: 1 if the deployment breaks a rule
/// or there is no head, 4 if a read failed, 5 if a write failed, 6 if memory ran out, and
/// else that of the own part.
pub fn deploy_over<C: Deploys, S: Source, K: Sink, T: Tag>(
    alloc: Global,
    tag: T,
    input: &mut S,
    output: &mut K,
) -> Status
    ensures { DeployTold T.mac (C.behind T.mac) C.may S.tells K.tells
        (command_at (S.at input.old) (K.at output.old))
        (command_at (S.at input.new) (K.at output.new)) result }
{
    let mut lines = Lines::new();
    match read_head(alloc, &mut lines, input) {
        Ok(text) => deploy_read::<C, S, K, T>(
            alloc,
            tag,
            read_deployment(alloc, &text),
            &mut lines,
            input,
            output,
        ),
        Err(fault) => refuse_head(fault, output),
    }
}
