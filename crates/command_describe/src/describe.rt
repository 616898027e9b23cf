//! The command `describe`: it reads a deployment and says what it was read as, or which rule it
//! breaks.

ghost use Rattle.std.specs.Prelude.{◌≡◌, IfOk};
ghost use Rattle.command_promise.specs.Told.{command_at};
ghost use Rattle.sx_deploy.specs.Law.{IsSoundDeployment};
ghost use Rattle.sx_deploy.specs.SeenDeployment.{deployed_as};
ghost use Rattle.command_describe.specs.Output.{DescribePromise, describe_report};

use crate::connections::push_links;
use crate::devices::{push_devices, push_nodes};
use crate::modules::push_modules;
use command_promise::Status;
use command_report::{Reports, report_over};
use std::alloc::{AllocError, Global};
use sx_deploy::deployment::Deployment;
use sx_io::{Sink, Source};

/// The lines of a deployment.
fn described(alloc: Global, deployment: &Deployment) -> Result<Vec<u8>, AllocError>
    requires { IsSoundDeployment (deployed_as deployment.now) }
    ensures { IfOk result (λ text. text.items ≡ describe_report (deployed_as deployment.now)) }
{
    let mut text = Vec::new(alloc);
    push_nodes(&mut text, &deployment.names.nodes)?;
    push_devices(&mut text, deployment)?;
    push_modules(&mut text, alloc, deployment)?;
    push_links(&mut text, deployment)?;
    Ok(text)
}

/// The command `describe`, as one that reports on a deployment.
struct DescribeCommand;

impl Reports for DescribeCommand {
    ghost use Rattle.command_describe.specs.Output.{describe_report};

    ghost report = { describe_report };

    /// A line for each node, device, module, declaration, end and connection.
    fn report(alloc: Global, deployment: &Deployment) -> Result<Vec<u8>, AllocError> {
        described(alloc, deployment)
    }
}

/// The command `describe`: a deployment, and the line `%%`. Gives the exit status, as `top` does for
/// this command. What follows that line isn't judged, and at most 4,096 bytes of it are read.
pub fn describe_over<S: Source, K: Sink>(alloc: Global, input: &mut S, output: &mut K) -> Status
    ensures { DescribePromise S.tells K.tells (command_at (S.at input.old) (K.at output.old))
        (command_at (S.at input.new) (K.at output.new)) result }
{
    report_over::<DescribeCommand, S, K>(alloc, input, output)
}
