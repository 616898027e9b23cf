//! The trait of commands that report on a deployment.

ghost use Rattle.std.specs.Prelude.{◌≡◌, IfOk};
ghost use Rattle.sx_deploy.specs.Law.{IsSoundDeployment};
ghost use Rattle.sx_deploy.specs.SeenDeployment.{deployed_as};
ghost use Rattle.command_report.specs.Output.{Report};

use std::alloc::{AllocError, Global};
use sx_deploy::deployment::Deployment;

/// A command that reports on a deployment, by what is its own.
pub trait Reports {
    // The lines that are written of a deployment, before `end`.
    ghost report: { Report };

    /// The lines of a deployment that keeps the rules.
    fn report(alloc: Global, deployment: &Deployment) -> Result<Vec<u8>, AllocError>
        requires { IsSoundDeployment (deployed_as deployment.now) }
        ensures { IfOk result (λ text. text.items ≡ report (deployed_as deployment.now)) };
}
