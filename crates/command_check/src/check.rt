//! The command `check`: it reads a deployment and says where its modules are, or which rule it
//! breaks.

ghost use Rattle.std.specs.Prelude.{◌≡◌, ◌++◌, IfOk, OnOk};
ghost use Rattle.command_promise.specs.Told.{command_at};
ghost use Rattle.command_check.specs.Output.{CheckPromise, module_line, module_lines};

use command_promise::Status;
use command_report::{Reports, report_over};
use command_text::address::address;
use std::alloc::{AllocError, Global};
use sx_deploy::deployment::Deployment;
use sx_io::{Sink, Source};
use sx_lang::names::Name;
use sx_rules::Layout;

/// Appends a module's line.
#[tactic(auto, unfolding(crate::specs::Output::module_line))]
fn push_module(text: &mut Vec<u8>, name: &Name, layout: &Layout) -> Result<(), AllocError>
    ensures { OnOk result (text.new.items ≡ text.old.items ++ module_line name.now layout.now) }
{
    text.extend_from_slice(b"module ")?;
    text.extend_from_slice(name.bytes())?;
    text.extend_from_slice(b" text ")?;
    text.extend_from_slice(&address(layout.pub_from))?;
    text.extend_from_slice(b" ")?;
    text.extend_from_slice(&address(layout.pub_to))?;
    text.extend_from_slice(b" data ")?;
    text.extend_from_slice(&address(layout.priv_from))?;
    text.extend_from_slice(b" ")?;
    text.extend_from_slice(&address(layout.priv_to))?;
    text.extend_from_slice(b"\n")
}

/// The lines of all modules.
fn module_lines(alloc: Global, names: &[Name], layouts: &[Layout]) -> Result<Vec<u8>, AllocError>
    ensures { IfOk result (λ text. text.items ≡ module_lines names.now layouts.now) }
{
    let mut text = Vec::new(alloc);
    let mut i = 0;
    'modules: while i < names.len() && i < layouts.len() {
        push_module(&mut text, &names[i], &layouts[i])?;
        i += 1;
    }
    Ok(text)
}

/// The command `check`, as one that reports on a deployment.
struct CheckCommand;

impl Reports for CheckCommand {
    ghost use Rattle.command_check.specs.Output.{check_report};

    ghost report = { check_report };

    /// Where the modules are.
    fn report(alloc: Global, deployment: &Deployment) -> Result<Vec<u8>, AllocError> {
        module_lines(alloc, &deployment.names.modules, &deployment.layouts)
    }
}

/// The command `check`: a deployment, and the line `%%`. Gives the exit status, as `top` does for
/// this command. What follows that line isn't judged, and at most 4,096 bytes of it are read.
pub fn check_over<S: Source, K: Sink>(alloc: Global, input: &mut S, output: &mut K) -> Status
    ensures { CheckPromise S.tells K.tells (command_at (S.at input.old) (K.at output.old))
        (command_at (S.at input.new) (K.at output.new)) result }
{
    report_over::<CheckCommand, S, K>(alloc, input, output)
}
