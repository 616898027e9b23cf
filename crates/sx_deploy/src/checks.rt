//! Rule 8: each source keeps the rules of the language.
ghost use Rattle.std.specs.Prelude.{◌≡◌, map};
ghost use Rattle.sx_entries.specs.Gives.{Gives, TakesNoMemory};
ghost use Rattle.sx_deploy.specs.Checks.{checked_all, checked_nth, number};
ghost use Rattle.sx_deploy.specs.Seen.{checked_as, parsed_as};

use crate::sources::ParsedModule;
use std::alloc::Global;
use sx_check::checked::Checked;
use sx_check::checks::check;
use sx_check::rules::Rule;
use sx_entries::entries::Start;
use sx_entries::fault::{DeployError, DeployFault, Place, cut};
use sx_lang::names::Name;

/// A module whose source keeps the rules of the language.
#[derive(Drop)]
pub struct CheckedModule {
    /// The module's name.
    pub name: Name,
    /// The index of its node among the nodes.
    pub node: usize,
    /// The number of its provider.
    pub provider: u16,
    /// The address at which its public section begins.
    pub text: u16,
    /// Where its private section begins.
    pub start: Start,
    /// Its source as a checked module.
    pub code: Checked,
}

fn number(rule: Rule) -> u8
    ensures { result ≡ number rule }
{
    match rule {
        Rule::Duplicate => 1,
        Rule::Unknown => 2,
        Rule::Kind => 3,
        Rule::Depth => 4,
        Rule::Locals => 5,
        Rule::Repeat => 6,
        Rule::Packets => 7,
        Rule::Cost => 8,
        Rule::Nodes => 9,
        Rule::Cells => 10,
    }
}

fn checked_nth(place: usize, parsed: ParsedModule) -> Result<CheckedModule, DeployError>
    ensures gives { Gives checked_as result (checked_nth place (parsed_as parsed)) }
    ensures memory { TakesNoMemory result }
{
    let ParsedModule {
        name,
        node,
        provider,
        text,
        start,
        tree,
    } = parsed;
    match check(tree) {
        Ok(code) => Ok(CheckedModule {
            name,
            node,
            provider,
            text,
            start,
            code,
        }),
        Err((rule, _)) => Err(DeployError::Fault(DeployFault {
            rule: 8,
            place: Place::Broken(cut(place), number(rule)),
        })),
    }
}

/// The modules, checked. `Fault` is the first module that breaks a rule, with that rule.
/// `OutOfMemory` says that memory ran out.
pub fn checked_all(
    alloc: Global,
    modules: Vec<ParsedModule>,
) -> Result<Vec<CheckedModule>, DeployError>
    ensures { Gives (λ v. map checked_as v.items) result
        (checked_all (map parsed_as modules.items)) }
{
    let mut done = Vec::new(alloc);
    for module in modules {
        let one = checked_nth(done.len(), module)?;
        if done.push(one).is_err() {
            return Err(DeployError::OutOfMemory);
        }
    }
    Ok(done)
}
