//! Rule 7: each source is in the grammar.
ghost use Rattle.std.specs.Prelude.{◌≡◌, map};
ghost use Rattle.sx_entries.specs.Gives.{GivesOne};
ghost use Rattle.sx_deploy.specs.Seen.{parsed_as};
ghost use Rattle.sx_deploy.specs.Sources.{AreCoded, IsCoded};
ghost use Rattle.sx_deploy.specs.SourceErrors.{source_error};

use std::alloc::Global;
use sx_entries::entries::{ModuleEntry, Start};
use sx_entries::fault::{DeployError, DeployFault, Place, cut};
use sx_lang::names::Name;
use sx_lang::tree::Module;
use sx_parse::error::ParseError;
use sx_parse::parse::parse;

/// A module whose source is in the grammar.
#[derive(Drop)]
pub struct ParsedModule {
    /// The module's name.
    pub name: Name,
    /// The index of its node among the nodes.
    pub node: usize,
    /// The number of its provider.
    pub provider: u16,
    /// The address at which its public section begins.
    pub text: u16,
    /// Where its private section begins.
    pub start: Start,
    /// The tree of its source.
    pub tree: Module,
}

/// Why the module of this number has no tree: its source is not in the grammar, or memory ran out.
/// It takes no memory.
fn source_error(number: usize, error: ParseError) -> DeployError
    ensures { result ≡ source_error number error }
{
    match error {
        ParseError::Fault(fault) => DeployError::Fault(DeployFault {
            rule: 7,
            place: Place::Source(cut(number), fault.line, fault.column),
        }),
        ParseError::OutOfMemory => DeployError::OutOfMemory,
    }
}

/// The module of this number with the tree of its source.
fn coded(alloc: Global, number: usize, entry: &ModuleEntry) -> Result<ParsedModule, DeployError>
    ensures { GivesOne parsed_as result (IsCoded number entry.now) }
{
    match parse(alloc, entry.source.text()) {
        Ok(tree) => Ok(ParsedModule {
            name: entry.name,
            node: entry.node,
            provider: entry.provider,
            text: entry.text,
            start: entry.start,
            tree,
        }),
        Err(error) => Err(source_error(number, error)),
    }
}

/// The modules with the trees of their sources. `Fault` is the first fault in the first source that
/// has one. `OutOfMemory` says that memory ran out.
#[tactic(auto, using(crate::proofs::Begun::begins, crate::proofs::Begun::goes_on, crate::proofs::Begun::ends))]
pub fn coded_all(alloc: Global, modules: &[ModuleEntry]) -> Result<Vec<ParsedModule>, DeployError>
    ensures { GivesOne (λ v. map parsed_as v.items) result (AreCoded 0 modules.now) }
{
    let mut done = Vec::new(alloc);
    for entry in modules {
        let one = match coded(alloc, done.len(), entry) {
            Ok(one) => one,
            Err(error) => return Err(error),
        };
        if done.push(one).is_err() {
            return Err(DeployError::OutOfMemory);
        }
    }
    Ok(done)
}
