//! The deployment that a text means.
ghost use Rattle.std.specs.Prelude.{◌≡◌, IfOk, IsTrue, false, map};
ghost use Rattle.std.specs.Str.{is_utf8};
ghost use Rattle.toml.specs.View.{table_view};
ghost use Rattle.sx_mean.specs.Validity.{is_valid};
ghost use Rattle.sx_mean.specs.View.{app_as};
ghost use Rattle.sx_trace.specs.ValidNames.{are_valid};
ghost use Rattle.sx_entries.specs.Gives.{Gives, GivesOne, TakesNoMemory};
ghost use Rattle.sx_deploy.specs.Deployment.{counted, counted_in, deployed, IsFrom, IsRead};
ghost use Rattle.sx_deploy.specs.Law.{IsSoundDeployment};
ghost use Rattle.sx_deploy.specs.Seen.{parsed_as};
ghost use Rattle.sx_deploy.specs.Sources.{AreCoded};
ghost use Rattle.sx_deploy.specs.SeenDeployment.{deployed_as};

use crate::arranging::{app_devices, arranged};
use crate::checks::checked_all;
use crate::counts::counts_fault;
use crate::placing::placements_of;
use crate::sources::{ParsedModule, coded_all};
use crate::ties::links_of;
use std::alloc::Global;
use sx_entries::arrays::rows_of;
use sx_entries::documents::table_of;
use sx_entries::entries::{Entries, entries_of};
use sx_entries::fault::DeployError;
use sx_entries::stages::passes;
use sx_mean::apps::App;
use sx_rules::Layout;
use sx_trace::names::Names;
use toml::Table;

/// An application with what its nodes, devices and modules need to run.
#[derive(Drop)]
pub struct Deployment {
    /// The modules with their devices and connections.
    pub app: App,
    /// The names of nodes, devices, modules and connections.
    pub names: Names,
    /// What the keys of connections are derived from.
    pub secret: [u8; 16],
    /// The key of each node.
    pub keys: Vec<[u8; 16]>,
    /// The address of each device's word.
    pub places: Vec<u16>,
    /// Where each module is.
    pub layouts: Vec<Layout>,
    /// The provider of each module.
    pub providers: Vec<u16>,
}

/// Rule 6. It takes no memory.
fn counted<'a>(entries: Entries<'a>) -> Result<Entries<'a>, DeployError>
    ensures gives { Gives (λ e. e) result (counted entries.entry) }
    ensures memory { TakesNoMemory result }
{
    passes(counts_fault(&entries))?;
    Ok(entries)
}

/// Rules 4, 5 and 6.
fn counted_in<'a>(alloc: Global, table: &'a Table) -> Result<Entries<'a>, DeployError>
    ensures { Gives (λ e. e) result (counted_in (table_view table.now)) }
{
    let rows = rows_of(alloc, table)?;
    let entries = entries_of(alloc, rows)?;
    counted(entries)
}

/// Rules 8, 9 and 10.
fn deployed(alloc: Global, e: &Entries, coded: Vec<ParsedModule>) -> Result<Deployment, DeployError>
    ensures { Gives deployed_as result (deployed e.now (map parsed_as coded.items)) }
{
    let modules = checked_all(alloc, coded)?;
    let Ok(devices) = app_devices(alloc, &e.devices) else {
        return Err(DeployError::OutOfMemory);
    };
    let links = links_of(alloc, &devices, &modules, &e.links)?;
    let placements = placements_of(alloc, &e.devices, &links, &modules)?;
    match arranged(alloc, e, devices, modules, links, &placements) {
        Ok(deployment) => Ok(deployment),
        Err(_) => Err(DeployError::OutOfMemory),
    }
}

/// Rule 7.
fn coded_in(alloc: Global, e: &Entries) -> Result<Vec<ParsedModule>, DeployError>
    ensures { GivesOne (λ v. map parsed_as v.items) result (AreCoded 0 e.now.modules) }
{
    coded_all(alloc, &e.modules)
}

fn deployed_from(alloc: Global, e: &Entries) -> Result<Deployment, DeployError>
    ensures { GivesOne deployed_as result (IsFrom (Ok e.now)) }
{
    match coded_in(alloc, e) {
        Ok(coded) => deployed(alloc, e, coded),
        Err(error) => Err(error),
    }
}

fn read_in(alloc: Global, table: &Table) -> Result<Deployment, DeployError>
    ensures { GivesOne deployed_as result (IsFrom (counted_in (table_view table.now))) }
{
    match counted_in(alloc, table) {
        Ok(entries) => deployed_from(alloc, &entries),
        Err(error) => Err(error),
    }
}

fn read_text(alloc: Global, text: &[u8]) -> Result<Deployment, DeployError>
    ensures read { GivesOne deployed_as result (IsRead text.now) }
    ensures memory { is_utf8 text.now ≡ false → TakesNoMemory result }
{
    match table_of(alloc, text) {
        Ok(table) => read_in(alloc, &table),
        Err(error) => Err(error),
    }
}

/// The deployment that a text means, or the first of the rules 3 to 10 that it breaks, and where.
/// `OutOfMemory` says that memory ran out.
pub fn read_deployment(alloc: Global, text: &[u8]) -> Result<Deployment, DeployError>
    // the deployment is the text's, and so is the fault
    ensures read { GivesOne deployed_as result (IsRead text.now) }
    // that a text is not UTF-8 is found without memory
    ensures memory { is_utf8 text.now ≡ false → TakesNoMemory result }
    // what is accepted passes `App::valid`
    ensures app { IfOk result (λ d. IsTrue (is_valid (app_as d.app))) }
    // and `Names::valid`
    ensures names { IfOk result (λ d. IsTrue (are_valid d.names)) }
    // its lists fit each other, and its modules and devices have places of their own
    ensures sound { IfOk result (λ d. IsSoundDeployment (deployed_as d)) }
{
    read_text(alloc, text)
}
