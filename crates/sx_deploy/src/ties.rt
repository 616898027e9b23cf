//! Rule 9: modules fit their devices, connections their modules, and nothing is overloaded.
ghost use Rattle.std.specs.Prelude.{◌≡◌, ◌+◌, [], map, nat_lt, option_map};
ghost use Rattle.std.specs.Option.{option_copied};
ghost use Rattle.sx_mean.specs.Application.{ends_from, ends_to, sends_too_much};
ghost use Rattle.sx_check.specs.Source.{source_tree};
ghost use Rattle.sx_entries.specs.Gives.{Gives};
ghost use Rattle.sx_entries.specs.Lines.{entries};
ghost use Rattle.sx_entries.specs.Stage.{made_after};
ghost use Rattle.sx_entries.specs.declared.fault.Sort.TheVariants.{Module};
ghost use Rattle.sx_index.specs.Places.{place_of};
ghost use Rattle.sx_deploy.specs.Seen.{checked_as};
ghost use Rattle.sx_deploy.specs.SeenPort.{port_as};
ghost use Rattle.sx_deploy.specs.Ties.{byte, start_device, has_many_ends, is_mismatched, link_of};
ghost use Rattle.sx_deploy.specs.Ties.{links_of, makes_many_packets, port_in, port_names, port_of};
ghost use Rattle.sx_deploy.specs.Ties.{port_place, tied_link};

use crate::checks::CheckedModule;
use crate::owners::Owners;
use std::alloc::Global;
use sx_check::checked::Checked;
use sx_entries::entries::{LinkEntry, Start};
use sx_entries::fault::{DeployError, DeployFault, Sort};
use sx_entries::lines::{Line, entries};
use sx_entries::rows::EndRow;
use sx_entries::stages::{Derive, derived, in_entry, passes};
use sx_lang::names::Name;
use sx_lang::tree::Decl;
use sx_mean::apps::{
    AppDevice, Link, declared_kind, ends_from, ends_to, is_driven, sends_too_much,
};

/// A number as a byte, cut at 255.
pub fn byte(number: usize) -> u8
    ensures { result ≡ byte number }
{
    number.min(255) as u8
}

/// The device that a module drives.
pub fn start_device(start: Start) -> Option<u8>
    ensures { result ≡ start_device start }
{
    match start {
        Start::At(_) => None,
        Start::Device(number) => Some(byte(number)),
    }
}

#[derive(Drop)]
struct Mismatches<'a> {
    devices: &'a [AppDevice],
}

impl Line<CheckedModule> for Mismatches<'_> {
    ghost bad = { λ s earlier m. is_mismatched s.devices.now (map checked_as earlier) (checked_as m) };

    fn is_bad(&self, earlier: &[CheckedModule], row: &CheckedModule) -> bool {
        let kind = declared_kind(&row.code.module().decls);
        !is_driven(self.devices, byte(row.node), start_device(row.start), kind)
    }
}

fn mismatched(devices: &[AppDevice], modules: &[CheckedModule]) -> Option<DeployFault>
    ensures { result ≡ entries 9 Module (is_mismatched devices.now) (map checked_as modules.now) }
{
    entries(9, Sort::Module, &Mismatches { devices }, modules)
}

fn port_in(output: bool, d: &Decl) -> Option<&Name>
    ensures { option_copied result ≡ port_in output d.now }
{
    match d {
        Decl::Input(x) => { if output { None } else { Some(x) } }
        Decl::Output(x) => { if output { Some(x) } else { None } }
        Decl::Device(_) | Decl::Var(_, _) | Decl::Array(_, _) => None,
    }
}

fn port_named(output: bool, decls: &[Decl], name: &Name) -> Option<usize>
    ensures { result ≡ place_of (port_names output decls.now) name.now }
{
    let mut before: usize = 0;
    for d in decls {
        let Some(port) = port_in(output, d) else {
            continue;
        };
        if port.bytes() == name.bytes() {
            return Some(before);
        }
        before += 1;
    }
    None
}

fn port_place(output: bool, code: &Checked, name: &Option<Name>) -> Option<usize>
    ensures { result ≡ port_place output (source_tree code.now).decls name.now }
{
    match name {
        Some(name) => port_named(output, &code.module().decls, name),
        None => None,
    }
}

/// A module and one of its ports, by their numbers.
#[derive(Clone, Copy)]
struct Port {
    owner: u8,
    port: u8,
}

fn port_of(output: bool, owners: &Owners, row: &EndRow) -> Option<Port>
    ensures { option_map port_as result ≡ port_of output (map checked_as owners.now) row.now }
{
    let owner = owners.place_of(&row.owner)?;
    let module = owners.at(owner)?;
    let port = port_place(output, &module.code, &row.port)?;
    Some(Port {
        owner: byte(owner),
        port: byte(port),
    })
}

fn link_of(owners: &Owners, row: &LinkEntry) -> Option<Link>
    ensures { result ≡ link_of (map checked_as owners.now) row.now }
{
    let from = port_of(true, owners, &row.from)?;
    let to = port_of(false, owners, &row.to)?;
    Some(Link {
        from: from.owner,
        output: from.port,
        to: to.owner,
        input: to.port,
    })
}

#[derive(Drop)]
struct LinkDerivation<'a> {
    owners: &'a Owners<'a>,
}

impl Derive<LinkEntry, Link> for LinkDerivation<'_> {
    ghost derives = { λ s. tied_link (map checked_as s.owners.now) };

    fn derive(&self, done: &[Link], row: &LinkEntry) -> Result<Link, DeployError> {
        in_entry(9, Sort::Connection, done.len(), link_of(self.owners, row))
    }
}

/// The ends that a module of this number holds, cut at 255.
pub fn ends_at(links: &[Link], place: usize) -> u8
    ensures { result ≡ byte (ends_from links.now place + ends_to links.now place) }
{
    byte(ends_from(links, place).min(255) + ends_to(links, place).min(255))
}

#[tactic(auto, using(crate::proofs::Bytes::many_cut))]
fn has_many(links: &[Link], place: usize) -> bool
    ensures { result ≡ nat_lt 16 (ends_from links.now place + ends_to links.now place) }
{
    16 < ends_at(links, place)
}

#[derive(Drop)]
struct ManyEnds<'a> {
    links: &'a [Link],
}

impl Line<CheckedModule> for ManyEnds<'_> {
    ghost bad = { λ s earlier m. has_many_ends s.links.now (map checked_as earlier) (checked_as m) };

    fn is_bad(&self, earlier: &[CheckedModule], _row: &CheckedModule) -> bool {
        has_many(self.links, earlier.len())
    }
}

fn many_ends(links: &[Link], modules: &[CheckedModule]) -> Option<DeployFault>
    ensures { result ≡ entries 9 Module (has_many_ends links.now) (map checked_as modules.now) }
{
    entries(9, Sort::Module, &ManyEnds { links }, modules)
}

fn makes_many(links: &[Link], place: usize, code: &Checked) -> bool
    ensures { result ≡ sends_too_much links.now place (source_tree code.now) }
{
    sends_too_much(links, place, code.module())
}

#[derive(Drop)]
struct ManyPackets<'a> {
    links: &'a [Link],
}

impl Line<CheckedModule> for ManyPackets<'_> {
    ghost bad = { λ s earlier m. makes_many_packets s.links.now (map checked_as earlier) (checked_as m) };

    fn is_bad(&self, earlier: &[CheckedModule], row: &CheckedModule) -> bool {
        makes_many(self.links, earlier.len(), &row.code)
    }
}

fn many_packets(links: &[Link], modules: &[CheckedModule]) -> Option<DeployFault>
    ensures { result ≡ entries 9 Module (makes_many_packets links.now)
        (map checked_as modules.now) }
{
    entries(9, Sort::Module, &ManyPackets { links }, modules)
}

/// The connections that the entries give, or the first that is between no output and input. The
/// index of the modules' names has served then.
fn tied(
    alloc: Global,
    modules: &[CheckedModule],
    rows: &[LinkEntry],
) -> Result<Vec<Link>, DeployError>
    ensures { Gives (λ v. v.items) result (made_after (tied_link (map checked_as modules.now)) []
        rows.now) }
{
    let Ok(owners) = Owners::new(alloc, modules) else {
        return Err(DeployError::OutOfMemory);
    };
    derived(alloc, &LinkDerivation { owners: &owners }, rows)
}

/// The connections, by the indices of modules and ports. `Fault` is the first fault of rule 9.
/// `OutOfMemory` says that memory ran out.
pub fn links_of(
    alloc: Global,
    devices: &[AppDevice],
    modules: &[CheckedModule],
    rows: &[LinkEntry],
) -> Result<Vec<Link>, DeployError>
    ensures { Gives (λ v. v.items) result (links_of devices.now (map checked_as modules.now)
        rows.now) }
{
    passes(mismatched(devices, modules))?;
    let links = tied(alloc, modules, rows)?;
    passes(many_ends(&links, modules))?;
    passes(many_packets(&links, modules))?;
    Ok(links)
}
