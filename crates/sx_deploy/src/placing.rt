//! Rule 10: devices and sections have places of their own in memory.
ghost use Rattle.std.specs.Prelude.{◌≡◌, ◌≤◌, ◌^◌, [], map};
ghost use Rattle.std.specs.List.{list_any};
ghost use Rattle.sx_lang.specs.Sizes.{module_data_size, module_weight};
ghost use Rattle.sx_check.specs.Source.{source_tree};
ghost use Rattle.sx_entries.specs.Gives.{Gives};
ghost use Rattle.sx_entries.specs.Stage.{made_after};
ghost use Rattle.sx_deploy.specs.Places.{drives, holds_word, is_bad_place, is_misplaced};
ghost use Rattle.sx_deploy.specs.Places.{is_outside, is_own, is_taken, meet, meets_module};
ghost use Rattle.sx_deploy.specs.Places.{placed_module, placement_of, placements_of, sections_of};
ghost use Rattle.sx_deploy.specs.Places.{start_of, span, text_of, data_of};
ghost use Rattle.sx_deploy.specs.Seen.{checked_as};
ghost use Rattle.sx_deploy.specs.SeenSections.{sections_as, span_as};

use crate::checks::CheckedModule;
use crate::ties::ends_at;
use std::alloc::Global;
use sx_check::checked::Checked;
use sx_entries::entries::{DeviceEntry, Start};
use sx_entries::fault::{DeployError, Sort};
use sx_entries::lines::{Line, entries};
use sx_entries::stages::{Derive, derived, in_entry, passes};
use sx_lang::sizes::{data_size, weight};
use sx_mean::apps::Link;
use sx_rules::Layout;

/// Where a module is: its node and its sections.
#[derive(Clone, Copy, Drop)]
pub struct Placement {
    /// The index of the module's node among the nodes.
    pub node: usize,
    /// The bounds of its two sections.
    pub layout: Layout,
}

fn is_taken(devices: &[DeviceEntry], node: usize, at: u16) -> bool
    ensures { result ≡ is_taken devices.now node at }
{
    devices.iter().any(|d| d.node == node && d.at == at)
}

#[derive(Drop)]
struct BadPlaces;

impl Line<DeviceEntry> for BadPlaces {
    ghost bad = { λ _. is_bad_place };

    fn is_bad(&self, earlier: &[DeviceEntry], row: &DeviceEntry) -> bool {
        row.at % 2 == 1
            || row.at < 0x0200
            || 0xFFE0 <= row.at
            || is_taken(earlier, row.node, row.at)
    }
}

/// The bytes from `from` up to but not including `to`.
#[derive(Clone, Copy)]
struct Span {
    from: u16,
    to: u64,
}

/// A module's two sections, on its node, and whether it drives a device.
#[derive(Clone, Copy)]
struct Sections {
    node: usize,
    drives: bool,
    text: Span,
    data: Span,
}

fn start_of(devices: &[DeviceEntry], start: Start) -> u16
    ensures { result ≡ start_of devices.now start }
{
    match start {
        Start::At(at) => at,
        Start::Device(number) => match devices.get(number) {
            Some(device) => device.at,
            None => 0,
        },
    }
}

fn drives(start: Start) -> bool
    ensures { result ≡ drives start }
{
    match start {
        Start::At(_) => false,
        Start::Device(_) => true,
    }
}

fn weight_of(code: &Checked, ends: u8) -> u64
    ensures exact { result ≡ module_weight (source_tree code.now) ends }
    ensures small { result ≤ 2 ^ 17 }
{
    weight(code.module(), ends)
}

fn data_size_of(code: &Checked, ends: u8) -> u64
    ensures exact { result ≡ module_data_size (source_tree code.now) ends }
    ensures small { result ≤ 2 ^ 17 }
{
    data_size(code.module(), ends)
}

fn span_at(from: u16, size: u64) -> Span
    requires { size ≤ 2 ^ 17 }
    ensures { span_as result ≡ span from size }
{
    Span {
        from,
        to: u64::from(from) + size,
    }
}

fn sections_of(devices: &[DeviceEntry], links: &[Link], place: usize, m: &CheckedModule) -> Sections
    ensures { sections_as result ≡ sections_of devices.now links.now place (checked_as m.now) }
{
    let ends = ends_at(links, place);
    Sections {
        node: m.node,
        drives: drives(m.start),
        text: span_at(m.text, weight_of(&m.code, ends)),
        data: span_at(start_of(devices, m.start), data_size_of(&m.code, ends)),
    }
}

fn meet(a: Span, b: Span) -> bool
    ensures { result ≡ meet (span_as a) (span_as b) }
{
    u64::from(a.from) < b.to && u64::from(b.from) < a.to
}

fn is_outside(s: Span) -> bool
    ensures { result ≡ is_outside (span_as s) }
{
    s.from % 2 == 1 || s.from < 0x0200 || 0xFFE0 < s.to
}

fn text_of(p: &Placement) -> Span
    ensures { span_as result ≡ text_of p.now }
{
    Span {
        from: p.layout.pub_from,
        to: u64::from(p.layout.pub_to),
    }
}

fn data_of(p: &Placement) -> Span
    ensures { span_as result ≡ data_of p.now }
{
    Span {
        from: p.layout.priv_from,
        to: u64::from(p.layout.priv_to),
    }
}

fn meets_module(s: &Sections, p: &Placement) -> bool
    ensures { result ≡ meets_module (sections_as s.now) p.now }
{
    let text = text_of(p);
    let data = data_of(p);
    p.node == s.node
        && (meet(s.text, text) || meet(s.text, data) || meet(s.data, text) || meet(s.data, data))
}

fn meets_earlier(s: &Sections, earlier: &[Placement]) -> bool
    ensures { result ≡ list_any (meets_module (sections_as s.now)) earlier.now }
{
    earlier.iter().any(|p| meets_module(s, p))
}

fn is_own(s: &Sections, d: &DeviceEntry) -> bool
    ensures { result ≡ is_own (sections_as s.now) d.now }
{
    s.drives && d.at == s.data.from
}

fn holds_word(s: &Sections, d: &DeviceEntry) -> bool
    ensures { result ≡ holds_word (sections_as s.now) d.now }
{
    let word = span_at(d.at, 2);
    d.node == s.node && !is_own(s, d) && (meet(s.text, word) || meet(s.data, word))
}

fn holds_words(s: &Sections, devices: &[DeviceEntry]) -> bool
    ensures { result ≡ list_any (holds_word (sections_as s.now)) devices.now }
{
    devices.iter().any(|d| holds_word(s, d))
}

fn is_misplaced(devices: &[DeviceEntry], earlier: &[Placement], s: &Sections) -> bool
    ensures { result ≡ is_misplaced devices.now earlier.now (sections_as s.now) }
{
    is_outside(s.text)
        || is_outside(s.data)
        || meet(s.text, s.data)
        || meets_earlier(s, earlier)
        || holds_words(s, devices)
}

fn placement_of(devices: &[DeviceEntry], earlier: &[Placement], s: &Sections) -> Option<Placement>
    ensures { result ≡ placement_of devices.now earlier.now (sections_as s.now) }
{
    if is_misplaced(devices, earlier, s) {
        return None;
    }
    Some(Placement {
        node: s.node,
        layout: Layout {
            pub_from: s.text.from,
            pub_to: s.text.to as u16,
            priv_from: s.data.from,
            priv_to: s.data.to as u16,
        },
    })
}

#[derive(Drop)]
struct Placer<'a> {
    devices: &'a [DeviceEntry],
    links: &'a [Link],
}

impl Derive<CheckedModule, Placement> for Placer<'_> {
    ghost derives = { λ s done m. placed_module s.devices.now s.links.now done (checked_as m) };

    fn derive(&self, done: &[Placement], row: &CheckedModule) -> Result<Placement, DeployError> {
        let sections = sections_of(self.devices, self.links, done.len(), row);
        let placement = placement_of(self.devices, done, &sections);
        in_entry(10, Sort::Module, done.len(), placement)
    }
}

fn sections_placed(
    alloc: Global,
    devices: &[DeviceEntry],
    links: &[Link],
    modules: &[CheckedModule],
) -> Result<Vec<Placement>, DeployError>
    ensures { Gives (λ v. v.items) result (made_after (placed_module devices.now links.now) []
        (map checked_as modules.now)) }
{
    derived(alloc, &Placer { devices, links }, modules)
}

/// Where the modules are. `Fault` is the first fault of rule 10. `OutOfMemory` says that memory
/// ran out.
pub fn placements_of(
    alloc: Global,
    devices: &[DeviceEntry],
    links: &[Link],
    modules: &[CheckedModule],
) -> Result<Vec<Placement>, DeployError>
    ensures { Gives (λ v. v.items) result (placements_of devices.now links.now
        (map checked_as modules.now)) }
{
    passes(entries(10, Sort::Device, &BadPlaces, devices))?;
    sections_placed(alloc, devices, links, modules)
}
