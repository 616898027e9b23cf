//! Rule 6: not too many entries, and at most 8 modules on a node.
ghost use Rattle.std.specs.Prelude.{◌≡◌, ◌==◌, count_by};
ghost use Rattle.sx_deploy.specs.Counts.{counts_fault, is_crowded};

use sx_entries::entries::{Entries, ModuleEntry, NodeEntry};
use sx_entries::fault::{DeployFault, Sort};
use sx_entries::lines::{Line, entries, whole};

fn modules_on(modules: &[ModuleEntry], node: usize) -> usize
    ensures { result ≡ count_by (λ m. m.node == node) modules.now }
{
    modules.iter().filter(|m| m.node == node).count()
}

#[derive(Drop)]
struct Crowds<'a> {
    modules: &'a [ModuleEntry<'a>],
}

impl Line<NodeEntry> for Crowds<'_> {
    ghost bad = { λ s. is_crowded s.modules.now };

    fn is_bad(&self, earlier: &[NodeEntry], row: &NodeEntry) -> bool {
        8 < modules_on(self.modules, earlier.len())
    }
}

/// The first line of the rule that is broken, and where.
pub fn counts_fault(d: &Entries) -> Option<DeployFault>
    ensures { result ≡ counts_fault d.now }
{
    let nodes = d.nodes.as_slice();
    let modules = d.modules.as_slice();
    if let Some(fault) = whole(6, Sort::Node, 16 < nodes.len()) {
        return Some(fault);
    }
    if let Some(fault) = entries(6, Sort::Node, &Crowds { modules }, nodes) {
        return Some(fault);
    }
    if let Some(fault) = whole(6, Sort::Device, 32 < d.devices.len()) {
        return Some(fault);
    }
    if let Some(fault) = whole(6, Sort::Module, 32 < modules.len()) {
        return Some(fault);
    }
    whole(6, Sort::Connection, 64 < d.links.len())
}
