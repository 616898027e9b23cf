//! Which sections of nodes were recognized as deployed modules, so that their texts aren't compared
//! again.
//!
//! A live section keeps its public bytes, and no id is given twice at one boot of a node. So what
//! was recognized at a boot holds as long as a section with the id lives. Nothing has to be
//! forgotten: neither at `unprotect` nor at a reset.

ghost use Rattle.std.specs.Prelude.{◌≡◌, ◌≤◌, ◌<◌, List, length, option_map, slice_get, Some};
ghost use Rattle.sx_rules.specs.Access.{section_of};
ghost use Rattle.sx_rules.specs.Placed.{Placed};
ghost use Rattle.spec_machine.specs.State.{State};
ghost use Rattle.spec_run.specs.Setting.{module_of};
ghost use Rattle.sx_observe.specs.Recognized.{AreRecognized, none_recognized};

use crate::sites::{Site, module_of};
use sx_bus::Copied;
use sx_node::Node;
use sx_tag::Tag;

/// How many sections are kept at most.
pub const PLACES: usize = 64;

/// A section that was recognized: its node, the boot of the node, its id, and the number of the
/// module that it is.
#[derive(Clone, Copy)]
pub struct Recognized {
    pub(crate) node: u8,
    pub(crate) boot: u32,
    pub(crate) id: u16,
    pub(crate) part: u8,
}

impl Recognized {
    /// Nothing was recognized yet.
    pub fn none() -> [Recognized; PLACES]
        ensures { result ≡ none_recognized }
    {
        let none = Recognized {
            node: 0,
            boot: 0,
            id: 0,
            part: 0,
        };
        [none; PLACES]
    }
}

/// Where a section is kept. Ids count from 1 at each boot, so the first modules of a node have
/// places of their own.
fn place_of(n: u8, id: u16) -> usize
    ensures { result < 64 }
{
    (8 * usize::from(n) + usize::from(id)) % PLACES
}

/// The module, if a section of the node with the id lives.
fn if_live<B: Copied, T: Tag>(node: &Node<B, T>, id: u16, part: u8) -> Option<u8>
    ensures { result ≡ option_map (λ x. part) (section_of node.now.sections.live id) }
{
    match node.section(id) {
        Some(_) => Some(part),
        None => None,
    }
}

/// The deployed module that the live section of a node with the id is; it is recognized from now
/// on.
pub(crate) fn recognize<B: Copied, T: Tag>(
    sites: &[Site],
    those: &mut [Recognized; PLACES],
    n: u8,
    node: &Node<B, T>,
    id: u16,
) -> Option<u8>
    requires { length sites.now ≤ 256 }
    ensures found { (nodes : List State) → slice_get nodes n ≡ Some node.now
        → AreRecognized sites.now nodes those.old → result ≡ module_of sites.now n node.now id }
    ensures kept { (nodes : List State) → slice_get nodes n ≡ Some node.now
        → Placed node.now.sections → AreRecognized sites.now nodes those.old
        → AreRecognized sites.now nodes those.new }
{
    let place = place_of(n, id);
    let last = those[place];
    if last.node == n && last.boot == node.boot() && last.id == id {
        return if_live(node, id, last.part);
    }
    let part = module_of(sites, n, node, id)?;
    those[place] = Recognized {
        node: n,
        boot: node.boot(),
        id,
        part,
    };
    Some(part)
}
