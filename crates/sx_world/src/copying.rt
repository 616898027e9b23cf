//! Copies of worlds, and the nodes of a world.

ghost use Rattle.std.specs.Prelude.{◌≡◌, ◌<◌, Some, IfOk, length, map, slice_get};
ghost use Rattle.std.specs.Rc.{rc_slice_items};

use crate::running::Running;
use crate::world::World;
use std::alloc::{AllocError, Global};
use std::rc::RcSlice;
use sx_bus::{Bus, Copied};
use sx_node::Node;
use sx_observe::sites::Site;
use sx_tag::Tag;

fn copy_of_site(site: &Site) -> Result<Site, AllocError>
    ensures { IfOk result (λ copy. copy ≡ site.now) }
{
    Ok(Site {
        node: site.node,
        layout: site.layout,
        provider: site.provider,
        text: site.text.clone()?,
    })
}

fn copy_of_sites(alloc: Global, sites: &[Site]) -> Result<Vec<Site>, AllocError>
    ensures { IfOk result (λ copies. copies.items ≡ sites.now) }
{
    let mut copies = Vec::new(alloc);
    for site in sites {
        copies.push(copy_of_site(site)?)?;
    }
    Ok(copies)
}

fn copy_of_nodes<B: Copied, T: Tag>(
    alloc: Global,
    nodes: &[Node<B, T>],
) -> Result<Vec<Node<B, T>>, AllocError>
    ensures { IfOk result (λ copies. copies.items ≡ nodes.now) }
{
    let mut copies = Vec::new(alloc);
    for node in nodes {
        copies.push(node.copy(alloc)?)?;
    }
    Ok(copies)
}

/// The same packets, each shared.
fn copy_of_packets(alloc: Global, packets: &[RcSlice<u8>]) -> Result<Vec<RcSlice<u8>>, AllocError>
    ensures { IfOk result (λ copies.
        map rc_slice_items copies.items ≡ map rc_slice_items packets.now) }
{
    let mut copies = Vec::new(alloc);
    for packet in packets {
        copies.push(packet.clone()?)?;
    }
    Ok(copies)
}

impl<B: Copied, T: Tag> Running<B, T> {
    /// An equal run, with nodes, a deployer and a ledger of its own.
    fn copy(&self, alloc: Global) -> Result<Running<B, T>, AllocError>
        ensures { IfOk result (λ copy. copy ≡ self.now) }
    {
        let nodes = copy_of_nodes(alloc, &self.nodes)?;
        let packets = copy_of_packets(alloc, &self.packets)?;
        let deployer = self.deployer.copy(alloc)?;
        let ledger = self.ledger.copy(alloc)?;
        Ok(Running {
            alloc,
            tag: self.tag.another(),
            nodes,
            packets,
            deployer,
            ledger,
            recognized: self.recognized,
            steps: self.steps,
        })
    }
}

impl<B: Copied, T: Tag> World<B, T> {
    /// An equal world of its own: what is done in one of the two leaves the other as it was. The
    /// error says that memory ran out.
    pub fn copy(&self, alloc: Global) -> Result<World<B, T>, AllocError>
        ensures { IfOk result (λ copy. copy ≡ self.now) }
    {
        let sites = copy_of_sites(alloc, &self.sites)?;
        let running = self.running.copy(alloc)?;
        Ok(World {
            sites,
            running,
            performed: self.performed,
            ran_out: self.ran_out,
            made: self.made,
        })
    }
}

impl<B: Bus, T: Tag> World<B, T> {
    /// The node of this index.
    pub fn node(&self, node: u8) -> &Node<B, T>
        requires { node < length self.now.running.nodes }
        ensures { slice_get self.now.running.nodes node ≡ Some result.now }
    {
        &self.running.nodes[usize::from(node)]
    }
}
