//! Packets, and what is given to nodes and taken from them.

ghost use Rattle.std.specs.Prelude.{◌≡◌, ◌<◌, ◌≤◌, length, slice_get, Some, Ok, Err, IfOk, IfErr};
ghost use Rattle.spec_machine.specs.State.{State};
ghost use Rattle.spec_machine.specs.Acts as acts;
ghost use Rattle.spec_run.specs.Acts.{at_node, after_take, new_packet};
ghost use Rattle.sx_world.specs.Held.{DoesAct};
ghost use Rattle.spec_run.specs.Run.{give};
ghost use Rattle.spec_run.specs.Setting.{Setting};

use crate::network::add_packet;
use crate::nodes::{add_answer, put_node, refused_item};
use crate::running::Running;
use std::alloc::{AllocError, Global};
use sx_bus::{Bus, Copied};
use sx_node::{Node, Refused};
use sx_observe::recording::push_item;
use sx_tag::Tag;
use sx_trace::items::Item;

/// This many bytes of a node's memory from an address on, or why they are not given.
fn take_bytes<B: Bus, T: Tag>(
    alloc: Global,
    nodes: &[Node<B, T>],
    n: u8,
    at: u16,
    len: u16,
) -> Result<Result<Vec<u8>, Refused>, AllocError>
    requires { n < length nodes.now }
    ensures bytes { IfOk result (λ r. IfOk r (λ bytes. (s : State) → slice_get nodes.now n ≡ Some s
        → (acts.take s at len).shown ≡ Ok bytes.items)) }
    ensures long { IfOk result (λ r. IfOk r (λ bytes. length bytes.items ≡ len)) }
    ensures refused { IfOk result (λ r. IfErr r (λ why. (s : State) → slice_get nodes.now n ≡ Some s
        → (acts.take s at len).shown ≡ Err why)) }
{
    let mut bytes = Vec::new(alloc);
    bytes.resize(usize::from(len), 0)?;
    match nodes[usize::from(n)].take(at, &mut bytes) {
        Ok(()) => Ok(Ok(bytes)),
        Err(why) => Ok(Err(why)),
    }
}

impl<B: Copied, T: Tag> Running<B, T> {
    /// A new packet.
    pub(crate) fn new_packet(
        &mut self,
        bytes: &[u8],
        items: &mut Vec<Item>,
    ) -> Result<(), AllocError>
        requires few { length self.old.packets < u32.MAX }
        requires short { length bytes.now < 65536 }
        ensures { (set : Setting) → DoesAct set result self.old self.new items.old.items
            items.new.items
            (λ w. new_packet w bytes.now) }
    {
        add_packet(self.alloc, &mut self.packets, bytes, items)
    }

    /// Bytes of a node's memory become a new packet.
    pub(crate) fn take(
        &mut self,
        n: u8,
        at: u16,
        len: u16,
        items: &mut Vec<Item>,
    ) -> Result<(), AllocError>
        requires node { n < length self.old.nodes }
        requires few { length self.old.packets < u32.MAX }
        requires short { len ≤ 384 }
        ensures { (set : Setting) → DoesAct set result self.old self.new items.old.items
            items.new.items
            (λ w. at_node w (λ s. after_take w n (acts.take s at len).shown)
            (slice_get w.nodes n)) }
    {
        match take_bytes(self.alloc, &self.nodes, n, at, len)? {
            Ok(bytes) => self.new_packet(&bytes, items),
            Err(why) => push_item(items, refused_item(n, why)),
        }
    }

    /// A packet is written into a node's memory.
    pub(crate) fn give(
        &mut self,
        k: u32,
        n: u8,
        at: u16,
        items: &mut Vec<Item>,
    ) -> Result<(), AllocError>
        requires { n < length self.old.nodes }
        ensures { (set : Setting) → DoesAct set result self.old self.new items.old.items
            items.new.items
            (λ w. give w n at (slice_get w.packets k)) }
    {
        match self.packets.get(k as usize) {
            Some(bytes) => {
                let answer = put_node(&mut self.nodes, n, at, bytes);
                add_answer(n, None, answer, items)
            }
            None => push_item(items, Item::Skip { node: n }),
        }
    }
}
