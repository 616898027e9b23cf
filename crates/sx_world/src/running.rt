//! The state of a run: all nodes, the packets, the deployer and the ledger.

ghost use Rattle.std.specs.Prelude.{◌≡◌, []};
ghost use Rattle.sx_observe.specs.Recognized.{none_recognized};

use std::alloc::Global;
use std::marker::Model;
use std::rc::RcSlice;
use sx_bus::{Bus, Copied};
use sx_deployer::Deployer;
use sx_ledger::Ledger;
use sx_node::Node;
use sx_observe::recognized::{PLACES, Recognized};
use sx_tag::Tag;

/// What a world keeps of a run but where its modules are deployed.
#[derive(Drop)]
pub(crate) struct Running<B: Bus, T: Tag> {
    pub(crate) alloc: Global,
    pub(crate) tag: T,
    pub(crate) nodes: Vec<Node<B, T>>,
    /// Worlds that are copies of one another share the packets that were there: none ever changes.
    pub(crate) packets: Vec<RcSlice<u8>>,
    pub(crate) deployer: Deployer<T>,
    pub(crate) ledger: Ledger,
    /// The sections that were recognized as modules.
    pub(crate) recognized: [Recognized; PLACES],
    /// How many steps of nodes were taken.
    pub(crate) steps: u64,
}

impl<B: Bus, T: Tag> Model for Running<B, T> {
    ghost use Rattle.std.specs.Prelude.{map};
    ghost use Rattle.std.specs.Rc.{rc_slice_items};
    ghost use Rattle.sx_world.specs.Held.{Running as Kept};

    ghost Value = { Kept };

    ghost view = { λ r. record {
      nodes = r.nodes.items;
      packets = map rc_slice_items r.packets.items;
      deployer = r.deployer;
      ledger = r.ledger;
      recognized = r.recognized;
      steps = r.steps;
    } };
}

impl<B: Copied, T: Tag> Running<B, T> {
    /// No packet was made and nothing entered into the ledger.
    pub(crate) fn new(
        alloc: Global,
        tag: T,
        nodes: Vec<Node<B, T>>,
        deployer: Deployer<T>,
    ) -> Running<B, T>
        ensures { result ≡ record {
          nodes = nodes.items;
          packets = [];
          deployer = deployer;
          ledger =
              [];
          recognized = none_recognized;
          steps = 0;
        } }
    {
        Running {
            alloc,
            tag,
            nodes,
            packets: Vec::new(alloc),
            deployer,
            ledger: Ledger::new(alloc),
            recognized: Recognized::none(),
            steps: 0,
        }
    }
}
