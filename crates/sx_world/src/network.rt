//! New packets, of which a run keeps all.

ghost use Rattle.std.specs.Prelude.{◌≡◌, ◌+◌, ◌<◌, ◌++◌, ◌∷◌, [], length, map, OnErr, OnOk};
ghost use Rattle.std.specs.Rc.{rc_slice_items};
ghost use Rattle.sx_trace.specs.declared.items.Item.TheVariants.{Packet};

use std::alloc::{AllocError, Global};
use std::rc::RcSlice;
use sx_observe::recording::push_item;
use sx_trace::items::Item;

/// A new packet, and its item.
pub(crate) fn add_packet(
    alloc: Global,
    packets: &mut Vec<RcSlice<u8>>,
    bytes: &[u8],
    items: &mut Vec<Item>,
) -> Result<(), AllocError>
    requires few { length packets.old.items < u32.MAX }
    requires short { length bytes.now < 65536 }
    ensures packet { OnOk result (map rc_slice_items packets.new.items
        ≡ map rc_slice_items packets.old.items ++ bytes.now ∷ []) }
    ensures ok { OnOk result (items.new.items ≡ items.old.items
        ++ Packet (length packets.old.items) (length bytes.now) ∷ []) }
    ensures err { OnErr result (items.new.items ≡ items.old.items) }
{
    let number = packets.len() as u32;
    let packet = RcSlice::from_slice(alloc, bytes)?;
    packets.push(packet)?;
    push_item(
        items,
        Item::Packet {
            number,
            len: bytes.len() as u16,
        },
    )
}
