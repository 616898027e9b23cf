//! The lines of a run's items, which are written together.

ghost use Rattle.std.specs.Prelude.{◌≡◌, ◌+◌, ◌≤◌, ◌++◌, length};
ghost use Rattle.command_text.specs.Batch.{Writes};
ghost use Rattle.command_world.specs.Items.{item_line, items_text};

use command_text::batch::{Batch, LONGEST_LINE, MOST, make_room};
use command_text::text::put;
use sx_io::{Failed, Sink};
use sx_trace::items::Item;
use sx_trace::names::Names;
use sx_trace::writing::write_item;

/// Appends an item's line, which there is room for.
#[tactic(auto, unfolding(crate::specs::Items::item_line))]
fn push_item(batch: &mut Batch, names: &Names, item: &Item)
    requires { length batch.old.items + LONGEST_LINE ≤ MOST }
    ensures { batch.new.items ≡ batch.old.items ++ item_line names.now item.now }
{
    let mut into = [0; 128];
    let count = write_item(names, item, &mut into);
    put(batch, &into[..count]);
    put(batch, b"\n");
}

/// Appends an item's line to a batch, which may be written before.
fn add_item<K: Sink>(
    output: &mut K,
    batch: &mut Batch,
    names: &Names,
    item: &Item,
) -> Result<(), Failed>
    ensures { Writes K.tells (K.at output.old) (K.at output.new)
        (batch.old.items ++ item_line names.now item.now) batch.new.items result }
{
    make_room(output, batch)?;
    push_item(batch, names, item);
    Ok(())
}

/// Appends the lines of items to a batch, which may be written before each.
pub fn add_items<K: Sink>(
    output: &mut K,
    batch: &mut Batch,
    names: &Names,
    items: &[Item],
) -> Result<(), Failed>
    ensures { Writes K.tells (K.at output.old) (K.at output.new)
        (batch.old.items ++ items_text names.now items.now) batch.new.items result }
{
    for item in items {
        add_item(output, batch, names, item)?;
    }
    Ok(())
}
