//! A property that follows a trace up to its first forged item.

ghost use Rattle.std.specs.Prelude.{◌≡◌, ◌+◌, [], IfOk, List, length};
ghost use Rattle.sx_trace.specs.declared.items.Item.{Item as Listed};
ghost use Rattle.sx_model.specs.Legal.{is_forged};
ghost use Rattle.sx_watch.specs.Watched.{PropertyTree};
ghost use Rattle.sx_watch.specs.Watching.{property_as};
ghost use Rattle.command_watch.specs.Following.{Heeded, Stands};

use std::alloc::{AllocError, Global};
use sx_trace::items::Item;
use sx_watch::property::Property;
use sx_watch::watcher::Watcher;

/// A property that follows the items of a trace before the first that is forged.
#[derive(Drop)]
pub(crate) struct Following {
    /// The property, after these items.
    pub watcher: Watcher,
    /// The number of the first that is forged, if one was.
    pub forged: Option<u64>,
}

fn is_forged(item: &Item) -> bool
    ensures { result ≡ is_forged item.now }
{
    match *item {
        Item::Forged { .. } => true,
        _ => false,
    }
}

impl Following {
    /// A property before a trace. The error says that memory ran out.
    pub(crate) fn new(alloc: Global, property: Property) -> Result<Following, AllocError>
        ensures { IfOk result (λ f. Stands (property_as property) [] f) }
    {
        let watcher = Watcher::new(alloc, property)?;
        Ok(Following {
            watcher,
            forged: None,
        })
    }

    /// Takes the next item, which has this number, and tells whether it breaks the property. The
    /// error says that memory ran out.
    pub(crate) fn item(
        &mut self,
        alloc: Global,
        item: &Item,
        number: u32,
    ) -> Result<bool, AllocError>
        ensures { (p : PropertyTree) (items : List Listed) → Stands p items self.old
            → number ≡ length items + 1
            → IfOk result (λ broken. Heeded p items item.now self.new broken) }
    {
        if self.forged.is_some() {
            return Ok(false);
        }
        if is_forged(item) {
            self.forged = Some(u64::from(number));
            return Ok(false);
        }
        self.watcher.item(alloc, item)
    }
}
