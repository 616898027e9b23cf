//! The names of a deployment, and the items of a trace.
//!
//! `names::Names` keeps the names of nodes, devices, modules and connections. `Names::valid` tells
//! whether they are names that a deployment may have, and the look-ups give the place of a name in
//! its list, `None` exactly where it isn't there. They don't go through the list: `sx_index` gives
//! each name's first place. Before it is asked, one look at a guessed place mostly finds the name.
//! `items::Item` is what a run tells of one event. `writing::write_item` writes its line, and
//! `reading::read_item` gives the item of a line, `None` exactly where no item has that line. No
//! two items have one line.
//!
//! `specs/Names.antt` has the names and where one is, `specs/ValidNames.antt` when lists of them
//! are valid; the form of a name is `sx_lang`'s.
//! `specs/Items.antt` has the lines of items, and `specs/KnownItems.antt` which items there are.
#![tactic(auto)]

mod guesses;
pub mod items;
pub mod laws;
pub mod names;
pub mod reading;
pub mod writing;
