//! What a module does at an event.

ghost use Rattle.std.specs.Prelude.{◌≡◌, ◌-◌, IfOk, None, OnErr, OnOk, Some, map};
ghost use Rattle.sx_check.specs.Names.{same_input};
ghost use Rattle.sx_check.specs.Source.{source_tree};
ghost use Rattle.sx_lang.specs.View.{handler_of, module_of};
ghost use Rattle.sx_mean.specs.Sized.{AreSizedDecls};
ghost use Rattle.sx_mean.specs.React.{handler_of_input, input_names};
ghost use Rattle.sx_mean.specs.React.{nth, react, run, start};
ghost use Rattle.sx_mean.specs.View.{state_of};

use crate::events::{Act, Acts, SourceEvent};
use crate::moments::{Local, Moment};
use crate::statements::run_block;
use crate::stores::Store;
use smallvec::SmallVec;
use std::alloc::{AllocError, Global};
use sx_check::checked::Checked;
use sx_lang::names::Name;
use sx_lang::tree::{Decl, Handler, Module};

/// The name of the input of this number, none where the module has no such input.
pub fn input_name(decls: &[Decl], number: u8) -> Option<Name>
    ensures { result ≡ nth (input_names decls.now) number }
{
    let mut left = number;
    for d in decls {
        if let Decl::Input(x) = d {
            if left == 0 {
                return Some(*x);
            }
            left -= 1;
        }
    }
    None
}

/// The handler is the one of this input, or where there is none, of the sensor's samples.
pub fn handles(h: &Handler, input: &Option<Name>) -> bool
    ensures { result ≡ same_input input.now h.now.input }
{
    match (input, &h.input) {
        (None, None) => true,
        (Some(x), Some(y)) => x == y,
        _ => false,
    }
}

/// What an event makes of a module.
#[derive(Drop)]
pub struct Reaction {
    /// What its handler sent and emitted, in order.
    pub acts: Acts,
    /// The cells as its handler leaves them.
    pub cells: Vec<u16>,
}

fn start(alloc: Global, h: &Handler, value: u16, cells: &[u16]) -> Result<Moment, AllocError>
    ensures { IfOk result (λ m. state_of m ≡ start (handler_of h.now) value cells.now) }
{
    let mut locals = SmallVec::new(alloc);
    locals.push(Local {
        name: h.param,
        value,
    })?;
    let cells = Vec::from_slice(alloc, cells)?;
    Ok(Moment {
        locals,
        cells,
        acts: SmallVec::new(alloc),
    })
}

fn run_handler(
    alloc: Global,
    decls: &[Decl],
    h: &Handler,
    value: u16,
    cells: &[u16],
) -> Result<Reaction, AllocError>
    requires { AreSizedDecls decls.now }
    ensures acts { IfOk result (λ r. r.acts.items
        ≡ (run decls.now (Some (handler_of h.now)) value cells.now).acts) }
    ensures cells { IfOk result (λ r. r.cells.items
        ≡ (run decls.now (Some (handler_of h.now)) value cells.now).cells) }
{
    let mut moment = start(alloc, h, value, cells)?;
    run_block(decls, &h.body, &mut moment)?;
    Ok(Reaction {
        acts: moment.acts,
        cells: moment.cells,
    })
}

fn idle(alloc: Global, decls: &[Decl], value: u16, cells: &[u16]) -> Result<Reaction, AllocError>
    ensures acts { IfOk result (λ r. r.acts.items ≡ (run decls.now None value cells.now).acts) }
    ensures cells { IfOk result (λ r. r.cells.items
        ≡ (run decls.now None value cells.now).cells) }
{
    let cells = Vec::from_slice(alloc, cells)?;
    Ok(Reaction {
        acts: SmallVec::new(alloc),
        cells,
    })
}

fn run_first(
    alloc: Global,
    m: &Module,
    input: &Option<Name>,
    value: u16,
    cells: &[u16],
) -> Result<Reaction, AllocError>
    requires { AreSizedDecls m.now.decls.items }
    ensures acts { IfOk result (λ r. r.acts.items ≡ (run m.now.decls.items
        (handler_of_input input.now (map handler_of m.now.handlers.items)) value cells.now).acts) }
    ensures cells { IfOk result (λ r. r.cells.items ≡ (run m.now.decls.items
        (handler_of_input input.now (map handler_of m.now.handlers.items)) value cells.now).cells) }
{
    for h in &m.handlers {
        if handles(h, input) {
            return run_handler(alloc, &m.decls, h, value, cells);
        }
    }
    idle(alloc, &m.decls, value, cells)
}

fn outcome(
    alloc: Global,
    m: &Module,
    event: SourceEvent,
    cells: &[u16],
) -> Result<Reaction, AllocError>
    requires { AreSizedDecls m.now.decls.items }
    ensures acts { IfOk result (λ r. r.acts.items
        ≡ (react (module_of m.now) event cells.now).acts) }
    ensures cells { IfOk result (λ r. r.cells.items
        ≡ (react (module_of m.now) event cells.now).cells) }
{
    match event {
        SourceEvent::Input(number, value) => match input_name(&m.decls, number) {
            None => idle(alloc, &m.decls, value, cells),
            Some(x) => run_first(alloc, m, &Some(x), value, cells),
        },
        SourceEvent::Sample(value) => run_first(alloc, m, &None, value, cells),
    }
}

/// What an event makes of a module with these cells: the acts of the event's handler, in order, and
/// the cells as the handler leaves them. The error says that memory ran out. An event without a
/// handler, or of an input that the module doesn't have, leaves the cells and gives no acts.
pub fn reaction_of(
    alloc: Global,
    m: &Checked,
    cells: &[u16],
    event: SourceEvent,
) -> Result<Reaction, AllocError>
    ensures acts { IfOk result (λ r. r.acts.items
        ≡ (react (source_tree m.now) event cells.now).acts) }
    ensures cells { IfOk result (λ r. r.cells.items
        ≡ (react (source_tree m.now) event cells.now).cells) }
{
    outcome(alloc, m.module(), event, cells)
}

/// The acts of the event's handler, in order; the store's cells are then as the handler leaves
/// them. After an `Err` the store is unchanged.
pub fn react(
    alloc: Global,
    m: &Checked,
    store: &mut Store,
    event: SourceEvent,
) -> Result<Vec<Act>, AllocError>
    ensures acts { IfOk result (λ acts. acts.items
        ≡ (react (source_tree m.now) event store.old.cells.items).acts) }
    ensures cells { OnOk result (store.new.cells.items
        ≡ (react (source_tree m.now) event store.old.cells.items).cells) }
    ensures unchanged { OnErr result (store.new ≡ store.old) }
{
    let made = reaction_of(alloc, m, &store.cells, event)?;
    let acts = made.acts.into_vec()?;
    store.cells = made.cells;
    Ok(acts)
}
