//! What a module may do at an event.

ghost use Rattle.std.specs.Prelude.{◌≡◌, IfOk, None, Some, map};
ghost use Rattle.sx_check.specs.Source.{source_tree};
ghost use Rattle.sx_lang.specs.View.{handler_of, module_of};
ghost use Rattle.sx_mean.specs.Sized.{AreSizedDecls};
ghost use Rattle.sx_mean.specs.React.{handler_of_input};
ghost use Rattle.sx_span.specs.Paths.{paths_of, react_within, start_range};
ghost use Rattle.sx_span.specs.Sound.{EachFollows};
ghost use Rattle.sx_span.specs.View.{path_of, paths_in};

use crate::intervals::Interval;
use crate::paths::follow_block;
use crate::pieces::{EventRange, LocalRange, Trail};
use crate::stop::Stop;
use std::alloc::{AllocError, Global};
use sx_check::checked::Checked;
use sx_lang::names::Name;
use sx_lang::tree::{Decl, Handler, Module};
use sx_mean::reactions::{handles, input_name};

fn start(
    alloc: Global,
    h: &Handler,
    value: Interval,
    cells: &[Interval],
) -> Result<Trail, AllocError>
    ensures { IfOk result (λ t. path_of t ≡ start_range (handler_of h.now) value cells.now) }
{
    let mut locals = Vec::new(alloc);
    locals.push(LocalRange {
        name: h.param,
        range: value,
    })?;
    let cells = Vec::from_slice(alloc, cells)?;
    Ok(Trail {
        locals,
        cells,
        acts: Vec::new(alloc),
    })
}

fn run_handler(
    alloc: Global,
    decls: &[Decl],
    h: &Handler,
    value: Interval,
    cells: &[Interval],
) -> Result<Vec<Trail>, Stop>
    requires { AreSizedDecls decls.now }
    ensures { IfOk result (λ r. paths_in r.items
        ≡ paths_of decls.now (Some (handler_of h.now)) value cells.now) }
{
    let trail = start(alloc, h, value, cells)?;
    let mut found = Vec::new(alloc);
    follow_block(alloc, decls, &h.body, trail, &mut found)?;
    Ok(found)
}

fn idle(
    alloc: Global,
    decls: &[Decl],
    value: Interval,
    cells: &[Interval],
) -> Result<Vec<Trail>, Stop>
    ensures { IfOk result (λ r. paths_in r.items ≡ paths_of decls.now None value cells.now) }
{
    let cells = Vec::from_slice(alloc, cells)?;
    let mut found = Vec::new(alloc);
    found.push(Trail {
        locals: Vec::new(alloc),
        cells,
        acts: Vec::new(alloc),
    })?;
    Ok(found)
}

fn run_first(
    alloc: Global,
    m: &Module,
    input: &Option<Name>,
    value: Interval,
    cells: &[Interval],
) -> Result<Vec<Trail>, Stop>
    requires { AreSizedDecls m.now.decls.items }
    ensures { IfOk result (λ r. paths_in r.items ≡ paths_of m.now.decls.items
        (handler_of_input input.now (map handler_of m.now.handlers.items)) value cells.now) }
{
    for h in &m.handlers {
        if handles(h, input) {
            return run_handler(alloc, &m.decls, h, value, cells);
        }
    }
    idle(alloc, &m.decls, value, cells)
}

fn outcome(
    alloc: Global,
    m: &Module,
    event: EventRange,
    cells: &[Interval],
) -> Result<Vec<Trail>, Stop>
    requires { AreSizedDecls m.now.decls.items }
    ensures { IfOk result (λ r. paths_in r.items
        ≡ react_within (module_of m.now) event cells.now) }
{
    match event {
        EventRange::InputIn(number, value) => match input_name(&m.decls, number) {
            None => idle(alloc, &m.decls, value, cells),
            Some(x) => run_first(alloc, m, &Some(x), value, cells),
        },
        EventRange::SampleIn(value) => run_first(alloc, m, &None, value, cells),
    }
}

/// The paths of a module whose cells lie in these intervals, at an event whose value lies in one:
/// whatever they are, what the module does follows one of these paths.
pub fn react_within(
    alloc: Global,
    m: &Checked,
    event: EventRange,
    cells: &[Interval],
) -> Result<Vec<Trail>, Stop>
    ensures paths { IfOk result (λ r. paths_in r.items
        ≡ react_within (source_tree m.now) event cells.now) }
    ensures sound { IfOk result (λ r. EachFollows (source_tree m.now) event cells.now
        (paths_in r.items)) }
{
    outcome(alloc, m.module(), event, cells)
}
