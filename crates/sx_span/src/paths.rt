//! The paths through statements.

ghost use Rattle.std.specs.Prelude.{◌≡◌, ◌++◌, ◌<◌, ◌≤◌, IfOk, OnOk, [], ◌∷◌, length, map};
ghost use Rattle.std.specs.Prelude.{slice_set};
ghost use Rattle.std.specs.List.{flat_map};
ghost use Rattle.sx_lang.specs.View.{block_of, statement_of};
ghost use Rattle.sx_mean.specs.Sized.{AreSizedDecls};
ghost use Rattle.sx_span.specs.Paths.{act_range, assign_element_range, assign_range};
ghost use Rattle.sx_span.specs.Paths.{define_range, forget_range, new_range};
ghost use Rattle.sx_span.specs.Paths.{paths_after_statement, range_place};
ghost use Rattle.sx_span.specs.Paths.{inner_paths, turns, widened};
ghost use Rattle.sx_span.specs.View.{path_of, paths_in};

use crate::intervals::{Interval, hull};
use crate::narrowing::{copy, narrow, set_cell};
use crate::pieces::{ActRange, LocalRange, Trail};
use crate::ranges::range_of;
use crate::stop::{MOST_PATHS, Stop};
use std::alloc::{AllocError, Global};
use sx_lang::names::Name;
use sx_lang::tree::{Decl, Stmt};
use sx_mean::places::{array_length, output_number, place};

fn range_place(locals: &[LocalRange], x: &Name) -> usize
    ensures { result ≡ range_place locals.now x.now }
{
    let mut before = 0;
    for l in locals {
        if *x == l.name {
            return before;
        }
        before += 1;
    }
    before
}

fn define_range(trail: &mut Trail, x: &Name, range: Interval) -> Result<(), AllocError>
    ensures { OnOk result (path_of trail.new ≡ define_range x.now range (path_of trail.old)) }
{
    trail.locals.push(LocalRange { name: *x, range })?;
    Ok(())
}

fn set_local(locals: &mut [LocalRange], at: usize, x: &Name, range: Interval)
    requires { at < length locals.old }
    ensures { locals.new ≡ slice_set locals.old at (new_range x.now range) }
{
    locals[at] = LocalRange { name: *x, range };
}

fn assign_range(decls: &[Decl], trail: &mut Trail, x: &Name, range: Interval)
    requires { AreSizedDecls decls.now }
    ensures { path_of trail.new ≡ assign_range decls.now x.now range (path_of trail.old) }
{
    let at = range_place(&trail.locals, x);
    if at < trail.locals.len() {
        set_local(&mut trail.locals, at, x, range);
    } else {
        set_cell(&mut trail.cells, place(decls, x), range);
    }
}

#[tactic(auto, using(crate::proofs::Places::widened_at, crate::proofs::Places::widened_past))]
fn widen(cells: &mut [Interval], at: usize, range: Interval)
    ensures { cells.new ≡ widened cells.old at 1 range }
{
    if at < cells.len() {
        let both = hull(cells[at], range);
        cells[at] = both;
    }
}

#[tactic(auto, using(crate::proofs::Places::widened_none, crate::proofs::Places::widened_more))]
fn widen_all(cells: &mut [Interval], at: usize, count: u16, range: Interval)
    requires { at ≤ 70000 }
    ensures { cells.new ≡ widened cells.old at count range }
{
    for k in 0..count {
        widen(cells, at + usize::from(k), range);
    }
}

fn assign_element_range(
    decls: &[Decl],
    trail: &mut Trail,
    x: &Name,
    index: Interval,
    range: Interval,
)
    requires { AreSizedDecls decls.now }
    ensures { path_of trail.new ≡ assign_element_range decls.now x.now index range
        (path_of trail.old) }
{
    let length = array_length(decls, x);
    let first = place(decls, x);
    if index.low < length {
        if index.low == index.high {
            set_cell(&mut trail.cells, first + usize::from(index.low), range);
        } else {
            let end = (u32::from(index.high) + 1).min(u32::from(length)) as u16;
            widen_all(
                &mut trail.cells,
                first + usize::from(index.low),
                end.saturating_sub(index.low),
                range,
            );
        }
    }
}

fn act_range(trail: &mut Trail, done: ActRange) -> Result<(), AllocError>
    ensures { OnOk result (path_of trail.new ≡ act_range done (path_of trail.old)) }
{
    trail.acts.push(done)?;
    Ok(())
}

fn push(found: &mut Vec<Trail>, trail: Trail) -> Result<(), Stop>
    ensures { OnOk result (paths_in found.new.items
        ≡ paths_in found.old.items ++ path_of trail ∷ []) }
{
    if MOST_PATHS <= found.len() {
        return Err(Stop::TooManyPaths);
    }
    found.push(trail)?;
    Ok(())
}

fn forget_each(trails: Vec<Trail>, outer: usize, found: &mut Vec<Trail>) -> Result<(), Stop>
    ensures { OnOk result (paths_in found.new.items
        ≡ paths_in found.old.items ++ map (forget_range outer) (paths_in trails.items)) }
{
    for trail in trails {
        let mut trail = trail;
        trail.locals.truncate(outer);
        push(found, trail)?;
    }
    Ok(())
}

fn push_each(trails: Vec<Trail>, found: &mut Vec<Trail>) -> Result<(), Stop>
    ensures { OnOk result (paths_in found.new.items
        ≡ paths_in found.old.items ++ paths_in trails.items) }
{
    for trail in trails {
        push(found, trail)?;
    }
    Ok(())
}

#[cycle(follow)]
fn follow_statement(
    alloc: Global,
    decls: &[Decl],
    s: &Stmt,
    trail: Trail,
    found: &mut Vec<Trail>,
) -> Result<(), Stop>
    requires { AreSizedDecls decls.now }
    ensures { OnOk result (paths_in found.new.items ≡ paths_in found.old.items
        ++ paths_after_statement decls.now (statement_of s.now) (path_of trail)) }
{
    match s {
        Stmt::Let(x, e) => {
            let range = range_of(decls, &trail, e);
            let mut trail = trail;
            define_range(&mut trail, x, range)?;
            push(found, trail)
        }
        Stmt::Assign(x, e) => {
            let range = range_of(decls, &trail, e);
            let mut trail = trail;
            assign_range(decls, &mut trail, x, range);
            push(found, trail)
        }
        Stmt::Element(x, index, e) => {
            let index = range_of(decls, &trail, index);
            let range = range_of(decls, &trail, e);
            let mut trail = trail;
            assign_element_range(decls, &mut trail, x, index, range);
            push(found, trail)
        }
        Stmt::If(e, then, otherwise) => {
            let test = range_of(decls, &trail, e);
            if test.high == 0 {
                let mut trails = Vec::new(alloc);
                narrow(alloc, decls, e, false, trail, &mut trails)?;
                follow_each_in(alloc, decls, otherwise, trails, found)
            } else if 0 < test.low {
                let mut trails = Vec::new(alloc);
                narrow(alloc, decls, e, true, trail, &mut trails)?;
                follow_each_in(alloc, decls, then, trails, found)
            } else {
                let again = copy(alloc, &trail)?;
                let mut trails = Vec::new(alloc);
                narrow(alloc, decls, e, true, again, &mut trails)?;
                follow_each_in(alloc, decls, then, trails, found)?;
                let mut others = Vec::new(alloc);
                narrow(alloc, decls, e, false, trail, &mut others)?;
                follow_each_in(alloc, decls, otherwise, others, found)
            }
        }
        Stmt::Repeat(n, body) => follow_turns(alloc, decls, *n, body, trail, found),
        Stmt::Send(x, e) => {
            let range = range_of(decls, &trail, e);
            let mut trail = trail;
            act_range(&mut trail, ActRange::SendIn(output_number(decls, x), range))?;
            push(found, trail)
        }
        Stmt::Emit(e) => {
            let range = range_of(decls, &trail, e);
            let mut trail = trail;
            act_range(&mut trail, ActRange::EmitIn(range))?;
            push(found, trail)
        }
    }
}

#[cycle(follow)]
fn follow_each(
    alloc: Global,
    decls: &[Decl],
    s: &Stmt,
    trails: Vec<Trail>,
) -> Result<Vec<Trail>, Stop>
    requires { AreSizedDecls decls.now }
    ensures { IfOk result (λ r. paths_in r.items
        ≡ flat_map (paths_after_statement decls.now (statement_of s.now))
        (paths_in trails.items)) }
{
    let mut found = Vec::new(alloc);
    for trail in trails {
        follow_statement(alloc, decls, s, trail, &mut found)?;
    }
    Ok(found)
}

/// The paths after a block, without its locals.
#[cycle(follow)]
pub fn follow_block(
    alloc: Global,
    decls: &[Decl],
    block: &Vec<Stmt>,
    trail: Trail,
    found: &mut Vec<Trail>,
) -> Result<(), Stop>
    requires { AreSizedDecls decls.now }
    ensures { OnOk result (paths_in found.new.items ≡ paths_in found.old.items
        ++ inner_paths decls.now (block_of block.now.items) (path_of trail)) }
{
    let outer = trail.locals.len();
    let mut trails = Vec::new(alloc);
    push(&mut trails, trail)?;
    for s in block {
        trails = follow_each(alloc, decls, s, trails)?;
    }
    forget_each(trails, outer, found)
}

#[cycle(follow)]
fn follow_each_in(
    alloc: Global,
    decls: &[Decl],
    block: &Vec<Stmt>,
    trails: Vec<Trail>,
    found: &mut Vec<Trail>,
) -> Result<(), Stop>
    requires { AreSizedDecls decls.now }
    ensures { OnOk result (paths_in found.new.items ≡ paths_in found.old.items
        ++ flat_map (inner_paths decls.now (block_of block.now.items)) (paths_in trails.items)) }
{
    for trail in trails {
        follow_block(alloc, decls, block, trail, found)?;
    }
    Ok(())
}

#[cycle(follow)]
fn follow_turns(
    alloc: Global,
    decls: &[Decl],
    n: u16,
    body: &Vec<Stmt>,
    trail: Trail,
    found: &mut Vec<Trail>,
) -> Result<(), Stop>
    requires { AreSizedDecls decls.now }
    ensures { OnOk result (paths_in found.new.items ≡ paths_in found.old.items
        ++ turns n (inner_paths decls.now (block_of body.now.items)) (path_of trail)) }
{
    let mut trails = Vec::new(alloc);
    push(&mut trails, trail)?;
    for _turn in 0..n {
        let mut next = Vec::new(alloc);
        follow_each_in(alloc, decls, body, trails, &mut next)?;
        trails = next;
    }
    push_each(trails, found)
}
