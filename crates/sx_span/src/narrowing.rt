//! What a test tells where it came out true, and where false.

ghost use Rattle.std.specs.Prelude.{◌≡◌, ◌++◌, ◌<◌, IfOk, OnOk, Option, slice_set};
ghost use Rattle.std.specs.List.{flat_map};
ghost use Rattle.sx_lang.specs.View.{expression_of};
ghost use Rattle.sx_mean.specs.Sized.{AreSizedDecls};
ghost use Rattle.sx_span.specs.Intervals.{between};
ghost use Rattle.sx_span.specs.Narrow.{limit, limit_both, limit_cell, limit_element};
ghost use Rattle.sx_span.specs.Narrow.{limit_local, limit_name, limit_to, narrow};
ghost use Rattle.sx_span.specs.Narrow.{are_flags, narrow_equal, narrow_less, narrow_plain};
ghost use Rattle.sx_span.specs.Narrow.{narrow_either, without};
ghost use Rattle.sx_span.specs.Ranges.{look_up_range};
ghost use Rattle.sx_span.specs.View.{path_of, paths_in, path_if_any};

use crate::intervals::{Interval, between};
use crate::pieces::{LocalRange, Trail};
use crate::ranges::{look_up_range, range_of};
use crate::stop::{MOST_PATHS, Stop};
use std::alloc::{AllocError, Global};
use sx_lang::names::Name;
use sx_lang::tree::{BinOp, Decl, Expr, UnOp};
use sx_mean::places::{array_length, place};

/// Sets a cell, if there is one at this place.
pub fn set_cell(cells: &mut [Interval], at: usize, range: Interval)
    ensures { cells.new ≡ slice_set cells.old at range }
{
    if at < cells.len() {
        cells[at] = range;
    }
}

fn limit_local(locals: &mut [LocalRange], x: &Name, range: Interval)
    ensures { locals.new ≡ limit_local locals.old x.now range }
{
    for i in 0..locals.len() {
        if *x == locals[i].name {
            locals[i].range = range;
            return;
        }
    }
}

fn limit_cell(found: Option<Interval>, cells: &mut [Interval], at: usize, range: Interval)
    ensures { cells.new ≡ limit_cell found cells.old at range }
{
    match found {
        None => set_cell(cells, at, range),
        Some(_) => {}
    }
}

fn limit_name(decls: &[Decl], x: &Name, range: Interval, trail: &mut Trail)
    requires { AreSizedDecls decls.now }
    ensures { path_of trail.new ≡ limit_name decls.now x.now range (path_of trail.old) }
{
    let found = look_up_range(&trail.locals, x);
    limit_cell(found, &mut trail.cells, place(decls, x), range);
    limit_local(&mut trail.locals, x, range);
}

fn limit_element(decls: &[Decl], x: &Name, index: Interval, range: Interval, trail: &mut Trail)
    requires { AreSizedDecls decls.now }
    ensures { path_of trail.new ≡ limit_element decls.now x.now index range (path_of trail.old) }
{
    if index.low == index.high && index.low < array_length(decls, x) {
        set_cell(
            &mut trail.cells,
            place(decls, x) + usize::from(index.low),
            range,
        );
    }
}

fn limit_to(decls: &[Decl], e: &Expr, range: Interval, trail: &mut Trail)
    requires { AreSizedDecls decls.now }
    ensures { path_of trail.new ≡ limit_to decls.now (expression_of e.now) range
        (path_of trail.old) }
{
    match e {
        Expr::Read(x) => limit_name(decls, x, range, trail),
        Expr::At(x, index) => {
            let index = range_of(decls, trail, index);
            limit_element(decls, x, index, range, trail);
        }
        Expr::Number(_) => {}
        Expr::Unary(_, _) => {}
        Expr::Binary(_, _, _) => {}
    }
}

fn limit(decls: &[Decl], e: &Expr, low: u32, high: u32, trail: Trail) -> Option<Trail>
    requires { AreSizedDecls decls.now }
    ensures { path_if_any result ≡ limit decls.now (expression_of e.now) (between low high)
        (path_of trail) }
{
    let range = range_of(decls, &trail, e);
    let low = low.max(u32::from(range.low));
    let high = high.min(u32::from(range.high));
    if high < low {
        return None;
    }
    let mut trail = trail;
    limit_to(decls, e, between(low as u16, high as u16), &mut trail);
    Some(trail)
}

fn limit_both(
    decls: &[Decl],
    a: &Expr,
    first: (u32, u32),
    b: &Expr,
    second: (u32, u32),
    trail: Trail,
) -> Option<Trail>
    requires { AreSizedDecls decls.now }
    ensures { path_if_any result ≡ limit_both decls.now (expression_of a.now)
        (between first.0 first.1) (expression_of b.now) (between second.0 second.1)
        (path_of trail) }
{
    match limit(decls, a, first.0, first.1, trail) {
        None => None,
        Some(trail) => limit(decls, b, second.0, second.1, trail),
    }
}

fn narrow_less(decls: &[Decl], a: &Expr, b: &Expr, t: bool, trail: Trail) -> Option<Trail>
    requires { AreSizedDecls decls.now }
    ensures { path_if_any result ≡ narrow_less decls.now (expression_of a.now)
        (expression_of b.now) t (path_of trail) }
{
    let i = range_of(decls, &trail, a);
    let j = range_of(decls, &trail, b);
    if t {
        let below = (0, u32::from(j.high.saturating_sub(1)));
        let above = (u32::from(i.low) + 1, u32::from(j.high));
        limit_both(decls, a, below, b, above, trail)
    } else {
        let above = (u32::from(j.low), u32::from(i.high));
        let below = (0, u32::from(i.high));
        limit_both(decls, a, above, b, below, trail)
    }
}

fn without(i: Interval, j: Interval) -> (u32, u32)
    ensures { between result.0 result.1 ≡ without i j }
{
    let mut low = u32::from(i.low);
    let mut high = u32::from(i.high);
    if j.low == j.high {
        if i.low == j.low {
            low += 1;
        }
        if i.high == j.low {
            high = high.saturating_sub(1);
        }
    }
    (low, high)
}

fn narrow_equal(decls: &[Decl], a: &Expr, b: &Expr, t: bool, trail: Trail) -> Option<Trail>
    requires { AreSizedDecls decls.now }
    ensures { path_if_any result ≡ narrow_equal decls.now (expression_of a.now)
        (expression_of b.now) t (path_of trail) }
{
    let i = range_of(decls, &trail, a);
    let j = range_of(decls, &trail, b);
    if t {
        let first = (u32::from(j.low), u32::from(j.high));
        let second = (u32::from(i.low), u32::from(i.high));
        limit_both(decls, a, first, b, second, trail)
    } else {
        limit_both(decls, a, without(i, j), b, without(j, i), trail)
    }
}

fn narrow_plain(decls: &[Decl], e: &Expr, t: bool, trail: Trail) -> Option<Trail>
    requires { AreSizedDecls decls.now }
    ensures { path_if_any result
        ≡ narrow_plain decls.now (expression_of e.now) t (path_of trail) }
{
    if t {
        let most = range_of(decls, &trail, e).high;
        limit(decls, e, 1, u32::from(most), trail)
    } else {
        limit(decls, e, 0, 0, trail)
    }
}

fn are_flags(decls: &[Decl], trail: &Trail, a: &Expr, b: &Expr) -> bool
    requires { AreSizedDecls decls.now }
    ensures { result ≡ are_flags decls.now (path_of trail.now) (expression_of a.now)
        (expression_of b.now) }
{
    range_of(decls, trail, a)
        .high
        .max(range_of(decls, trail, b).high)
        < 2
}

fn push_if_any(found: &mut Vec<Trail>, trail: Option<Trail>) -> Result<(), Stop>
    ensures { OnOk result (paths_in found.new.items
        ≡ paths_in found.old.items ++ path_if_any trail) }
{
    match trail {
        None => Ok(()),
        Some(trail) => {
            if MOST_PATHS <= found.len() {
                return Err(Stop::TooManyPaths);
            }
            found.push(trail)?;
            Ok(())
        }
    }
}

/// The same path again.
pub fn copy(alloc: Global, trail: &Trail) -> Result<Trail, AllocError>
    ensures { IfOk result (λ t. path_of t ≡ path_of trail.now) }
{
    let locals = Vec::from_slice(alloc, &trail.locals)?;
    let cells = Vec::from_slice(alloc, &trail.cells)?;
    let acts = Vec::from_slice(alloc, &trail.acts)?;
    Ok(Trail {
        locals,
        cells,
        acts,
    })
}

#[cycle(narrow)]
fn narrow_each(
    alloc: Global,
    decls: &[Decl],
    e: &Expr,
    t: bool,
    trails: Vec<Trail>,
    found: &mut Vec<Trail>,
) -> Result<(), Stop>
    requires { AreSizedDecls decls.now }
    ensures { OnOk result (paths_in found.new.items ≡ paths_in found.old.items
        ++ flat_map (narrow decls.now (expression_of e.now) t) (paths_in trails.items)) }
{
    for trail in trails {
        narrow(alloc, decls, e, t, trail, found)?;
    }
    Ok(())
}

/// The first test came out so, or else the second.
#[cycle(narrow)]
fn narrow_either(
    alloc: Global,
    decls: &[Decl],
    a: &Expr,
    b: &Expr,
    t: bool,
    trail: Trail,
    found: &mut Vec<Trail>,
) -> Result<(), Stop>
    requires { AreSizedDecls decls.now }
    ensures { OnOk result (paths_in found.new.items ≡ paths_in found.old.items
        ++ narrow_either decls.now (expression_of a.now) (expression_of b.now) t
        (path_of trail)) }
{
    let again = copy(alloc, &trail)?;
    narrow(alloc, decls, a, t, again, found)?;
    let mut trails = Vec::new(alloc);
    narrow(alloc, decls, a, !t, trail, &mut trails)?;
    narrow_each(alloc, decls, b, t, trails, found)
}

/// The paths where a test came out true (not 0) or false.
#[cycle(narrow)]
pub fn narrow(
    alloc: Global,
    decls: &[Decl],
    e: &Expr,
    t: bool,
    trail: Trail,
    found: &mut Vec<Trail>,
) -> Result<(), Stop>
    requires { AreSizedDecls decls.now }
    ensures { OnOk result (paths_in found.new.items ≡ paths_in found.old.items
        ++ narrow decls.now (expression_of e.now) t (path_of trail)) }
{
    match e {
        Expr::Unary(UnOp::Not, operand) => narrow(alloc, decls, operand, !t, trail, found),
        Expr::Binary(BinOp::Lt, a, b) => {
            let narrowed = narrow_less(decls, a, b, t, trail);
            push_if_any(found, narrowed)
        }
        Expr::Binary(BinOp::Gt, a, b) => {
            let narrowed = narrow_less(decls, b, a, t, trail);
            push_if_any(found, narrowed)
        }
        Expr::Binary(BinOp::Le, a, b) => {
            let narrowed = narrow_less(decls, b, a, !t, trail);
            push_if_any(found, narrowed)
        }
        Expr::Binary(BinOp::Ge, a, b) => {
            let narrowed = narrow_less(decls, a, b, !t, trail);
            push_if_any(found, narrowed)
        }
        Expr::Binary(BinOp::Eq, a, b) => {
            let narrowed = narrow_equal(decls, a, b, t, trail);
            push_if_any(found, narrowed)
        }
        Expr::Binary(BinOp::Ne, a, b) => {
            let narrowed = narrow_equal(decls, a, b, !t, trail);
            push_if_any(found, narrowed)
        }
        Expr::Binary(BinOp::And, a, b) => {
            if t {
                let mut trails = Vec::new(alloc);
                narrow(alloc, decls, a, true, trail, &mut trails)?;
                narrow_each(alloc, decls, b, true, trails, found)
            } else if are_flags(decls, &trail, a, b) {
                narrow_either(alloc, decls, a, b, false, trail, found)
            } else {
                let narrowed = narrow_plain(decls, e, false, trail);
                push_if_any(found, narrowed)
            }
        }
        Expr::Binary(BinOp::Or, a, b) => {
            if t {
                narrow_either(alloc, decls, a, b, true, trail, found)
            } else {
                let mut trails = Vec::new(alloc);
                narrow(alloc, decls, a, false, trail, &mut trails)?;
                narrow_each(alloc, decls, b, false, trails, found)
            }
        }
        Expr::Number(_) | Expr::Read(_) | Expr::At(_, _) => {
            let narrowed = narrow_plain(decls, e, t, trail);
            push_if_any(found, narrowed)
        }
        Expr::Unary(UnOp::Neg, _) | Expr::Unary(UnOp::Inv, _) => {
            let narrowed = narrow_plain(decls, e, t, trail);
            push_if_any(found, narrowed)
        }
        Expr::Binary(BinOp::Add, _, _)
        | Expr::Binary(BinOp::Sub, _, _)
        | Expr::Binary(BinOp::Mul, _, _)
        | Expr::Binary(BinOp::Xor, _, _) => {
            let narrowed = narrow_plain(decls, e, t, trail);
            push_if_any(found, narrowed)
        }
    }
}
