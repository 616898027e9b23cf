//! Blocks of numbers, between which no test of a source decides.

use crate::relevance::{Relevance, relevant_to};
use std::alloc::{AllocError, Global};
use sx_check::checked::Checked;
use sx_lang::tree::{Decl, Expr, Stmt};
use sx_mean::apps::App;
use sx_span::intervals::Interval;
use sx_watch::property::Property;

/// Numbers up to this one stay apart where they are known.
const SMALL: u16 = 16;

/// A block begins at the number, and another after it.
fn cut_at(n: u16, starts: &mut Vec<bool>) {
    let at = usize::from(n);
    if at < starts.len() {
        starts[at] = true;
    }
    if at + 1 < starts.len() {
        starts[at + 1] = true;
    }
}

fn cut_expression(e: &Expr, starts: &mut Vec<bool>) {
    match e {
        Expr::Number(n) => cut_at(*n, starts),
        Expr::Read(_) => {}
        Expr::At(_, index) => cut_expression(index, starts),
        Expr::Unary(_, operand) => cut_expression(operand, starts),
        Expr::Binary(_, left, right) => {
            cut_expression(left, starts);
            cut_expression(right, starts);
        }
    }
}

#[cycle(cut)]
fn cut_statement(s: &Stmt, starts: &mut Vec<bool>) {
    match s {
        Stmt::Let(_, e) => cut_expression(e, starts),
        Stmt::Assign(_, e) => cut_expression(e, starts),
        Stmt::Element(_, index, e) => {
            cut_expression(index, starts);
            cut_expression(e, starts);
        }
        Stmt::If(test, then, other) => {
            cut_expression(test, starts);
            cut_block(then, starts);
            cut_block(other, starts);
        }
        Stmt::Repeat(_, body) => cut_block(body, starts),
        Stmt::Send(_, e) => cut_expression(e, starts),
        Stmt::Emit(e) => cut_expression(e, starts),
    }
}

#[cycle(cut)]
fn cut_block(block: &Vec<Stmt>, starts: &mut Vec<bool>) {
    for s in block {
        cut_statement(s, starts);
    }
}

fn cut_declaration(d: &Decl, starts: &mut Vec<bool>) {
    if let Decl::Var(_, n) = d {
        cut_at(*n, starts);
    }
}

fn cut_module(code: &Checked, starts: &mut Vec<bool>) {
    let m = code.module();
    for d in &m.decls {
        cut_declaration(d, starts);
    }
    for h in &m.handlers {
        cut_block(&h.body, starts);
    }
}

fn blocks_between(alloc: Global, starts: &[bool]) -> Result<Vec<Interval>, AllocError> {
    let mut blocks = Vec::new(alloc);
    let mut low = 0;
    for n in 1..=65_535u16 {
        let at = usize::from(n);
        if at < starts.len() && starts[at] {
            blocks.push(Interval { low, high: n - 1 })?;
            low = n;
        }
    }
    blocks.push(Interval { low, high: 65_535 })?;
    Ok(blocks)
}

/// What a search tells apart.
#[derive(Drop)]
pub struct Grid {
    /// The blocks of numbers, in order.
    pub blocks: Vec<Interval>,
    /// One block of all numbers, for values of which nothing depends that is heard.
    pub whole: Vec<Interval>,
    /// What the property depends on.
    pub relevant: Relevance,
    /// For each module, whether each of its cells is a variable's, and not an array's.
    pub variables: Vec<Vec<bool>>,
}

fn push_cells(d: &Decl, variables: &mut Vec<bool>) -> Result<(), AllocError> {
    match d {
        Decl::Var(_, _) => {
            variables.push(true)?;
        }
        Decl::Array(_, length) => {
            for _ in 0..*length {
                variables.push(false)?;
            }
        }
        _ => {}
    }
    Ok(())
}

fn variables_of(alloc: Global, code: &Checked) -> Result<Vec<bool>, AllocError> {
    let mut variables = Vec::new(alloc);
    for d in &code.module().decls {
        push_cells(d, &mut variables)?;
    }
    Ok(variables)
}

/// What a search tells apart: the blocks that the numbers of the modules and of the property cut,
/// where those below `fine` have one number each.
pub fn grid_of(
    alloc: Global,
    app: &App,
    property: &Property,
    fine: u16,
) -> Result<Grid, AllocError> {
    let blocks = blocks_of(alloc, app, &property.code, fine)?;
    let whole = vec![in alloc; Interval {
        low: 0,
        high: 65_535
    }; 1]?;
    let relevant = relevant_to(alloc, app, &property.topics)?;
    let mut variables = Vec::new(alloc);
    for q in &app.parts {
        variables.push(variables_of(alloc, &q.code)?)?;
    }
    Ok(Grid {
        blocks,
        whole,
        relevant,
        variables,
    })
}

fn blocks_of(
    alloc: Global,
    app: &App,
    property: &Checked,
    fine: u16,
) -> Result<Vec<Interval>, AllocError> {
    let mut starts = vec![in alloc; false; 65_536]?;
    for q in &app.parts {
        cut_module(&q.code, &mut starts);
    }
    cut_module(property, &mut starts);
    cut_at(0, &mut starts);
    cut_at(32_767, &mut starts);
    for n in 0..fine {
        cut_at(n, &mut starts);
    }
    blocks_between(alloc, &starts)
}

/// Up to this number a property's numbers may be worth telling all numbers below them apart.
const FINEST: u16 = 64;

/// A number below which a second search may tell all numbers apart: past the greatest of the
/// property's small numbers.
pub fn finest(alloc: Global, property: &Checked) -> Result<u16, AllocError> {
    let mut starts = vec![in alloc; false; 65_536]?;
    cut_module(property, &mut starts);
    let mut fine = 0;
    for n in 0..FINEST {
        let at = usize::from(n);
        if at < starts.len() && starts[at] {
            fine = n + 1;
        }
    }
    Ok(fine)
}

impl Grid {
    /// The blocks for values that are relevant, or aren't.
    pub fn blocks_for(&self, relevant: bool) -> &[Interval] {
        if relevant { &self.blocks } else { &self.whole }
    }
}

/// The blocks around an interval, as one interval; a small number stays alone if there are several
/// blocks.
pub fn around(blocks: &[Interval], i: Interval) -> Interval {
    if blocks.len() > 1 && i.low == i.high && i.low <= SMALL {
        return i;
    }
    let mut wide = i;
    for b in blocks {
        if b.low <= i.low && i.low <= b.high {
            wide.low = b.low;
        }
        if b.low <= i.high && i.high <= b.high {
            wide.high = b.high;
        }
    }
    wide
}

/// The blocks that have numbers of the interval, each as `around` has it.
pub fn cut(alloc: Global, blocks: &[Interval], i: Interval) -> Result<Vec<Interval>, AllocError> {
    let mut pieces = Vec::new(alloc);
    for b in blocks {
        let low = b.low.max(i.low);
        let high = b.high.min(i.high);
        if low <= high {
            pieces.push(around(blocks, Interval { low, high }))?;
        }
    }
    Ok(pieces)
}
