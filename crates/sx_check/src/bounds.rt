//! The rules on how high, how deep and how long the code is. Numbers are cut where no rule tells
//! them apart any more, so that they are numbers for every tree.

ghost use Rattle.std.specs.Prelude.{◌≡◌, ◌+◌, ◌*◌, ◌≤◌, length, map, min};
ghost use Rattle.std.specs.List.{list_any};
ghost use Rattle.sx_lang.specs.View.{block_of, expression_of, handler_of, module_of, statement_of};
ghost use Rattle.sx_check.specs.Bounds.{block_counts, block_emits, block_height, block_sends};
ghost use Rattle.sx_check.specs.Bounds.{height, inner_depth, is_miscounted, statement_counts};
ghost use Rattle.sx_check.specs.Bounds.{statement_depth, statement_emits, statement_height};
ghost use Rattle.sx_check.specs.Bounds.{statement_sends_by};
ghost use Rattle.sx_check.specs.Names.{block_lets, statement_lets};
ghost use Rattle.sx_check.specs.Rules.{breaks};
ghost use Rattle.sx_check.specs.declared.rules.Rule.TheVariants.{Cells, Cost, Depth, Locals};
ghost use Rattle.sx_check.specs.declared.rules.Rule.TheVariants.{Nodes, Packets, Repeat};

use crate::declared::{has_misfit, inputs, outputs};
use sx_lang::sizes::{cells, cost, nodes};
use sx_lang::tree::{Expr, Handler, Module, Stmt};

const CUT: u64 = 65_536;

fn height_of(e: &Expr) -> u64
    ensures { result ≡ min (height (expression_of e.now)) CUT }
{
    match e {
        Expr::Number(_) | Expr::Read(_) => 1,
        Expr::At(_, inner) | Expr::Unary(_, inner) => (1 + height_of(inner)).min(CUT),
        Expr::Binary(_, left, right) => (1 + height_of(left).max(height_of(right))).min(CUT),
    }
}

#[cycle(height)]
fn height_in_statement(s: &Stmt) -> u64
    ensures { result ≡ min (statement_height (statement_of s.now)) CUT }
{
    match s {
        Stmt::Let(_, e) | Stmt::Assign(_, e) | Stmt::Send(_, e) | Stmt::Emit(e) => height_of(e),
        Stmt::Element(_, index, e) => height_of(index).max(height_of(e)),
        Stmt::If(e, then, otherwise) => {
            let inner = height_in_block(then).max(height_in_block(otherwise));
            height_of(e).max(inner)
        }
        Stmt::Repeat(_, body) => height_in_block(body),
    }
}

#[cycle(height)]
fn height_in_block(block: &Vec<Stmt>) -> u64
    ensures { result ≡ min (block_height (block_of block.now.items)) CUT }
{
    let mut highest = 0;
    for s in block {
        highest = height_in_statement(s).max(highest);
    }
    highest
}

#[cycle(depth)]
fn depth_in_statement(s: &Stmt) -> u64
    ensures { result ≡ min (statement_depth (statement_of s.now)) CUT }
{
    match s {
        Stmt::If(_, then, otherwise) => {
            let deeper = depth_in_block(then).max(depth_in_block(otherwise));
            (1 + deeper).min(CUT)
        }
        Stmt::Repeat(_, body) => (1 + depth_in_block(body)).min(CUT),
        Stmt::Let(_, _) | Stmt::Assign(_, _) | Stmt::Element(_, _, _) => 0,
        Stmt::Send(_, _) | Stmt::Emit(_) => 0,
    }
}

#[cycle(depth)]
fn depth_in_block(block: &Vec<Stmt>) -> u64
    ensures { result ≡ min (inner_depth (block_of block.now.items)) CUT }
{
    let mut deepest = 0;
    for s in block {
        deepest = depth_in_statement(s).max(deepest);
    }
    deepest
}

/// Whether an expression is higher than 32, or a block is in more than 15 others.
#[tactic(auto, unfolding(crate::specs::Rules::breaks))]
pub fn breaks_depth(m: &Module) -> bool
    ensures { result ≡ breaks (module_of m.now) Depth }
{
    for h in &m.handlers {
        if height_in_block(&h.body) > 32 || depth_in_block(&h.body) > 15 {
            return true;
        }
    }
    false
}

#[cycle(lets)]
fn lets_in_statement(s: &Stmt) -> u64
    ensures { result ≡ min (length (statement_lets (statement_of s.now))) CUT }
{
    match s {
        Stmt::Let(_, _) => 1,
        Stmt::If(_, then, otherwise) => (lets_in_block(then) + lets_in_block(otherwise)).min(CUT),
        Stmt::Repeat(_, body) => lets_in_block(body),
        Stmt::Assign(_, _) | Stmt::Element(_, _, _) | Stmt::Send(_, _) | Stmt::Emit(_) => 0,
    }
}

#[cycle(lets)]
fn lets_in_block(block: &Vec<Stmt>) -> u64
    ensures { result ≡ min (length (block_lets (block_of block.now.items))) CUT }
{
    let mut total = 0;
    for s in block {
        total = (total + lets_in_statement(s)).min(CUT);
    }
    total
}

/// How many locals the handler defines, cut at 65,536.
pub fn lets_in_handler(h: &Handler) -> usize
    ensures { result ≡ min (length (block_lets (handler_of h.now).body)) CUT }
{
    lets_in_block(&h.body) as usize
}

/// Whether a handler has more than 16 locals, its parameter among them.
#[tactic(auto, unfolding(crate::specs::Rules::breaks))]
pub fn breaks_locals(m: &Module) -> bool
    ensures { result ≡ breaks (module_of m.now) Locals }
{
    for h in &m.handlers {
        if 1 + lets_in_block(&h.body) > 16 {
            return true;
        }
    }
    false
}

fn is_no_count(n: u16) -> bool
    ensures { result ≡ is_miscounted n }
{
    n < 1 || n > 256
}

#[cycle(counts)]
fn miscounts_in_statement(s: &Stmt) -> bool
    ensures { result ≡ list_any is_miscounted (statement_counts (statement_of s.now)) }
{
    match s {
        Stmt::If(_, then, otherwise) => {
            miscounts_in_block(then) || miscounts_in_block(otherwise)
        }
        Stmt::Repeat(n, body) => is_no_count(*n) || miscounts_in_block(body),
        Stmt::Let(_, _) | Stmt::Assign(_, _) | Stmt::Element(_, _, _) => false,
        Stmt::Send(_, _) | Stmt::Emit(_) => false,
    }
}

#[cycle(counts)]
fn miscounts_in_block(block: &Vec<Stmt>) -> bool
    ensures { result ≡ list_any is_miscounted (block_counts (block_of block.now.items)) }
{
    for s in block {
        if miscounts_in_statement(s) {
            return true;
        }
    }
    false
}

/// Whether a count of a `repeat` isn't 1 to 256.
#[tactic(auto, unfolding(crate::specs::Rules::breaks))]
pub fn breaks_repeat(m: &Module) -> bool
    ensures { result ≡ breaks (module_of m.now) Repeat }
{
    for h in &m.handlers {
        if miscounts_in_block(&h.body) {
            return true;
        }
    }
    false
}

fn sends_of_turns(turns: u16, sends: u64) -> u64
    requires { sends ≤ CUT }
    ensures { result ≡ min (turns * sends) CUT }
{
    (u64::from(turns) * sends).min(CUT)
}

#[cycle(sends)]
fn sends_in_statement(s: &Stmt) -> u64
    ensures { result ≡ min (statement_sends_by (λ x. 1) (statement_of s.now)) CUT }
{
    match s {
        Stmt::If(_, then, otherwise) => sends_in_block(then).max(sends_in_block(otherwise)),
        Stmt::Repeat(n, body) => sends_of_turns(*n, sends_in_block(body)),
        Stmt::Send(_, _) => 1,
        Stmt::Let(_, _) | Stmt::Assign(_, _) | Stmt::Element(_, _, _) | Stmt::Emit(_) => 0,
    }
}

#[cycle(sends)]
fn sends_in_block(block: &Vec<Stmt>) -> u64
    ensures { result ≡ min (block_sends (block_of block.now.items)) CUT }
{
    let mut total = 0;
    for s in block {
        total = (total + sends_in_statement(s)).min(CUT);
    }
    total
}

/// Whether a handler can send more than 16 times.
#[tactic(auto, unfolding(crate::specs::Rules::breaks))]
pub fn breaks_packets(m: &Module) -> bool
    ensures { result ≡ breaks (module_of m.now) Packets }
{
    for h in &m.handlers {
        if sends_in_block(&h.body) > 16 {
            return true;
        }
    }
    false
}

#[cycle(emits)]
fn emits_in_statement(s: &Stmt) -> bool
    ensures { result ≡ statement_emits (statement_of s.now) }
{
    match s {
        Stmt::If(_, then, otherwise) => emits_in_block(then) || emits_in_block(otherwise),
        Stmt::Repeat(_, body) => emits_in_block(body),
        Stmt::Emit(_) => true,
        Stmt::Let(_, _) | Stmt::Assign(_, _) | Stmt::Element(_, _, _) | Stmt::Send(_, _) => false,
    }
}

#[cycle(emits)]
fn emits_in_block(block: &Vec<Stmt>) -> bool
    ensures { result ≡ block_emits (block_of block.now.items) }
{
    for s in block {
        if emits_in_statement(s) {
            return true;
        }
    }
    false
}

/// Whether an `emit` is in a handler.
pub fn has_emit(handlers: &[Handler]) -> bool
    ensures { result ≡ list_any (λ h. block_emits h.body) (map handler_of handlers.now) }
{
    for h in handlers {
        if emits_in_block(&h.body) {
            return true;
        }
    }
    false
}

/// Whether the cost is above 262,144.
#[tactic(auto, unfolding(crate::specs::Rules::breaks))]
pub fn breaks_cost(m: &Module) -> bool
    ensures { result ≡ breaks (module_of m.now) Cost }
{
    cost(m) > 262_144
}

/// Whether there are more than 512 nodes, or more than 255 inputs or outputs.
#[tactic(auto, unfolding(crate::specs::Rules::breaks))]
pub fn breaks_nodes(m: &Module) -> bool
    ensures { result ≡ breaks (module_of m.now) Nodes }
{
    nodes(m) > 512 || inputs(&m.decls) > 255 || outputs(&m.decls) > 255
}

/// Whether an array's length isn't 1 to 1,024, or there are more than 1,024 cells.
#[tactic(auto, unfolding(crate::specs::Rules::breaks))]
pub fn breaks_cells(m: &Module) -> bool
    ensures { result ≡ breaks (module_of m.now) Cells }
{
    has_misfit(&m.decls) || cells(m) > 1024
}
