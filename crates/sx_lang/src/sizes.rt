//! The sizes of a module. Each is cut, so that it is a number for every tree.

ghost use Rattle.std.specs.Prelude.{◌≡◌, ◌+◌, ◌*◌, ◌≤◌, map, min};
ghost use Rattle.sx_lang.specs.Sizes.{block_cost, block_nodes, declared_cells};
ghost use Rattle.sx_lang.specs.Sizes.{declarations_nodes, expression_cost};
ghost use Rattle.sx_lang.specs.Sizes.{expression_nodes};
ghost use Rattle.sx_lang.specs.Sizes.{handlers_nodes, module_cost, module_data_size, module_nodes};
ghost use Rattle.sx_lang.specs.Sizes.{module_weight, operator_cost, statement_cost};
ghost use Rattle.sx_lang.specs.Sizes.{statement_nodes};
ghost use Rattle.sx_lang.specs.View.{block_of, expression_of, handler_of, module_of, statement_of};

use crate::tree::{BinOp, Decl, Expr, Handler, Module, Stmt};

/// Where `nodes`, `weight`, `data_size` and `cells` are cut.
pub const SIZE_CUT: u64 = 4_294_967_295;

/// Where `cost` is cut: one above the most that a module may cost.
pub const COST_CUT: u64 = 262_145;

fn cut(size: u64) -> u64
    ensures { result ≡ min size SIZE_CUT }
{
    size.min(SIZE_CUT)
}

fn nodes_of_expression(e: &Expr) -> u64
    ensures { result ≡ min (expression_nodes (expression_of e.now)) SIZE_CUT }
{
    match e {
        Expr::Number(_) | Expr::Read(_) => 1,
        Expr::At(_, inner) | Expr::Unary(_, inner) => cut(1 + nodes_of_expression(inner)),
        Expr::Binary(_, left, right) => {
            cut(1 + nodes_of_expression(left) + nodes_of_expression(right))
        }
    }
}

#[cycle(nodes)]
fn nodes_of_statement(s: &Stmt) -> u64
    ensures { result ≡ min (statement_nodes (statement_of s.now)) SIZE_CUT }
{
    match s {
        Stmt::Let(_, e) | Stmt::Assign(_, e) | Stmt::Send(_, e) | Stmt::Emit(e) => {
            cut(1 + nodes_of_expression(e))
        }
        Stmt::Element(_, i, e) => cut(1 + nodes_of_expression(i) + nodes_of_expression(e)),
        Stmt::If(e, then, otherwise) => {
            cut(1 + nodes_of_expression(e) + nodes_of_block(then) + nodes_of_block(otherwise))
        }
        Stmt::Repeat(_, body) => cut(1 + nodes_of_block(body)),
    }
}

#[cycle(nodes)]
fn nodes_of_block(block: &Vec<Stmt>) -> u64
    ensures { result ≡ min (block_nodes (block_of block.now.items)) SIZE_CUT }
{
    let mut total = 0;
    for s in block {
        total = cut(total + nodes_of_statement(s));
    }
    total
}

fn nodes_of_declarations(decls: &[Decl]) -> u64
    ensures { result ≡ min (declarations_nodes decls.now) SIZE_CUT }
{
    let mut total = 0;
    for d in decls {
        let own = match d {
            Decl::Device(_) | Decl::Input(_) | Decl::Output(_) => 0,
            Decl::Var(_, _) | Decl::Array(_, _) => 1,
        };
        total = cut(total + own);
    }
    total
}

fn nodes_of_handlers(handlers: &[Handler]) -> u64
    ensures { result ≡ min (handlers_nodes (map handler_of handlers.now)) SIZE_CUT }
{
    let mut total = 0;
    for h in handlers {
        total = cut(total + 1 + nodes_of_block(&h.body));
    }
    total
}

/// The number of variables, arrays, handlers, statements and expressions of the module, each
/// subexpression counted. It is cut at 4,294,967,295.
pub fn nodes(m: &Module) -> u64
    ensures { result ≡ min (module_nodes (module_of m.now)) SIZE_CUT }
{
    cut(nodes_of_declarations(&m.decls) + nodes_of_handlers(&m.handlers))
}

/// The number of words that the module keeps between events: one for each variable and one for each
/// element of an array. It is cut at 4,294,967,295.
pub fn cells(m: &Module) -> u64
    ensures { result ≡ min (declared_cells m.now.decls.items) SIZE_CUT }
{
    let mut total = 0;
    for d in &m.decls {
        let own = match d {
            Decl::Device(_) | Decl::Input(_) | Decl::Output(_) => 0,
            Decl::Var(_, _) => 1,
            Decl::Array(_, length) => u64::from(*length),
        };
        total = cut(total + own);
    }
    total
}

/// How many bytes the module's public section has, where it holds `ends` ends of connections: 2048
/// + 192 for each end + 64 for each node. It is cut at 4,294,967,295.
pub fn weight(m: &Module, ends: u8) -> u64
    ensures { result ≡ min (module_weight (module_of m.now) ends) SIZE_CUT }
{
    cut(2048 + 192 * u64::from(ends) + 64 * nodes(m))
}

/// How many bytes the module's private section has, where it holds `ends` ends of connections: 512
/// + 24 for each end + 2 for each cell. It is cut at 4,294,967,295.
pub fn data_size(m: &Module, ends: u8) -> u64
    ensures { result ≡ min (module_data_size (module_of m.now) ends) SIZE_CUT }
{
    cut(512 + 24 * u64::from(ends) + 2 * cells(m))
}

fn cut_cost(cost: u64) -> u64
    ensures { result ≡ min cost COST_CUT }
{
    cost.min(COST_CUT)
}

fn cost_of_operator(op: BinOp) -> u64
    ensures { result ≡ operator_cost op }
{
    match op {
        BinOp::Mul => 512,
        _ => 32,
    }
}

fn cost_of_expression(e: &Expr) -> u64
    ensures { result ≡ min (expression_cost (expression_of e.now)) COST_CUT }
{
    match e {
        Expr::Number(_) | Expr::Read(_) => 32,
        Expr::At(_, index) => cut_cost(64 + cost_of_expression(index)),
        Expr::Unary(_, operand) => cut_cost(32 + cost_of_expression(operand)),
        Expr::Binary(op, left, right) => {
            cut_cost(cost_of_operator(*op) + cost_of_expression(left) + cost_of_expression(right))
        }
    }
}

fn cost_of_turns(turns: u16, turn: u64) -> u64
    requires { turn ≤ 64 + COST_CUT }
    ensures { result ≡ min (64 + turns * turn) COST_CUT }
{
    cut_cost(64 + u64::from(turns) * turn)
}

#[cycle(cost)]
fn cost_of_statement(s: &Stmt) -> u64
    ensures { result ≡ min (statement_cost (statement_of s.now)) COST_CUT }
{
    match s {
        Stmt::Let(_, e) | Stmt::Assign(_, e) | Stmt::Emit(e) => {
            cut_cost(64 + cost_of_expression(e))
        }
        Stmt::Element(_, i, e) => cut_cost(96 + cost_of_expression(i) + cost_of_expression(e)),
        Stmt::If(e, then, otherwise) => {
            let greater = cost_of_block(then).max(cost_of_block(otherwise));
            cut_cost(64 + cost_of_expression(e) + greater)
        }
        Stmt::Repeat(turns, body) => cost_of_turns(*turns, 64 + cost_of_block(body)),
        Stmt::Send(_, e) => cut_cost(8192 + cost_of_expression(e)),
    }
}

#[cycle(cost)]
fn cost_of_block(block: &Vec<Stmt>) -> u64
    ensures { result ≡ min (block_cost (block_of block.now.items)) COST_CUT }
{
    let mut total = 0;
    for s in block {
        total = cut_cost(total + cost_of_statement(s));
    }
    total
}

/// A bound on the instructions that one event takes: the greatest of the handlers' costs, 0 where
/// there is no handler. It is cut at 262,145, one above what a module may cost.
pub fn cost(m: &Module) -> u64
    ensures { result ≡ min (module_cost (module_of m.now)) COST_CUT }
{
    let mut greatest = 0;
    for h in &m.handlers {
        greatest = cut_cost(64 + cost_of_block(&h.body)).max(greatest);
    }
    greatest
}
