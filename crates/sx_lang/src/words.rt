//! The numbers of a tree in memory are words. Each function goes over a tree and does nothing: its
//! contract is what the tree's type says.

ghost use Rattle.std.specs.Prelude.{map};
ghost use Rattle.sx_lang.specs.View.{block_of, expression_of, handler_of, module_of, statement_of};
ghost use Rattle.sx_lang.specs.Words.{AreWords, BlockHasWords, DeclHasWords, DeclsHaveWords};
ghost use Rattle.sx_lang.specs.Words.{HandlersHaveWords, HasWords, TreeHasWords};

use crate::tree::{Decl, Expr, Handler, Module, Stmt};

fn of_expression(e: &Expr)
    ensures { AreWords (expression_of e.now) }
{
    match e {
        Expr::Number(n) => {
            let _word = *n;
        }
        Expr::Read(_) => {}
        Expr::At(_, index) => of_expression(index),
        Expr::Unary(_, operand) => of_expression(operand),
        Expr::Binary(_, left, right) => {
            of_expression(left);
            of_expression(right);
        }
    }
}

#[cycle(words)]
fn of_statement(s: &Stmt)
    ensures { HasWords (statement_of s.now) }
{
    match s {
        Stmt::Let(_, e) | Stmt::Assign(_, e) | Stmt::Send(_, e) | Stmt::Emit(e) => {
            of_expression(e);
        }
        Stmt::Element(_, index, e) => {
            of_expression(index);
            of_expression(e);
        }
        Stmt::If(e, then, otherwise) => {
            of_expression(e);
            of_block(then);
            of_block(otherwise);
        }
        Stmt::Repeat(n, body) => {
            let _word = *n;
            of_block(body);
        }
    }
}

#[cycle(words)]
fn of_block(block: &Vec<Stmt>)
    ensures { BlockHasWords (block_of block.now.items) }
{
    for s in block {
        of_statement(s);
    }
}

fn of_decls(decls: &[Decl])
    ensures { DeclsHaveWords decls.now }
{
    for d in decls {
        of_decl(d);
    }
}

fn of_decl(d: &Decl)
    ensures { DeclHasWords d.now }
{
    match d {
        Decl::Device(_) | Decl::Input(_) | Decl::Output(_) => {}
        Decl::Var(_, n) | Decl::Array(_, n) => {
            let _word = *n;
        }
    }
}

fn of_handlers(handlers: &[Handler])
    ensures { HandlersHaveWords (map handler_of handlers.now) }
{
    for h in handlers {
        of_block(&h.body);
    }
}

/// The numbers of a module in memory are words.
pub fn words(m: &Module)
    ensures { TreeHasWords (module_of m.now) }
{
    of_decls(&m.decls);
    of_handlers(&m.handlers);
}
