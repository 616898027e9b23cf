//! Which modules can be printed.

ghost use Rattle.std.specs.Prelude.{◌≡◌, ◌&&◌, map, nat_le};
ghost use Rattle.sx_lang.specs.View.{block_of, expression_of, handler_of, module_of, statement_of};
ghost use Rattle.sx_print.specs.Printable.{block_open, block_plain};
ghost use Rattle.sx_print.specs.Printable.{declarations_plain, expression_open, expression_plain};
ghost use Rattle.sx_print.specs.Printable.{handler_plain, handlers_open, handlers_plain};
ghost use Rattle.sx_print.specs.Printable.{input_plain, is_plain, is_printable};
ghost use Rattle.sx_print.specs.Printable.{statement_open, statement_plain};

use sx_lang::names::{Name, has_form};
use sx_lang::tree::{Decl, Expr, Handler, Module, Stmt};
use sx_lex::quoted::keyword;

/// How many brackets and unary operators may be open at a time.
const MOST_OPEN: u8 = 48;

/// Whether the name has the form of one, and is none of the language's own words.
fn is_plain(x: &Name) -> bool
    ensures { result ≡ is_plain x.now }
{
    let word = x.bytes();
    has_form(word) && keyword(word).is_none()
}

fn names_in_expression(e: &Expr) -> bool
    ensures { result ≡ expression_plain (expression_of e.now) }
{
    match e {
        Expr::Number(_) => true,
        Expr::Read(x) => is_plain(x),
        Expr::At(x, index) => is_plain(x) && names_in_expression(index),
        Expr::Unary(_, operand) => names_in_expression(operand),
        Expr::Binary(_, left, right) => names_in_expression(left) && names_in_expression(right),
    }
}

#[cycle(names)]
fn names_in_statement(s: &Stmt) -> bool
    ensures { result ≡ statement_plain (statement_of s.now) }
{
    match s {
        Stmt::Let(x, e) | Stmt::Assign(x, e) | Stmt::Send(x, e) => {
            is_plain(x) && names_in_expression(e)
        }
        Stmt::Element(x, index, e) => {
            is_plain(x) && names_in_expression(index) && names_in_expression(e)
        }
        Stmt::If(e, then, otherwise) => {
            names_in_expression(e) && names_in_block(then) && names_in_block(otherwise)
        }
        Stmt::Repeat(_, body) => names_in_block(body),
        Stmt::Emit(e) => names_in_expression(e),
    }
}

#[cycle(names)]
fn names_in_block(block: &Vec<Stmt>) -> bool
    ensures { result ≡ block_plain (block_of block.now.items) }
{
    for s in block {
        if !names_in_statement(s) {
            return false;
        }
    }
    true
}

fn names_in_declarations(decls: &[Decl]) -> bool
    ensures { result ≡ declarations_plain decls.now }
{
    for d in decls {
        let plain = match d {
            Decl::Device(_) => true,
            Decl::Input(x) | Decl::Output(x) | Decl::Var(x, _) | Decl::Array(x, _) => is_plain(x),
        };
        if !plain {
            return false;
        }
    }
    true
}

fn is_plain_input(input: &Option<Name>) -> bool
    ensures { result ≡ input_plain input.now }
{
    match input {
        None => true,
        Some(x) => is_plain(x),
    }
}

fn names_in_handler(h: &Handler) -> bool
    ensures { result ≡ handler_plain (handler_of h.now) }
{
    is_plain_input(&h.input) && is_plain(&h.param) && names_in_block(&h.body)
}

fn names_in_handlers(handlers: &[Handler]) -> bool
    ensures { result ≡ handlers_plain (map handler_of handlers.now) }
{
    for h in handlers {
        if !names_in_handler(h) {
            return false;
        }
    }
    true
}

/// Whether at most `room` brackets and unary operators are open at a time. It looks no deeper than
/// that.
fn opens_in_expression(e: &Expr, room: u8) -> bool
    ensures { result ≡ nat_le (expression_open (expression_of e.now)) room }
{
    match e {
        Expr::Number(_) | Expr::Read(_) => true,
        Expr::At(_, inner) | Expr::Unary(_, inner) => {
            room > 0 && opens_in_expression(inner, room - 1)
        }
        Expr::Binary(_, left, right) => {
            room > 0 && opens_in_expression(left, room - 1) && opens_in_expression(right, room - 1)
        }
    }
}

#[cycle(opens)]
fn opens_in_statement(s: &Stmt, room: u8) -> bool
    ensures { result ≡ nat_le (statement_open (statement_of s.now)) room }
{
    match s {
        Stmt::Let(_, e) | Stmt::Assign(_, e) | Stmt::Emit(e) => opens_in_expression(e, room),
        Stmt::Element(_, index, e) => {
            room > 0 && opens_in_expression(index, room - 1) && opens_in_expression(e, room)
        }
        Stmt::If(e, then, otherwise) => {
            room > 0
                && opens_in_expression(e, room)
                && opens_in_block(then, room - 1)
                && opens_in_block(otherwise, room - 1)
        }
        Stmt::Repeat(_, body) => room > 0 && opens_in_block(body, room - 1),
        Stmt::Send(_, e) => room > 0 && opens_in_expression(e, room - 1),
    }
}

#[cycle(opens)]
fn opens_in_block(block: &Vec<Stmt>, room: u8) -> bool
    ensures { result ≡ nat_le (block_open (block_of block.now.items)) room }
{
    for s in block {
        if !opens_in_statement(s, room) {
            return false;
        }
    }
    true
}

fn opens_in_handlers(handlers: &[Handler]) -> bool
    ensures { result ≡ nat_le (handlers_open (map handler_of handlers.now)) MOST_OPEN }
{
    for h in handlers {
        if !opens_in_block(&h.body, MOST_OPEN - 1) {
            return false;
        }
    }
    true
}

/// Whether the module can be printed: each name is a lower-case letter and up to 15 lower-case
/// letters, digits or `_`, and no word of the language; and at most 48 of `(`, `[`, `{` and unary
/// operators are open at a time in the text. It looks no deeper into a tree than 49 of them. It is
/// for programs that make modules; no command prints one.
pub fn printable(m: &Module) -> bool
    ensures { result ≡ is_printable (module_of m.now) }
{
    opens_in_handlers(&m.handlers)
        && names_in_declarations(&m.decls)
        && names_in_handlers(&m.handlers)
}
