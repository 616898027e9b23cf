//! A module's text, written part by part.

ghost use Rattle.std.specs.Prelude.{◌≡◌, ℕ, IfOk, OnOk, map, string_bytes, true};
ghost use Rattle.std.specs.Str.{IsUtf8};
ghost use Rattle.sx_lang.specs.Tree.{Sends, Stores};
ghost use Rattle.sx_lang.specs.View.{block_of, expression_of, handler_of, module_of, statement_of};
ghost use Rattle.spec_grammar.specs.Text.{Spells};
ghost use Rattle.sx_print.specs.Printable.{is_printable};
ghost use Rattle.sx_print.specs.Pieces.{block_pieces, declarations_pieces, declared_pieces};
ghost use Rattle.sx_print.specs.Pieces.{device_word, else_pieces, event_pieces, expression_pieces};
ghost use Rattle.sx_print.specs.Pieces.{handler_pieces, handlers_pieces, module_pieces};
ghost use Rattle.sx_print.specs.Pieces.{statement_pieces, statements_pieces, text_of};
ghost use Rattle.sx_print.specs.Pieces.{value_pieces};
ghost use Rattle.sx_print.specs.Written.{Wrote};

use crate::words::{Gap, binary_sign, deeper, put, put_margin, put_name, put_number, unary_sign};
use std::alloc::{AllocError as OutOfMemory, Global};
use sx_lang::names::Name;
use sx_lang::tree::{Decl, DeviceKind, Expr, Handler, Module, Stmt};
use sx_lex::tokens::Kind;

fn put_expression(out: &mut Vec<u8>, e: &Expr, gap: Gap) -> Result<(), OutOfMemory>
    ensures { OnOk result (Wrote out.old.items (expression_pieces gap (expression_of e.now))
        out.new.items) }
{
    match e {
        Expr::Number(n) => put_number(out, *n, gap),
        Expr::Read(x) => put_name(out, x, gap),
        Expr::At(x, index) => {
            put_name(out, x, Gap::Nothing)?;
            put(out, Kind::OpenSquare, Gap::Nothing)?;
            put_expression(out, index, Gap::Nothing)?;
            put(out, Kind::CloseSquare, gap)
        }
        Expr::Unary(op, operand) => {
            put(out, unary_sign(*op), Gap::Nothing)?;
            put_expression(out, operand, gap)
        }
        Expr::Binary(op, left, right) => {
            put(out, Kind::Open, Gap::Nothing)?;
            put_expression(out, left, Gap::Space)?;
            put(out, binary_sign(*op), Gap::Space)?;
            put_expression(out, right, Gap::Nothing)?;
            put(out, Kind::Close, gap)
        }
    }
}

/// Writes the value of a definition or an assignment.
fn put_value(out: &mut Vec<u8>, e: &Expr) -> Result<(), OutOfMemory>
    ensures { OnOk result (Wrote out.old.items (value_pieces (expression_of e.now)) out.new.items) }
{
    put(out, Kind::Equals, Gap::Space)?;
    put_expression(out, e, Gap::Nothing)?;
    put(out, Kind::Semicolon, Gap::Line)
}

/// Writes an assignment to an element, which is the same in a line of each depth.
fn put_element(out: &mut Vec<u8>, x: &Name, index: &Expr, e: &Expr) -> Result<(), OutOfMemory>
    ensures { (depth : ℕ) → OnOk result (Wrote out.old.items
        (statement_pieces depth (Stores x.now (expression_of index.now) (expression_of e.now)))
        out.new.items) }
{
    put_name(out, x, Gap::Nothing)?;
    put(out, Kind::OpenSquare, Gap::Nothing)?;
    put_expression(out, index, Gap::Nothing)?;
    put(out, Kind::CloseSquare, Gap::Space)?;
    put_value(out, e)
}

/// Writes a `send`, which is the same in a line of each depth.
fn put_send(out: &mut Vec<u8>, x: &Name, e: &Expr) -> Result<(), OutOfMemory>
    ensures { (depth : ℕ) → OnOk result (Wrote out.old.items
        (statement_pieces depth (Sends x.now (expression_of e.now))) out.new.items) }
{
    put(out, Kind::Send, Gap::Space)?;
    put_name(out, x, Gap::Nothing)?;
    put(out, Kind::Open, Gap::Nothing)?;
    put_expression(out, e, Gap::Nothing)?;
    put(out, Kind::Close, Gap::Nothing)?;
    put(out, Kind::Semicolon, Gap::Line)
}

#[cycle(blocks)]
fn put_statement(out: &mut Vec<u8>, s: &Stmt, depth: u8) -> Result<(), OutOfMemory>
    ensures { OnOk result (Wrote out.old.items (statement_pieces depth (statement_of s.now))
        out.new.items) }
{
    match s {
        Stmt::Let(x, e) => {
            put(out, Kind::Let, Gap::Space)?;
            put_name(out, x, Gap::Space)?;
            put_value(out, e)
        }
        Stmt::Assign(x, e) => {
            put_name(out, x, Gap::Space)?;
            put_value(out, e)
        }
        Stmt::Element(x, index, e) => put_element(out, x, index, e),
        Stmt::If(e, then, otherwise) => {
            put(out, Kind::If, Gap::Space)?;
            put_expression(out, e, Gap::Space)?;
            put_block(out, then, depth)?;
            put_else(out, otherwise, depth)
        }
        Stmt::Repeat(n, body) => {
            put(out, Kind::Repeat, Gap::Space)?;
            put_number(out, *n, Gap::Space)?;
            put_block(out, body, depth)?;
            put(out, Kind::CloseBrace, Gap::Line)
        }
        Stmt::Send(x, e) => put_send(out, x, e),
        Stmt::Emit(e) => {
            put(out, Kind::Emit, Gap::Space)?;
            put_expression(out, e, Gap::Nothing)?;
            put(out, Kind::Semicolon, Gap::Line)
        }
    }
}

/// Writes a block in a line of this depth, up to the margin of the brace that ends it.
#[cycle(blocks)]
fn put_block(out: &mut Vec<u8>, block: &Vec<Stmt>, depth: u8) -> Result<(), OutOfMemory>
    ensures { OnOk result (Wrote out.old.items (block_pieces depth (block_of block.now.items))
        out.new.items) }
{
    put(out, Kind::OpenBrace, Gap::Line)?;
    put_statements(out, block, deeper(depth))?;
    put_margin(out, depth)
}

#[cycle(blocks)]
fn put_statements(out: &mut Vec<u8>, block: &Vec<Stmt>, depth: u8) -> Result<(), OutOfMemory>
    ensures { OnOk result (Wrote out.old.items (statements_pieces depth (block_of block.now.items))
        out.new.items) }
{
    for s in block {
        put_margin(out, depth)?;
        put_statement(out, s, depth)?;
    }
    Ok(())
}

/// Writes the brace that ends an `if`'s first block, and the second block unless it is empty.
#[cycle(blocks)]
fn put_else(out: &mut Vec<u8>, otherwise: &Vec<Stmt>, depth: u8) -> Result<(), OutOfMemory>
    ensures { OnOk result (Wrote out.old.items (else_pieces depth (block_of otherwise.now.items))
        out.new.items) }
{
    if otherwise.is_empty() {
        return put(out, Kind::CloseBrace, Gap::Line);
    }
    put(out, Kind::CloseBrace, Gap::Space)?;
    put(out, Kind::Else, Gap::Space)?;
    put_block(out, otherwise, depth)?;
    put(out, Kind::CloseBrace, Gap::Line)
}

fn device_word(kind: DeviceKind) -> Kind
    ensures { result ≡ device_word kind }
{
    match kind {
        DeviceKind::Sensor => Kind::Sensor,
        DeviceKind::Actuator => Kind::Actuator,
    }
}

/// Writes a declaration without its semicolon.
fn put_declared(out: &mut Vec<u8>, d: &Decl) -> Result<(), OutOfMemory>
    ensures { OnOk result (Wrote out.old.items (declared_pieces d.now) out.new.items) }
{
    match d {
        Decl::Device(kind) => put(out, device_word(*kind), Gap::Nothing),
        Decl::Input(x) => {
            put(out, Kind::Input, Gap::Space)?;
            put_name(out, x, Gap::Nothing)
        }
        Decl::Output(x) => {
            put(out, Kind::Output, Gap::Space)?;
            put_name(out, x, Gap::Nothing)
        }
        Decl::Var(x, n) => {
            put(out, Kind::Var, Gap::Space)?;
            put_name(out, x, Gap::Space)?;
            put(out, Kind::Equals, Gap::Space)?;
            put_number(out, *n, Gap::Nothing)
        }
        Decl::Array(x, n) => {
            put(out, Kind::Array, Gap::Space)?;
            put_name(out, x, Gap::Nothing)?;
            put(out, Kind::OpenSquare, Gap::Nothing)?;
            put_number(out, *n, Gap::Nothing)?;
            put(out, Kind::CloseSquare, Gap::Nothing)
        }
    }
}

/// Writes the declarations, one a line.
fn put_declarations(out: &mut Vec<u8>, decls: &[Decl]) -> Result<(), OutOfMemory>
    ensures { OnOk result (Wrote out.old.items (declarations_pieces decls.now) out.new.items) }
{
    for d in decls {
        put_declared(out, d)?;
        put(out, Kind::Semicolon, Gap::Line)?;
    }
    Ok(())
}

/// Writes the event of a handler.
fn put_event(out: &mut Vec<u8>, input: &Option<Name>) -> Result<(), OutOfMemory>
    ensures { OnOk result (Wrote out.old.items (event_pieces input.now) out.new.items) }
{
    match input {
        None => put(out, Kind::Sample, Gap::Nothing),
        Some(x) => {
            put(out, Kind::On, Gap::Space)?;
            put_name(out, x, Gap::Nothing)
        }
    }
}

fn put_handler(out: &mut Vec<u8>, h: &Handler) -> Result<(), OutOfMemory>
    ensures { OnOk result (Wrote out.old.items (handler_pieces (handler_of h.now)) out.new.items) }
{
    put_event(out, &h.input)?;
    put(out, Kind::Open, Gap::Nothing)?;
    put_name(out, &h.param, Gap::Nothing)?;
    put(out, Kind::Close, Gap::Space)?;
    put_block(out, &h.body, 0)?;
    put(out, Kind::CloseBrace, Gap::Line)
}

fn put_handlers(out: &mut Vec<u8>, handlers: &[Handler]) -> Result<(), OutOfMemory>
    ensures { OnOk result (Wrote out.old.items (handlers_pieces (map handler_of handlers.now))
        out.new.items) }
{
    for h in handlers {
        put_handler(out, h)?;
    }
    Ok(())
}

/// Text that is known to be UTF-8.
fn text(bytes: Vec<u8>) -> String
    requires { IsUtf8 bytes.items }
    ensures { string_bytes result ≡ bytes.items }
{
    String::from_utf8(bytes).unwrap()
}

/// A text that reads back as this module: a declaration or a statement a line, indented by four
/// spaces for each block that it is in, each binary expression in a pair of brackets and no
/// other in any.
///
/// The condition is `conditions::printable`. The error says that memory ran out. It is for programs
/// that make modules; no command prints one.
pub fn print(alloc: Global, m: &Module) -> Result<String, OutOfMemory>
    requires { is_printable (module_of m.now) ≡ true }
    ensures text { IfOk result (λ t. string_bytes t ≡ text_of (module_pieces (module_of m.now))) }
    ensures spells { IfOk result (λ t. Spells (string_bytes t) (module_of m.now)) }
{
    let mut out = Vec::new(alloc);
    put_declarations(&mut out, &m.decls)?;
    put_handlers(&mut out, &m.handlers)?;
    Ok(text(out))
}
