//! The rule on names that are taken twice.

ghost use Rattle.std.specs.Prelude.{◌≡◌, ◌+◌, ◌++◌, count_by, map, min, IfOk, OnOk};
ghost use Rattle.std.specs.List.{list_any};
ghost use Rattle.sx_lang.specs.View.{block_of, handler_of, module_of, statement_of};
ghost use Rattle.sx_check.specs.Listed.{inputs_of};
ghost use Rattle.sx_check.specs.Names.{block_lets, has_taken, is_declared, is_handled_twice};
ghost use Rattle.sx_check.specs.Names.{is_taken, locals, same, same_input, statement_lets};
ghost use Rattle.sx_check.specs.Rules.{breaks};
ghost use Rattle.sx_check.specs.declared.rules.Rule.TheVariants.{Duplicate};

use crate::bounds::lets_in_handler;
use crate::indexed::{Declared, FEW};
use crate::repeated::{has_repeated, is_in_twice};
use std::alloc::{AllocError, Global};
use sx_lang::names::Name;
use sx_lang::tree::{Handler, Module, Stmt};

/// Where counts of names are cut.
const CUT: usize = 65_536;

#[cycle(count)]
fn lets_in_statement(s: &Stmt, x: &Name) -> usize
    ensures { result ≡ min (count_by (same x.now) (statement_lets (statement_of s.now))) CUT }
{
    match s {
        Stmt::Let(y, _) => usize::from(x == y),
        Stmt::If(_, then, otherwise) => {
            (lets_in_block(then, x) + lets_in_block(otherwise, x)).min(CUT)
        }
        Stmt::Repeat(_, body) => lets_in_block(body, x),
        Stmt::Assign(_, _) | Stmt::Element(_, _, _) | Stmt::Send(_, _) | Stmt::Emit(_) => 0,
    }
}

#[cycle(count)]
fn lets_in_block(block: &Vec<Stmt>, x: &Name) -> usize
    ensures { result ≡ min (count_by (same x.now) (block_lets (block_of block.now.items))) CUT }
{
    let mut times = 0;
    for s in block {
        times = (times + lets_in_statement(s, x)).min(CUT);
    }
    times
}

#[tactic(auto, unfolding(crate::specs::Names::is_taken))]
fn is_name_taken(decls: &Declared<'_>, h: &Handler, x: &Name) -> bool
    ensures { result ≡ is_taken decls.now (handler_of h.now) x.now }
{
    decls.has_name(x) || usize::from(*x == h.param) + lets_in_block(&h.body, x) > 1
}

#[cycle(taken)]
fn taken_in_statement(decls: &Declared<'_>, h: &Handler, s: &Stmt) -> bool
    ensures { result ≡ list_any (is_taken decls.now (handler_of h.now))
        (statement_lets (statement_of s.now)) }
{
    match s {
        Stmt::Let(x, _) => is_name_taken(decls, h, x),
        Stmt::If(_, then, otherwise) => {
            taken_in_block(decls, h, then) || taken_in_block(decls, h, otherwise)
        }
        Stmt::Repeat(_, body) => taken_in_block(decls, h, body),
        Stmt::Assign(_, _) | Stmt::Element(_, _, _) | Stmt::Send(_, _) | Stmt::Emit(_) => false,
    }
}

#[cycle(taken)]
fn taken_in_block(decls: &Declared<'_>, h: &Handler, block: &Vec<Stmt>) -> bool
    ensures { result ≡ list_any (is_taken decls.now (handler_of h.now))
        (block_lets (block_of block.now.items)) }
{
    for s in block {
        if taken_in_statement(decls, h, s) {
            return true;
        }
    }
    false
}

#[tactic(auto, unfolding(crate::specs::Names::has_taken))]
fn lists_taken(decls: &Declared<'_>, h: &Handler) -> bool
    ensures { result ≡ has_taken decls.now (handler_of h.now) }
{
    is_name_taken(decls, h, &h.param) || taken_in_block(decls, h, &h.body)
}

#[cycle(add)]
fn add_lets_of_statement(names: &mut Vec<Name>, s: &Stmt) -> Result<(), AllocError>
    ensures { OnOk result
        (names.new.items ≡ names.old.items ++ statement_lets (statement_of s.now)) }
{
    match s {
        Stmt::Let(x, _) => match names.push(*x) {
            Ok(()) => Ok(()),
            Err(_) => Err(AllocError),
        },
        Stmt::If(_, then, otherwise) => {
            add_lets(names, then)?;
            add_lets(names, otherwise)?;
            Ok(())
        }
        Stmt::Repeat(_, body) => {
            add_lets(names, body)?;
            Ok(())
        }
        Stmt::Assign(_, _) | Stmt::Element(_, _, _) | Stmt::Send(_, _) | Stmt::Emit(_) => Ok(()),
    }
}

#[cycle(add)]
fn add_lets(names: &mut Vec<Name>, block: &Vec<Stmt>) -> Result<(), AllocError>
    ensures { OnOk result
        (names.new.items ≡ names.old.items ++ block_lets (block_of block.now.items)) }
{
    for s in block {
        add_lets_of_statement(names, s)?;
    }
    Ok(())
}

/// The handler's locals. The error says that memory ran out.
fn locals_of(alloc: Global, h: &Handler) -> Result<Vec<Name>, AllocError>
    ensures { IfOk result (λ names. names.items ≡ locals (handler_of h.now)) }
{
    let mut names = Vec::new(alloc);
    if names.push(h.param).is_err() {
        return Err(AllocError);
    }
    add_lets(&mut names, &h.body)?;
    Ok(names)
}

fn are_declared(decls: &Declared<'_>, names: &[Name]) -> bool
    ensures { result ≡ list_any (is_declared decls.now) names.now }
{
    for x in names {
        if decls.has_name(x) {
            return true;
        }
    }
    false
}

/// Whether a local has a name that is taken. The error says that memory ran out.
fn finds_taken(alloc: Global, decls: &Declared<'_>, h: &Handler) -> Result<bool, AllocError>
    ensures { IfOk result (λ taken. taken ≡ has_taken decls.now (handler_of h.now)) }
{
    let names = locals_of(alloc, h)?;
    let twice = is_in_twice(alloc, &names)?;
    Ok(are_declared(decls, &names) || twice)
}

fn taken_in_handler(alloc: Global, decls: &Declared<'_>, h: &Handler) -> bool
    ensures { result ≡ has_taken decls.now (handler_of h.now) }
{
    if lets_in_handler(h) > FEW {
        if let Ok(taken) = finds_taken(alloc, decls, h) {
            return taken;
        }
    }
    lists_taken(decls, h)
}

fn taken_in_handlers(alloc: Global, decls: &Declared<'_>, handlers: &[Handler]) -> bool
    ensures { result ≡ list_any (has_taken decls.now) (map handler_of handlers.now) }
{
    for h in handlers {
        if taken_in_handler(alloc, decls, h) {
            return true;
        }
    }
    false
}

fn is_same_input(left: &Option<Name>, right: &Option<Name>) -> bool
    ensures { result ≡ same_input left.now right.now }
{
    match (left, right) {
        (None, None) => true,
        (Some(x), Some(y)) => x == y,
        _ => false,
    }
}

fn handlers_of(handlers: &[Handler], input: &Option<Name>) -> usize
    ensures { result ≡ count_by (λ g. same_input input.now g.input) (map handler_of handlers.now) }
{
    let mut times = 0;
    for h in handlers {
        if is_same_input(input, &h.input) {
            times += 1;
        }
    }
    times
}

#[tactic(auto, unfolding(crate::specs::Names::is_handled_twice))]
fn is_another(handlers: &[Handler], h: &Handler) -> bool
    ensures { result ≡ is_handled_twice (map handler_of handlers.now) (handler_of h.now) }
{
    handlers_of(handlers, &h.input) > 1
}

fn lists_handled_twice(handlers: &[Handler]) -> bool
    ensures { result ≡ list_any (is_handled_twice (map handler_of handlers.now))
        (map handler_of handlers.now) }
{
    for h in handlers {
        if is_another(handlers, h) {
            return true;
        }
    }
    false
}

/// The names of the inputs that are handled. The error says that memory ran out.
fn inputs_of(alloc: Global, handlers: &[Handler]) -> Result<Vec<Name>, AllocError>
    ensures { IfOk result (λ names. names.items ≡ inputs_of (map handler_of handlers.now)) }
{
    let mut names = Vec::new(alloc);
    for h in handlers {
        if let Some(x) = h.input {
            if names.push(x).is_err() {
                return Err(AllocError);
            }
        }
    }
    Ok(names)
}

/// Whether two handlers are of one event. The error says that memory ran out.
fn finds_handled_twice(alloc: Global, handlers: &[Handler]) -> Result<bool, AllocError>
    ensures { IfOk result (λ twice. twice ≡ list_any (is_handled_twice (map handler_of handlers.now))
        (map handler_of handlers.now)) }
{
    let names = inputs_of(alloc, handlers)?;
    let twice = is_in_twice(alloc, &names)?;
    Ok(handlers_of(handlers, &None) > 1 || twice)
}

fn has_handled_twice(alloc: Global, handlers: &[Handler]) -> bool
    ensures { result ≡ list_any (is_handled_twice (map handler_of handlers.now))
        (map handler_of handlers.now) }
{
    if handlers.len() > FEW {
        if let Ok(twice) = finds_handled_twice(alloc, handlers) {
            return twice;
        }
    }
    lists_handled_twice(handlers)
}

/// Whether a name, a device or an event's handler is there twice.
#[tactic(auto, unfolding(crate::specs::Rules::breaks))]
pub fn breaks_duplicate(m: &Module, decls: &Declared<'_>) -> bool
    requires { decls.now ≡ m.now.decls.items }
    ensures { result ≡ breaks (module_of m.now) Duplicate }
{
    let alloc = *m.decls.allocator();
    has_repeated(alloc, &m.decls)
        || taken_in_handlers(alloc, decls, &m.handlers)
        || has_handled_twice(alloc, &m.handlers)
}
