//! The rules on how names are used.

ghost use Rattle.std.specs.Prelude.{◌≡◌, ◌&&◌, ◌||◌, false, map, not};
ghost use Rattle.std.specs.List.{list_any};
ghost use Rattle.sx_lang.specs.View.{block_of, expression_of, handler_of, module_of, statement_of};
ghost use Rattle.sx_check.specs.Bounds.{block_emits};
ghost use Rattle.sx_check.specs.Names.{is_actuator, is_declared, is_sample, is_sensor};
ghost use Rattle.sx_check.specs.Rules.{breaks};
ghost use Rattle.sx_check.specs.Scopes.{is_flawed, seen_in};
ghost use Rattle.sx_check.specs.Seen.{Knows};
ghost use Rattle.sx_check.specs.Uses.{block_uses, expression_uses, handler_uses, handlers_uses};
ghost use Rattle.sx_check.specs.Uses.{input_uses, is_local, is_misused, is_seen, is_unknown};
ghost use Rattle.sx_check.specs.Uses.{statement_uses, used};
ghost use Rattle.sx_check.specs.declared.rules.Rule.TheVariants.{Kind, Unknown};

use crate::bounds::has_emit;
use crate::declared::{Role, has_actuator, has_sensor};
use crate::indexed::Declared;
use crate::scopes::Scope;
use crate::seen::Seen;
use std::alloc::Global;
use sx_lang::names::Name;
use sx_lang::tree::{Expr, Handler, Module, Stmt};

/// What can be wrong with the use of a name.
#[derive(Clone, Copy)]
pub enum Flaw {
    /// Nothing in sight has the name.
    Unknown,
    /// What has the name is of another kind.
    Misused,
}

fn is_word(role: Role, x: &Name, scope: &Scope<'_>, seen: &Seen) -> bool
    requires { Knows seen.now (seen_in scope.now) }
    ensures { result ≡ is_local role x.now (seen_in scope.now) }
{
    match role {
        Role::Word => seen.sees(scope, x),
        _ => false,
    }
}

/// Whether anything in sight has the name.
fn is_known(decls: &Declared<'_>, x: &Name, scope: &Scope<'_>, seen: &Seen) -> bool
    requires { Knows seen.now (seen_in scope.now) }
    ensures { result ≡ (is_declared decls.now x.now || is_seen (seen_in scope.now) x.now) }
{
    decls.has_name(x) || seen.sees(scope, x)
}

/// Whether the name is known and used as another kind. Nearly every name is used as its own kind,
/// so the kind is tested first.
#[tactic(auto, using(crate::proofs::Misused::well, crate::proofs::Misused::badly))]
fn is_misused(decls: &Declared<'_>, role: Role, x: &Name, scope: &Scope<'_>, seen: &Seen) -> bool
    requires { Knows seen.now (seen_in scope.now) }
    ensures { result ≡ is_misused decls.now (used role x.now (seen_in scope.now)) }
{
    let is_own_kind = decls.has_role(role, x) || is_word(role, x, scope, seen);
    !is_own_kind && is_known(decls, x, scope, seen)
}

#[tactic(auto, unfolding(crate::specs::Scopes::is_flawed))]
fn has_flaw(
    flaw: Flaw,
    decls: &Declared<'_>,
    role: Role,
    x: &Name,
    scope: &Scope<'_>,
    seen: &Seen,
) -> bool
    requires { Knows seen.now (seen_in scope.now) }
    ensures { result ≡ is_flawed flaw decls.now (used role x.now (seen_in scope.now)) }
{
    match flaw {
        Flaw::Unknown => !is_known(decls, x, scope, seen),
        Flaw::Misused => is_misused(decls, role, x, scope, seen),
    }
}

fn in_expression(flaw: Flaw, decls: &Declared<'_>, e: &Expr, scope: &Scope<'_>, seen: &Seen) -> bool
    requires { Knows seen.now (seen_in scope.now) }
    ensures { result ≡ list_any (is_flawed flaw decls.now)
        (expression_uses (seen_in scope.now) (expression_of e.now)) }
{
    match e {
        Expr::Number(_) => false,
        Expr::Read(x) => has_flaw(flaw, decls, Role::Word, x, scope, seen),
        Expr::At(x, index) => {
            has_flaw(flaw, decls, Role::Element, x, scope, seen)
                || in_expression(flaw, decls, index, scope, seen)
        }
        Expr::Unary(_, operand) => in_expression(flaw, decls, operand, scope, seen),
        Expr::Binary(_, left, right) => {
            in_expression(flaw, decls, left, scope, seen)
                || in_expression(flaw, decls, right, scope, seen)
        }
    }
}

#[cycle(uses)]
fn in_statement<'a>(
    flaw: Flaw,
    decls: &Declared<'_>,
    s: &'a Stmt,
    scope: &'a Scope<'a>,
    seen: &mut Seen,
) -> bool
    requires { Knows seen.old (seen_in scope.now) }
    ensures flawed { result ≡ list_any (is_flawed flaw decls.now)
        (statement_uses (seen_in scope.now) (statement_of s.now)) }
    ensures known { result ≡ false → Knows seen.new (seen_in scope.now) }
{
    match s {
        Stmt::Let(_, e) | Stmt::Emit(e) => in_expression(flaw, decls, e, scope, seen),
        Stmt::Assign(x, e) => {
            has_flaw(flaw, decls, Role::Word, x, scope, seen)
                || in_expression(flaw, decls, e, scope, seen)
        }
        Stmt::Element(x, index, e) => {
            has_flaw(flaw, decls, Role::Element, x, scope, seen)
                || in_expression(flaw, decls, index, scope, seen)
                || in_expression(flaw, decls, e, scope, seen)
        }
        Stmt::If(e, then, otherwise) => {
            in_expression(flaw, decls, e, scope, seen)
                || in_block(flaw, decls, then, scope, seen)
                || in_block(flaw, decls, otherwise, scope, seen)
        }
        Stmt::Repeat(_, body) => in_block(flaw, decls, body, scope, seen),
        Stmt::Send(x, e) => {
            has_flaw(flaw, decls, Role::Sending, x, scope, seen)
                || in_expression(flaw, decls, e, scope, seen)
        }
    }
}

#[cycle(uses)]
fn in_block<'a>(
    flaw: Flaw,
    decls: &Declared<'_>,
    block: &'a Vec<Stmt>,
    scope: &'a Scope<'a>,
    seen: &mut Seen,
) -> bool
    requires { Knows seen.old (seen_in scope.now) }
    ensures flawed { result ≡ list_any (is_flawed flaw decls.now)
        (block_uses (seen_in scope.now) (block_of block.now.items)) }
    ensures known { result ≡ false → Knows seen.new (seen_in scope.now) }
{
    for (i, s) in block.iter().enumerate() {
        let (earlier, _) = block.split_at(i);
        if in_statement(flaw, decls, s, &Scope::Block(scope, earlier), seen) {
            return true;
        }
        seen.define(s);
    }
    seen.leave(block);
    false
}

fn in_input(flaw: Flaw, decls: &Declared<'_>, input: &Option<Name>) -> bool
    ensures { result ≡ list_any (is_flawed flaw decls.now) (input_uses input.now) }
{
    match input {
        None => false,
        Some(x) => has_flaw(
            flaw,
            decls,
            Role::Handling,
            x,
            &Scope::Module,
            &Seen::none(),
        ),
    }
}

fn in_handler(alloc: Global, flaw: Flaw, decls: &Declared<'_>, h: &Handler) -> bool
    ensures { result ≡ list_any (is_flawed flaw decls.now) (handler_uses (handler_of h.now)) }
{
    let scope = Scope::Handler(&h.param);
    let mut seen = Seen::of(alloc, h);
    in_input(flaw, decls, &h.input) || in_block(flaw, decls, &h.body, &scope, &mut seen)
}

fn in_handlers(alloc: Global, flaw: Flaw, decls: &Declared<'_>, handlers: &[Handler]) -> bool
    ensures { result ≡ list_any (is_flawed flaw decls.now)
        (handlers_uses (map handler_of handlers.now)) }
{
    for h in handlers {
        if in_handler(alloc, flaw, decls, h) {
            return true;
        }
    }
    false
}

#[tactic(auto, unfolding(crate::specs::Scopes::is_flawed))]
fn has_unknown(m: &Module, decls: &Declared<'_>) -> bool
    requires { decls.now ≡ m.now.decls.items }
    ensures { result ≡ list_any (is_unknown (module_of m.now).decls)
        (handlers_uses (module_of m.now).handlers) }
{
    in_handlers(*m.decls.allocator(), Flaw::Unknown, decls, &m.handlers)
}

#[tactic(auto, unfolding(crate::specs::Scopes::is_flawed))]
fn has_misused(m: &Module, decls: &Declared<'_>) -> bool
    requires { decls.now ≡ m.now.decls.items }
    ensures { result ≡ list_any (is_misused (module_of m.now).decls)
        (handlers_uses (module_of m.now).handlers) }
{
    in_handlers(*m.decls.allocator(), Flaw::Misused, decls, &m.handlers)
}

/// Whether a name that is used isn't known where it is used.
#[tactic(auto, unfolding(crate::specs::Rules::breaks))]
pub fn breaks_unknown(m: &Module, decls: &Declared<'_>) -> bool
    requires { decls.now ≡ m.now.decls.items }
    ensures { result ≡ breaks (module_of m.now) Unknown }
{
    has_unknown(m, decls)
}

fn has_sample(handlers: &[Handler]) -> bool
    ensures { result ≡ list_any is_sample (map handler_of handlers.now) }
{
    for h in handlers {
        if h.input.is_none() {
            return true;
        }
    }
    false
}

/// Whether the module handles samples, and declares no sensor.
fn samples_blindly(m: &Module) -> bool
    ensures { result ≡ (list_any is_sample (module_of m.now).handlers
        && not (list_any is_sensor (module_of m.now).decls)) }
{
    has_sample(&m.handlers) && !has_sensor(&m.decls)
}

/// Whether the module emits, and declares no actuator.
fn emits_nowhere(m: &Module) -> bool
    ensures { result ≡ (list_any (λ h. block_emits h.body) (module_of m.now).handlers
        && not (list_any is_actuator (module_of m.now).decls)) }
{
    has_emit(&m.handlers) && !has_actuator(&m.decls)
}

/// Whether a name is used as another kind, or the module samples or emits without a device for it.
#[tactic(auto, unfolding(crate::specs::Rules::breaks))]
pub fn breaks_kind(m: &Module, decls: &Declared<'_>) -> bool
    requires { decls.now ≡ m.now.decls.items }
    ensures { result ≡ breaks (module_of m.now) Kind }
{
    has_misused(m, decls) || samples_blindly(m) || emits_nowhere(m)
}
