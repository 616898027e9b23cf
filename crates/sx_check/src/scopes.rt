//! Which locals a place in a handler can see.

ghost use Rattle.std.specs.Prelude.{◌≡◌};
ghost use Rattle.sx_lang.specs.View.{block_of, statement_of};
ghost use Rattle.sx_check.specs.Names.{defined};
ghost use Rattle.sx_check.specs.Scopes.{definitions, seen_in};
ghost use Rattle.sx_check.specs.Uses.{is_seen};

use sx_lang::names::Name;
use sx_lang::tree::Stmt;

/// The locals that a place can see.
#[derive(Clone, Copy)]
pub enum Scope<'a> {
    /// None: the place is outside the handlers' bodies.
    Module,
    /// The handler's parameter alone.
    Handler(&'a Name),
    /// What the block's place sees, and what the statements before it in the block define.
    Block(&'a Scope<'a>, &'a [Stmt]),
}

fn is_definition(s: &Stmt, x: &Name) -> bool
    ensures { result ≡ is_seen (defined (statement_of s.now)) x.now }
{
    match s {
        Stmt::Let(y, _) => x == y,
        _ => false,
    }
}

fn has_definition(statements: &[Stmt], x: &Name) -> bool
    ensures { result ≡ is_seen (definitions (block_of statements.now)) x.now }
{
    for s in statements {
        if is_definition(s, x) {
            return true;
        }
    }
    false
}

/// Whether the place can see a local of this name.
pub fn sees(scope: &Scope<'_>, x: &Name) -> bool
    ensures { result ≡ is_seen (seen_in scope.now) x.now }
{
    match scope {
        Scope::Module => false,
        Scope::Handler(param) => x == *param,
        Scope::Block(outer, earlier) => sees(outer, x) || has_definition(earlier, x),
    }
}
