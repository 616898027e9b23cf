//! The locals in sight, each found by its name.

ghost use Rattle.std.specs.Prelude.{◌≡◌, ◌++◌, [], ◌∷◌, ℕ, List, length, true};
ghost use Rattle.sx_lang.specs.View.{block_of, statement_of};
ghost use Rattle.sx_check.specs.Names.{defined};
ghost use Rattle.sx_check.specs.Scopes.{definitions, seen_in};
ghost use Rattle.sx_check.specs.Seen.{Knows};
ghost use Rattle.sx_check.specs.Uses.{is_seen};

use crate::bounds::lets_in_handler;
use crate::indexed::FEW;
use crate::scopes::{Scope, sees};
use indexmap::IndexSet;
use std::alloc::Global;
use sx_index::keys::NameKey;
use sx_lang::names::Name;
use sx_lang::tree::{Handler, Stmt};

/// A set of the locals in sight, in their order, outer ones first. There is none of a few locals,
/// nor where memory ran out or a name is there twice: then a name is looked for in the scope.
#[derive(Drop)]
pub struct Seen {
    names: Option<IndexSet<NameKey>>,
}

/// Adds a name after the others. The answer is whether it could: `false` where the name is there
/// already, and where memory ran out.
fn add(names: &mut IndexSet<NameKey>, x: Name) -> bool
    ensures { result ≡ true → names.new.keys ≡ names.old.keys ++ x ∷ [] }
{
    match names.insert(NameKey::of(x)) {
        Ok(is_new) => is_new,
        Err(_) => false,
    }
}

/// How many names a block's own statements define.
fn definitions(statements: &[Stmt]) -> usize
    ensures { result ≡ length (definitions (block_of statements.now)) }
{
    let mut count = 0;
    for s in statements {
        if let Stmt::Let(_, _) = s {
            count += 1;
        }
    }
    count
}

impl Seen {
    /// No set.
    pub fn none() -> Seen
        ensures { (names : List (List ℕ)) → Knows result names }
    {
        Seen { names: None }
    }

    /// What the handler's body sees at its start: the parameter.
    pub fn of(alloc: Global, h: &Handler) -> Seen
        ensures { Knows result (h.now.param ∷ []) }
    {
        if lets_in_handler(h) <= FEW {
            return Seen::none();
        }
        let mut seen = Seen {
            names: Some(IndexSet::new(alloc)),
        };
        seen.push(h.param);
        seen
    }

    fn push(&mut self, x: Name)
        ensures { (names : List (List ℕ)) → Knows self.old names
            → Knows self.new (names ++ x ∷ []) }
    {
        let added = match &mut self.names {
            Some(names) => add(names, x),
            None => false,
        };
        if !added {
            self.names = None;
        }
    }

    /// Takes in the local that the statement defines, if it does.
    pub fn define(&mut self, s: &Stmt)
        ensures { (names : List (List ℕ)) → Knows self.old names
            → Knows self.new (names ++ defined (statement_of s.now)) }
    {
        if let Stmt::Let(x, _) = s {
            self.push(*x);
        }
    }

    /// Leaves out the locals that the block's own statements define, the last ones.
    pub fn leave(&mut self, block: &[Stmt])
        ensures { (names : List (List ℕ))
            → Knows self.old (names ++ definitions (block_of block.now)) → Knows self.new names }
    {
        let count = definitions(block);
        if let Some(names) = &mut self.names {
            let left = names.len().saturating_sub(count);
            names.truncate(left);
        }
    }

    /// Whether the place, of which these are the locals, can see one of this name.
    pub fn sees(&self, scope: &Scope<'_>, x: &Name) -> bool
        requires { Knows self.now (seen_in scope.now) }
        ensures { result ≡ is_seen (seen_in scope.now) x.now }
    {
        match &self.names {
            Some(names) => names.contains(&NameKey::of(*x)),
            None => sees(scope, x),
        }
    }
}
