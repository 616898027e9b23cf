//! Declarations, with an index of their names where there are many.

ghost use Rattle.std.specs.Prelude.{◌≡◌, List, ℕ, IfOk, IfSome};
ghost use Rattle.std.specs.List.{list_any};
ghost use Rattle.sx_index.specs.Index.{IsNameIndex};
ghost use Rattle.sx_check.specs.Listed.{name_as, names_as};
ghost use Rattle.sx_check.specs.Names.{is_declared};
ghost use Rattle.sx_check.specs.Uses.{declares_as, is_seen};

use crate::declared::{Role, lists_name, lists_role};
use std::alloc::{AllocError, Global};
use std::marker::Model;
use sx_index::index::NameIndex;
use sx_lang::names::Name;
use sx_lang::tree::Decl;

/// The most names that are found as fast without an index.
pub const FEW: usize = 32;

/// Declarations, with an index of the names for each way of using one. There is no index of a few
/// declarations, nor where memory ran out: then a name is looked for in all of them. Contracts see
/// the list of the declarations.
#[derive(Drop)]
pub struct Declared<'a> {
    decls: &'a [Decl],
    all: Option<NameIndex>,
    words: Option<NameIndex>,
    elements: Option<NameIndex>,
    outputs: Option<NameIndex>,
    inputs: Option<NameIndex>,
}

impl<'a> Model for Declared<'a> {
    ghost use Rattle.std.specs.Coded.{coded_list};
    ghost use Rattle.std.specs.Prelude.{List, None, Some, IfSome};
    ghost use Rattle.sx_index.specs.Index.{IsNameIndex};
    ghost use Rattle.sx_lang.specs.contracts.tree.Decl.{the_row};
    ghost use Rattle.sx_lang.specs.declared.tree.Decl.{Decl};
    ghost use Rattle.sx_check.specs.Listed.{names_as};
    ghost use Rattle.sx_check.specs.declared.declared.Role.TheVariants.{Element, Handling, Sending};
    ghost use Rattle.sx_check.specs.declared.declared.Role.TheVariants.{Word};

    ghost Value = { List Decl };

    ghost coded = { coded_list the_row.coded };

    ghost view = { λ d. d.decls.now };

    ghost invariant = { λ d.
        IfSome d.all (λ index. IsNameIndex index (names_as None d.decls.now))
        × IfSome d.words (λ index. IsNameIndex index (names_as (Some Word) d.decls.now))
        × IfSome d.elements (λ index. IsNameIndex index (names_as (Some Element) d.decls.now))
        × IfSome d.outputs (λ index. IsNameIndex index (names_as (Some Sending) d.decls.now))
        × IfSome d.inputs (λ index. IsNameIndex index (names_as (Some Handling) d.decls.now)) };
}

/// The declaration's name, if it can be used so.
fn name_as(d: &Decl, role: Option<Role>) -> Option<Name>
    ensures { result ≡ name_as role d.now }
{
    match (role, d) {
        (None, Decl::Input(x) | Decl::Output(x) | Decl::Var(x, _) | Decl::Array(x, _)) => Some(*x),
        (Some(Role::Word), Decl::Var(x, _)) => Some(*x),
        (Some(Role::Element), Decl::Array(x, _)) => Some(*x),
        (Some(Role::Sending), Decl::Output(x)) => Some(*x),
        (Some(Role::Handling), Decl::Input(x)) => Some(*x),
        _ => None,
    }
}

/// The names of the declarations that can be used so. The error says that memory ran out.
pub fn names_as(alloc: Global, decls: &[Decl], role: Option<Role>) -> Result<Vec<Name>, AllocError>
    ensures { IfOk result (λ names. names.items ≡ names_as role decls.now) }
{
    let mut names = Vec::new(alloc);
    for d in decls {
        if let Some(name) = name_as(d, role) {
            if names.push(name).is_err() {
                return Err(AllocError);
            }
        }
    }
    Ok(names)
}

/// An index of these names. The error says that memory ran out.
fn index_of(alloc: Global, names: &[Name]) -> Result<NameIndex, AllocError>
    ensures { IfOk result (λ index. IsNameIndex index names.now) }
{
    let mut index = NameIndex::new(alloc);
    index.fill(names)?;
    Ok(index)
}

/// An index of the names that can be used so, if there is memory for one.
fn index_as(alloc: Global, decls: &[Decl], role: Option<Role>) -> Option<NameIndex>
    ensures { IfSome result (λ index. IsNameIndex index (names_as role decls.now)) }
{
    let names = match names_as(alloc, decls, role) {
        Ok(names) => names,
        Err(_) => return None,
    };
    match index_of(alloc, &names) {
        Ok(index) => Some(index),
        Err(_) => None,
    }
}

/// An index as before, if there are so many declarations that one is worth its memory.
fn index_of_many(alloc: Global, decls: &[Decl], role: Option<Role>) -> Option<NameIndex>
    ensures { IfSome result (λ index. IsNameIndex index (names_as role decls.now)) }
{
    if decls.len() > FEW {
        index_as(alloc, decls, role)
    } else {
        None
    }
}

/// Whether the name is one of those of which this is the index.
fn is_in(index: &NameIndex, x: &Name) -> bool
    ensures { (names : List (List ℕ)) → IsNameIndex index.now names → result ≡ is_seen names x.now }
{
    index.has(x.bytes())
}

impl<'a> Declared<'a> {
    /// These declarations, with what indexes are worth their memory.
    pub fn new(alloc: Global, decls: &'a [Decl]) -> Declared<'a>
        ensures { result ≡ decls.now }
    {
        Declared {
            decls,
            all: index_of_many(alloc, decls, None),
            words: index_of_many(alloc, decls, Some(Role::Word)),
            elements: index_of_many(alloc, decls, Some(Role::Element)),
            outputs: index_of_many(alloc, decls, Some(Role::Sending)),
            inputs: index_of_many(alloc, decls, Some(Role::Handling)),
        }
    }

    /// The declarations.
    pub fn decls(&self) -> &[Decl]
        ensures { result.now ≡ self.now }
    {
        self.decls
    }

    /// Whether a declaration gives this name to something.
    pub fn has_name(&self, x: &Name) -> bool
        ensures { result ≡ is_declared self.now x.now }
    {
        match &self.all {
            Some(index) => is_in(index, x),
            None => lists_name(self.decls, x),
        }
    }

    fn index_of(&self, role: Role) -> &Option<NameIndex>
        ensures { IfSome result.now (λ index. IsNameIndex index (names_as (Some role) self.now)) }
    {
        match role {
            Role::Word => &self.words,
            Role::Element => &self.elements,
            Role::Sending => &self.outputs,
            Role::Handling => &self.inputs,
        }
    }

    /// Whether a declaration gives this name to something that can be used so.
    pub fn has_role(&self, role: Role, x: &Name) -> bool
        ensures { result ≡ list_any (declares_as role x.now) self.now }
    {
        match self.index_of(role) {
            Some(index) => is_in(index, x),
            None => lists_role(self.decls, role, x),
        }
    }
}
