//! Names that are in a list twice.

ghost use Rattle.std.specs.Prelude.{◌≡◌, IfOk};
ghost use Rattle.std.specs.List.{list_any};
ghost use Rattle.sx_check.specs.Listed.{is_in_twice};
ghost use Rattle.sx_check.specs.Names.{is_repeated};

use crate::declared::{devices, lists_repeated};
use crate::indexed::{FEW, names_as};
use std::alloc::{AllocError, Global};
use sx_index::index::NameIndex;
use sx_lang::names::Name;
use sx_lang::tree::Decl;

/// Whether a name is in the list twice. The error says that memory ran out.
pub fn is_in_twice(alloc: Global, names: &[Name]) -> Result<bool, AllocError>
    ensures { IfOk result (λ twice. twice ≡ is_in_twice names.now) }
{
    let mut index = NameIndex::new(alloc);
    for place in 0..names.len() {
        if index.has(names[place].bytes()) {
            return Ok(true);
        }
        index.push(names[place], place)?;
    }
    Ok(false)
}

/// Whether a name, or a device, is declared twice. The error says that memory ran out.
fn finds_repeated(alloc: Global, decls: &[Decl]) -> Result<bool, AllocError>
    ensures { IfOk result (λ twice. twice ≡ list_any (is_repeated decls.now) decls.now) }
{
    let names = names_as(alloc, decls, None)?;
    let twice = is_in_twice(alloc, &names)?;
    Ok(devices(decls) > 1 || twice)
}

/// Whether a name, or a device, is declared twice.
pub fn has_repeated(alloc: Global, decls: &[Decl]) -> bool
    ensures { result ≡ list_any (is_repeated decls.now) decls.now }
{
    if decls.len() > FEW {
        if let Ok(twice) = finds_repeated(alloc, decls) {
            return twice;
        }
    }
    lists_repeated(decls)
}
