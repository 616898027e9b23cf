//! The modules that connections go between, each found by its name.
ghost use Rattle.std.specs.Prelude.{◌≡◌, map, option_map, slice_get, IfOk};
ghost use Rattle.sx_entries.specs.Entries.{place_among};
ghost use Rattle.sx_index.specs.Index.{IsNameIndex};
ghost use Rattle.sx_index.specs.Places.{place_of};
ghost use Rattle.sx_deploy.specs.Seen.{checked_as};

use crate::checks::CheckedModule;
use std::alloc::{AllocError, Global};
use std::marker::Model;
use sx_index::index::NameIndex;
use sx_lang::names::Name;

/// Modules with an index of their names. Contracts see the list of the modules.
#[derive(Drop)]
pub struct Owners<'a> {
    modules: &'a [CheckedModule],
    names: NameIndex,
}

impl<'a> Model for Owners<'a> {
    ghost use Rattle.std.specs.Coded.{coded_list};
    ghost use Rattle.std.specs.Prelude.{List, map};
    ghost use Rattle.sx_index.specs.Index.{IsNameIndex};
    ghost use Rattle.sx_deploy.specs.contracts.checks.CheckedModule.{the_row};
    ghost use Rattle.sx_deploy.specs.declared.checks.CheckedModule.{CheckedModule};

    ghost Value = { List CheckedModule };

    ghost coded = { coded_list the_row.coded };

    ghost view = { λ o. o.modules.now };

    ghost invariant = { λ o. IsNameIndex o.names (map (λ m. m.name) o.modules.now) };
}

fn names_of(alloc: Global, modules: &[CheckedModule]) -> Result<NameIndex, AllocError>
    ensures { IfOk result (λ names. IsNameIndex names (map (λ m. m.name) modules.now)) }
{
    let mut names = NameIndex::new(alloc);
    for place in 0..modules.len() {
        names.push(modules[place].name, place)?;
    }
    Ok(names)
}

impl<'a> Owners<'a> {
    /// These modules, with an index of their names. The error says that memory ran out.
    pub fn new(alloc: Global, modules: &'a [CheckedModule]) -> Result<Owners<'a>, AllocError>
        ensures { IfOk result (λ owners. owners ≡ modules.now) }
    {
        let names = names_of(alloc, modules)?;
        Ok(Owners { modules, names })
    }

    fn place_named(&self, name: &Name) -> Option<usize>
        ensures { result ≡ place_of (map (λ m. m.name) self.now) name.now }
    {
        self.names.place_of(name.bytes())
    }

    /// The index of the module of this name.
    pub fn place_of(&self, name: &Option<Name>) -> Option<usize>
        ensures { result ≡ place_among (λ m. m.name) (map checked_as self.now) name.now }
    {
        match name {
            Some(name) => self.place_named(name),
            None => None,
        }
    }

    /// The module at a place.
    pub fn at(&self, place: usize) -> Option<&CheckedModule>
        ensures { option_map (λ m. checked_as m.now) result
            ≡ slice_get (map checked_as self.now) place }
    {
        self.modules.get(place)
    }
}
