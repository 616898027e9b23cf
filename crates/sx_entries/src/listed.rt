//! Entries in order, each found by its name.
ghost use Rattle.std.specs.Prelude.{◌≡◌, ℕ, List, [], ◌∷◌, ◌++◌, length, Result, OnOk, position};
ghost use Rattle.std.specs.Str.{bytes_eq};
ghost use Rattle.sx_entries.specs.Gives.{Gives, TakesNoMemory};
ghost use Rattle.sx_entries.specs.Stage.{made_after};
ghost use Rattle.sx_entries.specs.declared.fault.DeployFault.{DeployFault as FaultSeen};
ghost use Rattle.sx_entries.specs.Entries.{has_entry, place_among};

use crate::fault::DeployError;
use std::alloc::{AllocError, Global};
use std::marker::Model;
use sx_index::index::NameIndex;
use sx_lang::names::Name;

/// A type of entry with a name.
pub trait HasName {
    ghost name_of: { Self → List ℕ };

    /// The name of this entry.
    fn name(&self) -> &Name
        ensures { result.now ≡ name_of self.now };
}

/// Entries in order, with an index of their names. Contracts see the list of the entries.
#[derive(Drop)]
pub struct Listed<T: HasName> {
    entries: Vec<T>,
    names: NameIndex,
}

impl<T: HasName> Model for Listed<T> {
    ghost use Rattle.std.specs.Prelude.{List, map};
    ghost use Rattle.sx_index.specs.Index.{IsNameIndex};

    ghost Value = { List T };

    ghost view = { λ l. l.entries.items };

    ghost invariant = { λ l. IsNameIndex l.names (map T.name_of l.entries.items) };
}

impl<T: HasName> Listed<T> {
    /// No entries. It takes no memory.
    pub fn new(alloc: Global) -> Listed<T>
        ensures { result ≡ [] }
    {
        Listed {
            entries: Vec::new(alloc),
            names: NameIndex::new(alloc),
        }
    }

    /// How many entries there are.
    pub fn len(&self) -> usize
        ensures { result ≡ length self.now }
    {
        self.entries.len()
    }

    /// Puts the entry after the others. After an error, which says that memory ran out, nothing has
    /// changed.
    pub fn push(&mut self, entry: T) -> Result<(), AllocError>
    where
        T: Drop,
        ensures { OnOk result (self.new ≡ self.old ++ entry ∷ []) }
    {
        let place = self.entries.len();
        let name = *entry.name();
        self.entries.push(entry)?;
        if self.names.push(name, place).is_err() {
            self.entries.truncate(place);
            return Err(AllocError);
        }
        Ok(())
    }

    /// The entries themselves.
    pub fn into_entries(self) -> Vec<T>
        ensures { result.items ≡ self }
    {
        let Listed { entries, .. } = self;
        entries
    }

    fn place_named(&self, name: &Name) -> Option<usize>
        ensures { result ≡ position (λ e. bytes_eq (T.name_of e) name.now) self.now }
    {
        self.names.place_of(name.bytes())
    }

    /// Whether an entry has the name.
    pub fn has(&self, name: &Name) -> bool
        ensures { result ≡ has_entry T.name_of self.now name.now }
    {
        self.place_named(name).is_some()
    }

    /// The index of the entry of this name.
    pub fn place_of(&self, name: &Option<Name>) -> Option<usize>
        ensures { result ≡ place_among T.name_of self.now name.now }
    {
        match name {
            Some(name) => self.place_named(name),
            None => None,
        }
    }
}

/// What a row becomes, after the entries before it.
pub trait Make<A, B: HasName> {
    ghost makes: { Self → List B → A → Result B FaultSeen };

    /// What the row at this place becomes. It takes no memory.
    fn make(&self, done: &Listed<B>, place: usize, row: A) -> Result<B, DeployError>
        requires { place ≡ length done.now }
        ensures gives { Gives (λ b. b) result (makes self.now done.now row) }
        ensures memory { TakesNoMemory result };
}

/// What the rows become, in order, or the first fault.
pub fn made<A: Drop, B: HasName + Drop, M: Make<A, B>>(
    alloc: Global,
    maker: &M,
    rows: Vec<A>,
) -> Result<Listed<B>, DeployError>
    ensures { Gives (λ l. l) result (made_after (M.makes maker.now) [] rows.items) }
{
    let mut done = Listed::new(alloc);
    for row in rows {
        let one = maker.make(&done, done.len(), row)?;
        if done.push(one).is_err() {
            return Err(DeployError::OutOfMemory);
        }
    }
    Ok(done)
}
