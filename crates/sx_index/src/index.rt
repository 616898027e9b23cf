//! The first place of each name of a list, found without going through the list.
ghost use Rattle.std.specs.Prelude.{◌≡◌, ℕ, List, [], take, OnOk, OnErr};
ghost use Rattle.std.specs.List.{list_any};
ghost use Rattle.std.specs.Str.{bytes_eq};
ghost use Rattle.sx_index.specs.Index.{GrowsIndex, IsNameIndex, IsNewTo, KeepsIndex};
ghost use Rattle.sx_index.specs.Places.{place_of};

use crate::keys::NameKey;
use indexmap::IndexMap;
use std::alloc::{AllocError, Global};
use sx_lang::names::Name;

/// The first place of each name of a list. It doesn't hold the list: its contracts speak of any
/// list that it is the index of.
#[derive(Drop)]
pub struct NameIndex {
    places: IndexMap<NameKey, usize>,
}

impl NameIndex {
    /// The index of no names.
    pub fn new(alloc: Global) -> NameIndex
        ensures { IsNameIndex result [] }
    {
        NameIndex {
            places: IndexMap::new(alloc),
        }
    }

    /// Takes in these names, the first ones. The error says that memory ran out.
    pub fn fill(&mut self, names: &[Name]) -> Result<(), AllocError>
        requires { IsNameIndex self.old [] }
        ensures { OnOk result (IsNameIndex self.new names.now) }
    {
        for place in 0..names.len() {
            self.push(names[place], place)?;
        }
        Ok(())
    }

    /// Takes in the name that comes next, at this place. A name that is before keeps its first
    /// place, and takes no memory. The error says that memory ran out.
    pub fn push(&mut self, name: Name, place: usize) -> Result<(), AllocError>
        ensures grows { OnOk result (GrowsIndex self.old self.new name place) }
        ensures kept { OnErr result (KeepsIndex self.old self.new) }
        ensures fresh { OnErr result (IsNewTo self.old name) }
    {
        if self.place_of(name.bytes()).is_some() {
            return Ok(());
        }
        match self.places.insert(NameKey::of(name), place) {
            Ok(_) => Ok(()),
            Err(_) => Err(AllocError),
        }
    }

    /// The first place of the name that a text is.
    pub fn place_of(&self, text: &[u8]) -> Option<usize>
        ensures { (names : List (List ℕ)) → IsNameIndex self.now names
            → result ≡ place_of names text.now }
    {
        match Name::new(text) {
            Some(name) => self.places.get(&NameKey::of(name)).copied(),
            None => None,
        }
    }

    /// Whether a text is one of the names.
    pub fn has(&self, text: &[u8]) -> bool
        ensures { (names : List (List ℕ)) → IsNameIndex self.now names
            → result ≡ list_any (λ name. bytes_eq name text.now) names }
    {
        self.place_of(text).is_some()
    }

    /// Whether a text is one of the first so many names.
    pub fn has_before(&self, count: usize, text: &[u8]) -> bool
        ensures { (names : List (List ℕ)) → IsNameIndex self.now names
            → result ≡ list_any (λ name. bytes_eq name text.now) (take count names) }
    {
        match self.place_of(text) {
            Some(place) => place < count,
            None => false,
        }
    }
}
