//! The set of entries that were made.

ghost use Rattle.std.specs.Prelude.{◌≡◌, ◌↔◌, List, [], IfOk, IsTrue, OnErr, OnOk};
ghost use Rattle.std.specs.List.{Contains};
ghost use Rattle.sx_ledger.specs.Entries.{AddsEntry};

use crate::entry::Entry;
use std::alloc::{AllocError, AllocError as OutOfMemory, Global};
use std::collections::BTreeSet;
use std::marker::Model;

/// The entries that were made.
#[derive(Drop)]
pub struct Ledger {
    entries: BTreeSet<Entry>,
}

impl Model for Ledger {
    ghost use Rattle.std.specs.Prelude.{List};
    ghost use Rattle.sx_ledger.specs.declared.entry.Entry.{Entry as Seen};

    ghost Value = { List Seen };

    ghost view = { λ a. a.entries.keys };
}

impl Ledger {
    /// The ledger in which no entry was made; it takes no memory.
    pub fn new(alloc: Global) -> Ledger
        ensures { result ≡ [] }
    {
        Ledger {
            entries: BTreeSet::new(alloc),
        }
    }

    /// Adds the entry. One that is there already changes nothing and takes no memory. After an
    /// error, which says that memory ran out, the ledger is as before.
    pub fn made(&mut self, entry: Entry) -> Result<(), AllocError>
        ensures added { OnOk result (AddsEntry self.old self.new entry) }
        ensures again { Contains self.old entry → self.new ≡ self.old }
        ensures err { OnErr result (self.new ≡ self.old) }
        ensures absent { OnErr result (Contains self.old entry → ⊥) }
    {
        match self.entries.insert(entry) {
            Ok(_) => Ok(()),
            Err(_) => Err(AllocError),
        }
    }

    /// Whether the entry was made.
    pub fn is_made(&self, entry: &Entry) -> bool
        ensures { IsTrue result ↔ Contains self.now entry.now }
    {
        self.entries.contains(entry)
    }

    /// A ledger that is equal to this one. The error says that memory ran out.
    pub fn copy(&self, _alloc: Global) -> Result<Ledger, OutOfMemory>
        ensures { IfOk result (λ copy. copy ≡ self.now) }
    {
        Ok(Ledger {
            entries: self.entries.clone()?,
        })
    }
}
