//! The labels of a text, each found by its name.

ghost use Rattle.std.specs.Prelude.{◌≡◌, ℕ, List, [], map, take, IfOk};
ghost use Rattle.sx_index.specs.Index.{IsNameIndex};
ghost use Rattle.sx_asm.specs.declared.written.Label.{Label as Placed};
ghost use Rattle.sx_asm.specs.Meaning.{address_of, is_label};

use crate::written::Label;
use std::alloc::{AllocError, Global};
use std::marker::Model;
use sx_index::index::NameIndex;
use sx_lang::names::Name;

/// The most labels that are found as fast without an index.
const FEW: usize = 16;

/// Labels, with an index of their names where there are many. Contracts see the list of them.
#[derive(Drop)]
pub struct Labels<'a> {
    list: &'a [Label],
    index: Option<NameIndex>,
}

impl<'a> Model for Labels<'a> {
    ghost use Rattle.std.specs.Coded.{coded_list};
    ghost use Rattle.std.specs.Prelude.{List, map, IfSome};
    ghost use Rattle.sx_index.specs.Index.{IsNameIndex};
    ghost use Rattle.sx_asm.specs.contracts.written.Label.{the_row};
    ghost use Rattle.sx_asm.specs.declared.written.Label.{Label};

    ghost Value = { List Label };

    ghost coded = { coded_list the_row.coded };

    ghost view = { λ l. l.list.now };

    ghost invariant = { λ l.
        IfSome l.index (λ index. IsNameIndex index (map (λ label. label.name) l.list.now)) };
}

/// Whether a label has this name, looked for in all of them.
fn lists_label(labels: &[Label], name: &Name) -> bool
    ensures { result ≡ is_label labels.now name.now }
{
    for label in labels {
        if label.name == *name {
            return true;
        }
    }
    false
}

/// The address of the first label with this name, looked for in all of them.
fn listed_address(labels: &[Label], name: &Name) -> u16
    ensures { result ≡ address_of labels.now name.now }
{
    for label in labels {
        if label.name == *name {
            return label.address;
        }
    }
    0
}

/// The first `count` labels.
fn first_labels(labels: &[Label], count: usize) -> &[Label]
    ensures { result.now ≡ take count labels.now }
{
    if count < labels.len() {
        &labels[..count]
    } else {
        labels
    }
}

/// The address of the first label with this name, whose place an index of the names gives.
fn indexed_address(index: &NameIndex, labels: &[Label], name: &Name) -> u16
    requires { IsNameIndex index.now (map (λ label. label.name) labels.now) }
    ensures { result ≡ address_of labels.now name.now }
{
    match index.place_of(name.bytes()) {
        Some(place) => match labels.get(place) {
            Some(label) => label.address,
            None => 0,
        },
        None => 0,
    }
}

/// An index of the labels' names. The error says that memory ran out.
fn index_of(alloc: Global, labels: &[Label]) -> Result<NameIndex, AllocError>
    ensures { IfOk result (λ index. IsNameIndex index (map (λ label. label.name) labels.now)) }
{
    let mut index = NameIndex::new(alloc);
    for place in 0..labels.len() {
        index.push(labels[place].name, place)?;
    }
    Ok(index)
}

impl<'a> Labels<'a> {
    /// No labels.
    pub fn none() -> Labels<'a>
        ensures { result ≡ [] }
    {
        Labels {
            list: &[],
            index: None,
        }
    }

    /// These labels. The error says that memory ran out.
    pub fn new(alloc: Global, list: &'a [Label]) -> Result<Labels<'a>, AllocError>
        ensures { IfOk result (λ labels. labels ≡ list.now) }
    {
        if list.len() <= FEW {
            return Ok(Labels { list, index: None });
        }
        let index = index_of(alloc, list)?;
        Ok(Labels {
            list,
            index: Some(index),
        })
    }

    /// Whether a label has this name.
    pub fn has(&self, name: &Name) -> bool
        ensures { result ≡ is_label self.now name.now }
    {
        match &self.index {
            Some(index) => index.has(name.bytes()),
            None => lists_label(self.list, name),
        }
    }

    /// Whether one of the first so many labels has this name.
    pub fn has_before(&self, count: usize, name: &Name) -> bool
        ensures { result ≡ is_label (take count self.now) name.now }
    {
        match &self.index {
            Some(index) => index.has_before(count, name.bytes()),
            None => lists_label(first_labels(self.list, count), name),
        }
    }

    /// The address of the first label with this name.
    pub fn address_of(&self, name: &Name) -> u16
        ensures { result ≡ address_of self.now name.now }
    {
        match &self.index {
            Some(index) => indexed_address(index, self.list, name),
            None => listed_address(self.list, name),
        }
    }
}
