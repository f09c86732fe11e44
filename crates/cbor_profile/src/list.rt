//! Lists.

ghost use Rattle.std.specs.Prelude.{◌≡◌, ◌<◌, ◌≤◌, ◌++◌, [], ◌∷◌, List, length, insert, remove, slice_index_or, OnOk, OnErr, IfErr};
ghost use Rattle.std.specs.Borrow.{Lends, Array, sem};
ghost use Rattle.cbor_profile.specs.Overwritten.{overwritten};
ghost use Rattle.cbor_profile.specs.contracts.list.List.{the_row};

use crate::memory::NoMemory;
use std::alloc::Global;
use std::marker::Model;

/// A list that grows. A contract sees it as the list of its items.
#[derive(Debug, Drop)]
pub struct List<T> {
    items: Vec<T>,
}

impl<T> Model for List<T> {
    ghost use Rattle.std.specs.Prelude.{List};

    ghost Value = { List T };

    ghost view = { λ l. l.items.items };
}

impl<T> List<T> {
    /// No items. Takes no memory.
    pub fn new(alloc: Global) -> List<T>
        ensures { result ≡ [] }
    {
        List {
            items: Vec::new(alloc),
        }
    }

    /// These items. Takes no memory.
    pub fn of(items: Vec<T>) -> List<T>
        ensures { result ≡ items.items }
    {
        List { items }
    }

    /// All the items.
    pub fn items(&self) -> &[T]
        ensures { result.now ≡ self.now }
    {
        self.items.as_slice()
    }

    /// All the items, to be changed in place. Their number stays.
    pub fn items_mut(&mut self) -> &mut [T]
        ensures* writes_back { sem 𝓛 (Lends (the_row T.row) (Array T.row 0) self.entry result (overwritten self.old)) }
        ensures value { result.now ≡ self.old }
    {
        self.items.as_mut_slice()
    }

    /// The items as a vector. Takes no memory.
    pub fn into_vec(self) -> Vec<T>
        ensures { result.items ≡ self }
    {
        self.items
    }

    /// Appends an item. An `Err`, for want of memory alone, hands the item back.
    pub fn push(&mut self, item: T) -> Result<(), T>
        ensures ok { OnOk result (self.new ≡ self.old ++ item ∷ []) }
        ensures err { OnErr result (self.new ≡ self.old) }
        ensures back { IfErr result (λ back. back ≡ item) }
    {
        match self.items.push(item) {
            Ok(()) => Ok(()),
            Err(failed) => Err(failed.value),
        }
    }

    /// Appends an item, or lets it go where memory is wanting.
    pub fn append(&mut self, item: T) -> Result<(), NoMemory>
    where
        T: Drop,
        ensures ok { OnOk result (self.new ≡ self.old ++ item ∷ []) }
        ensures err { OnErr result (self.new ≡ self.old) }
    {
        self.items.push(item)?;
        Ok(())
    }

    /// Puts an item before the one at an index, or at the end. An `Err`, for want of memory alone, hands the item back.
    pub fn insert(&mut self, index: usize, item: T) -> Result<(), T>
        requires { index ≤ length self.old }
        ensures ok { OnOk result (self.new ≡ insert self.old index item) }
        ensures err { OnErr result (self.new ≡ self.old) }
        ensures back { IfErr result (λ back. back ≡ item) }
    {
        match self.items.insert(index, item) {
            Ok(()) => Ok(()),
            Err(failed) => Err(failed.value),
        }
    }

    /// Takes the item at an index out, and returns it.
    pub fn remove(&mut self, index: usize) -> T
        requires { index < length self.old }
        ensures item { result ≡ slice_index_or self.old index result }
        ensures rest { self.new ≡ remove self.old index }
    {
        self.items.remove(index)
    }
}
