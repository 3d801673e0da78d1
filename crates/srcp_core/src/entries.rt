//! A list in a record of a run.

ghost use Rattle.std.specs.Prelude.{◌≡◌, ◌∷◌, ◌++◌, [], OnOk, OnErr};

use std::alloc::{AllocError, Global};
use std::marker::Model;
use std::vec::Vec;

/// Holds a list of a record, in order. Contracts see the list of the entries.
#[derive(Drop)]
pub struct Entries<T: Drop> {
    entries: Vec<T>,
}

impl<T: Drop> Model for Entries<T> {
    ghost use Rattle.std.specs.Prelude.{List};

    ghost Value = { List T };

    ghost view = { λ e. e.entries.items };
}

impl<T: Drop> Entries<T> {
    /// Makes a list of no entry. Allocates no memory.
    pub(crate) fn new(alloc: Global) -> Entries<T>
        ensures { result ≡ [] }
    {
        Entries {
            entries: Vec::new(alloc),
        }
    }

    /// Makes a list of these entries.
    pub(crate) fn of(entries: Vec<T>) -> Entries<T>
        ensures { result ≡ entries.items }
    {
        Entries { entries }
    }

    /// Appends an entry. If memory is refused, the list stays as before and the entry is dropped.
    pub(crate) fn push(&mut self, entry: T) -> Result<(), AllocError>
        ensures ok { OnOk result (self.new ≡ self.old ++ entry ∷ []) }
        ensures err { OnErr result (self.new ≡ self.old) }
    {
        Ok(self.entries.push(entry)?)
    }

    /// Lends the entries.
    pub fn as_slice(&self) -> &[T]
        ensures { result.now ≡ self.now }
    {
        &self.entries
    }
}

impl<T: Copy + Drop> Entries<T> {
    /// Appends entries. If memory is refused, the list stays as before.
    pub(crate) fn extend(&mut self, more: &[T]) -> Result<(), AllocError>
        ensures ok { OnOk result (self.new ≡ self.old ++ more.now) }
        ensures err { OnErr result (self.new ≡ self.old) }
    {
        Ok(self.entries.extend_from_slice(more)?)
    }
}
