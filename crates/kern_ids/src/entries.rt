//! Entries of a history, and the list that keeps them.

ghost use Rattle.std.specs.Prelude.{◌≡◌, ◌≤◌, ◌<◌, ◌+◌, ◌-◌, ◌∷◌, ◌++◌, [], length, slice_get, OnOk, OnErr};
ghost use Rattle.std.specs.Option.{option_copied};

use crate::calls::Call;
use crate::ids::ThreadId;
use crate::replies::Reply;
use std::alloc::Global;
use std::marker::Model;
use thiserror::Error;

/// There was not enough memory.
#[derive(Clone, Copy, PartialEq, Eq, Debug, Error)]
#[error("no memory")]
pub struct NoMemory;

/// One call with its answer.
#[derive(Clone, Copy, PartialEq, Eq, Debug)]
pub struct Entry {
    pub who: ThreadId,
    pub call: Call,
    pub reply: Reply,
}

/// The entries of a history, in order, with room for more.
#[derive(Drop)]
pub struct EntryList {
    items: Vec<Entry>,
}

impl Model for EntryList {
    ghost use Rattle.std.specs.Prelude.{◌-◌, List, vec_len, vec_capacity};
    ghost use Rattle.kern_ids.specs.Entries.{Entries};

    ghost Value = { Entries };

    ghost view = { λ l. record { list = l.items.items; spare = vec_capacity l.items - vec_len l.items } };
}

impl EntryList {
    /// No entries.
    pub fn new(alloc: Global) -> EntryList
        ensures { result ≡ record { list = []; spare = 0 } }
    {
        EntryList {
            items: Vec::new(alloc),
        }
    }

    /// The number of entries.
    pub fn len(&self) -> usize
        ensures { result ≡ length self.now.list }
    {
        self.items.len()
    }

    /// Entry number i, if there are so many.
    pub fn get(&self, i: usize) -> Option<&Entry>
        ensures { option_copied result ≡ slice_get self.now.list i }
    {
        self.items.get(i)
    }

    /// Makes room for n more entries.
    pub fn reserve(&mut self, n: usize) -> Result<(), NoMemory>
        ensures list { self.new.list ≡ self.old.list }
        ensures room { OnOk result (n ≤ self.new.spare) }
        ensures kept { self.old.spare ≤ self.new.spare }
    {
        self.items.reserve(n).map_err(|_| NoMemory)?;
        Ok(())
    }

    /// Appends an entry. Takes no memory.
    pub fn push(&mut self, e: Entry)
        requires { 1 ≤ self.old.spare }
        ensures list { self.new.list ≡ self.old.list ++ e ∷ [] }
        ensures spare { self.new.spare ≡ self.old.spare - 1 }
    {
        let Entry { who, call, reply } = e;
        self.items.push_reserved(Entry { who, call, reply });
    }

    /// The entries.
    pub fn as_slice(&self) -> &[Entry]
        ensures { result.now ≡ self.now.list }
    {
        self.items.as_slice()
    }
}
