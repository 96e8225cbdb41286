ghost use Rattle.std.specs.Prelude.{◌≡◌, ◌+◌, ◌^◌, ◌<◌, ◌≤◌, [], ◌∷◌, ◌++◌, length, OnOk, OnErr};

use crate::entries::Entry;
use std::alloc::Global;
use std::marker::Model;
use tree_model::NoMemory;

/// The entries so far, with room for further ones.
#[derive(Drop)]
pub struct Journal {
    entries: Vec<Entry>,
}

impl Model for Journal {
    ghost use Rattle.journal_model.specs.Written.{Written};

    ghost Value = { Written };

    ghost use Rattle.std.specs.Prelude.{◌-◌, vec_len, vec_capacity};

    ghost view = { λ journal. record {
      entries = journal.entries.items;
      room = vec_capacity journal.entries - vec_len journal.entries;
    } };
}

impl Journal {
    /// A journal with no entry. It takes no memory.
    pub fn new(alloc: Global) -> Journal
        ensures { result.entries ≡ [] }
    {
        Journal {
            entries: Vec::new(alloc),
        }
    }

    /// Takes room for one more entry.
    pub fn reserve(&mut self) -> Result<(), NoMemory>
        ensures entries { self.new.entries ≡ self.old.entries }
        ensures room { OnOk result (0 < self.new.room) }
        ensures few { OnOk result (length self.new.entries < 2 ^ 64) }
        ensures refused { OnErr result (self.new ≡ self.old) }
    {
        self.entries.reserve(1)?;
        Ok(())
    }

    /// Adds the entry last, in room that was promised.
    pub fn push(&mut self, entry: Entry)
        requires { 0 < self.old.room }
        ensures entries { self.new.entries ≡ self.old.entries ++ entry ∷ [] }
        ensures room { self.old.room ≤ self.new.room + 1 }
    {
        self.entries.push(entry).unwrap();
    }

    /// The entries, in order.
    pub fn as_slice(&self) -> &[Entry]
        ensures { result.now ≡ self.now.entries }
    {
        self.entries.as_slice()
    }
}
