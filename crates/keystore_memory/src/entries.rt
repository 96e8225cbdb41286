ghost use Rattle.std.specs.Prelude.{◌≡◌, ◌<◌, ◌^◌, IfOk, OnOk, length, option_copied, Contains};
ghost use Rattle.keystore_model.specs.Store.{IsStore, empty_store, entry_of, listed, deleted, at_level};
ghost use Rattle.keystore_memory.specs.Format.{next_blob, numbered};

use crate::numbers::{blob_of_number, key_of_number, number_of};
use keystore_model::{StoreEntry, Tag};
use sorted_map::SortedMap;
use std::alloc::Global;
use std::marker::Model;
use tree_model::{Blob, Bytes, NoMemory};

/// The entries of a keystore by their numbers, the number of the next one, and the keystore's level.
#[derive(Drop)]
pub struct Entries {
    rows: SortedMap<u64, StoreEntry>,
    next: u64,
    level: u32,
}

impl Model for Entries {
    ghost use Rattle.std.specs.Ordering.{nat_cmp};
    ghost use Rattle.sorted_map.specs.Maps.{held};
    ghost use Rattle.keystore_memory.specs.Kept.{Shelf, store_of, IsKept};

    ghost Value = { Shelf };

    ghost view = { λ entries. record {
      store = store_of (held nat_cmp entries.rows) entries.next entries.level;
      room = entries.rows.room;
    } };

    ghost invariant = { λ entries. IsKept (held nat_cmp entries.rows) entries.next entries.level };
}

impl Entries {
    /// No entry, at level 1.
    pub fn new(alloc: Global) -> Entries
        ensures store { result.store ≡ empty_store 1 }
        ensures whole { IsStore result.store }
    {
        Entries {
            rows: SortedMap::new(alloc),
            next: 0,
            level: 1,
        }
    }

    /// The level.
    pub fn level(&self) -> u32
        ensures { result ≡ self.now.store.level }
    {
        self.level
    }

    /// The number of entries.
    pub fn len(&self) -> usize
        ensures { result ≡ length self.now.store.entries }
    {
        self.rows.len()
    }

    /// The entry of a blob; None where there is none.
    pub fn find(&self, blob: Blob) -> Option<&StoreEntry>
        ensures { option_copied result ≡ entry_of self.now.store.entries blob }
    {
        match number_of(blob) {
            Some(number) => self.rows.get(number),
            None => None,
        }
    }

    /// The blobs and tags of the entries, in order.
    pub fn list(&self, alloc: Global) -> Result<Vec<(Blob, Tag)>, NoMemory>
        ensures { IfOk result (λ rows. rows.items ≡ listed self.now.store) }
    {
        let rows = self
            .rows
            .values()
            .iter()
            .map(|entry| (entry.blob, entry.tag))
            .collect(alloc)?;
        Ok(rows)
    }

    /// Makes room for a further entry.
    pub fn reserve(&mut self) -> Result<(), NoMemory>
        ensures store { self.new.store ≡ self.old.store }
        ensures room { OnOk result (0 < self.new.room) }
    {
        self.rows.reserve(1)
    }

    /// Adds the next entry, at this level, and answers its blob. It takes no memory, since there is room.
    pub fn add(&mut self, tag: Tag, app_id: Bytes) -> Blob
        requires room { 0 < self.old.room }
        requires number { length self.old.store.given < 2 ^ 63 }
        ensures blob { result ≡ next_blob self.old.store }
        ensures fresh { ¬ (Contains self.old.store.given result) }
        ensures added { self.new.store ≡ numbered self.old.store tag app_id }
        ensures whole { IsStore self.new.store }
    {
        let number = self.next;
        let blob = blob_of_number(number);
        let entry = StoreEntry {
            blob,
            level: self.level,
            app_id,
            key: key_of_number(number),
            tag,
        };
        self.rows.insert(number, entry).unwrap();
        self.next = number + 1;
        blob
    }

    /// Takes the entry of a blob out; None where there is none.
    pub fn remove(&mut self, blob: Blob) -> Option<StoreEntry>
        ensures taken { result ≡ entry_of self.old.store.entries blob }
        ensures removed { self.new.store ≡ deleted self.old.store blob }
        ensures whole { IsStore self.new.store }
    {
        match number_of(blob) {
            Some(number) => self.rows.remove(number),
            None => None,
        }
    }

    /// The level is this one.
    pub fn set_level(&mut self, level: u32)
        ensures level { self.new.store ≡ at_level self.old.store level }
        ensures whole { IsStore self.new.store }
    {
        self.level = level;
    }
}
