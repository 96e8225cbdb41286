ghost use Rattle.std.specs.Prelude.{◌≡◌, ◌+◌, ◌-◌, ◌^◌, ◌<◌, ◌≤◌, ◌⊎◌, [], length, OnOk, OnErr, IfSome, IfNone};
ghost use Rattle.std.specs.Prelude.{IsTrue, IsFalse, option_copied};
ghost use Rattle.std.specs.List.{find};
ghost use Rattle.deferred_delete.specs.Deferral.{IsNumbered, IsFirstSynced, NoneSynced, pushed, noted};
ghost use Rattle.deferred_delete.specs.Deferral.{may_go, due_of, taken};

use crate::items::Item;
use std::alloc::Global;
use std::marker::Model;
use tree_model::{Blob, NoMemory};

/// The blobs whose deletion waits, in the order in which they came. Their numbers rise from 0, and none is given
/// again.
#[derive(Drop)]
pub struct Deferred {
    items: Vec<Item>,
    next: u64,
    promised: u64,
}

impl Model for Deferred {
    ghost use Rattle.deferred_delete.specs.Deferral.{Deferral, IsKept};
    ghost use Rattle.std.specs.Vec.{vec_capacity};

    ghost Value = { Deferral };

    ghost view = { λ list. record { items = list.items.items; next = list.next; promised = list.promised } };

    ghost invariant = { λ list. IsKept list.items.items list.next list.promised (vec_capacity list.items) };
}

impl Deferred {
    /// An empty list. It takes no memory.
    pub fn new(alloc: Global) -> Deferred
        ensures { result ≡ record { items = []; next = 0; promised = 0 } }
    {
        Deferred {
            items: Vec::new(alloc),
            next: 0,
            promised: 0,
        }
    }

    /// Promises this many more places.
    pub fn reserve(&mut self, n: u64) -> Result<(), NoMemory>
        requires few { self.old.next + self.old.promised + n < 2 ^ 63 }
        ensures promised { OnOk result (self.new ≡ record self.old { promised = self.old.promised + n }) }
        ensures refused { OnErr result (self.new ≡ self.old) }
    {
        let promised = self.promised + n;
        self.items.reserve(promised as usize)?;
        self.promised = promised;
        Ok(())
    }

    /// Takes back the promise of this many places, which were promised.
    pub fn give_back(&mut self, n: u64)
        requires promised { n ≤ self.old.promised }
        ensures { self.new ≡ record self.old { promised = self.old.promised - n } }
    {
        self.promised -= n;
    }

    /// Lists a blob last, with the next number, at a place that was promised. It takes no memory.
    pub fn push(&mut self, blob: Blob, synced: bool)
        requires promised { 0 < self.old.promised }
        ensures { self.new ≡ pushed self.old blob synced }
    {
        let item = Item {
            number: self.next,
            blob,
            synced,
        };
        self.items.push(item).unwrap();
        self.next += 1;
        self.promised -= 1;
    }

    /// A sync came: no item waits for one any more.
    pub fn note_sync(&mut self)
        ensures { self.new ≡ record self.old { items = noted self.old.items } }
    {
        for item in self.items.iter_mut() {
            item.synced = true;
        }
    }

    /// Takes every item out and every promise back. The next number stays.
    pub fn clear(&mut self)
        ensures { self.new ≡ record self.old { items = []; promised = 0 } }
    {
        self.items.clear();
        self.promised = 0;
    }

    /// The first item that may be deleted now, of this number or above: one that a sync came for, and none while a
    /// checkpoint is active. It takes no memory.
    pub fn due(&self, active: bool, from: u64) -> Option<Item>
        ensures due { result ≡ due_of self.now active from }
        ensures first { IfSome result (λ item. IsFalse active × IsFirstSynced self.now from item) }
        ensures none { IfNone result (IsTrue active ⊎ NoneSynced self.now from) }
    {
        if active {
            return None;
        }
        first_synced(self.items.as_slice(), from).copied()
    }

    /// Takes the item of this number out, if it is there. It takes no memory.
    pub fn take(&mut self, number: u64)
        ensures { self.new ≡ record self.old { items = taken self.old.items number } }
    {
        match self.items.binary_search_by_key(&number, |item| item.number) {
            Ok(at) => {
                self.items.remove(at);
            }
            Err(_) => {}
        }
    }

    /// The number of the next item.
    pub fn next_number(&self) -> u64
        ensures { result ≡ self.now.next }
    {
        self.next
    }

    /// How many items there are.
    pub fn len(&self) -> u64
        ensures { result ≡ length self.now.items }
    {
        self.items.len() as u64
    }

    /// The items, in the order of their numbers.
    pub fn items(&self) -> &[Item]
        ensures items { result.now ≡ self.now.items }
        ensures numbered { IsNumbered self.now }
    {
        self.items.as_slice()
    }
}

/// The first item that a sync came for and whose number is this one or above.
fn first_synced(items: &[Item], from: u64) -> Option<&Item>
    ensures { option_copied result ≡ find (may_go from) items.now }
{
    items.iter().find(|item| item.synced && from <= item.number)
}
