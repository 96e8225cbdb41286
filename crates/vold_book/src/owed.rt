//! What a command listed, and which of it is still to be deleted.
ghost use Rattle.std.specs.Prelude.{◌≡◌, ◌^◌, ◌<◌, IfOk};
ghost use Rattle.vold_book.specs.Owed.{nothing_owed, with_drops, with_more, after_try, tried_to, due_of, synced_at};
ghost use Rattle.vold_book.specs.Owed.{CanTry};

use deferred_delete::{Deferred, Item};
use std::alloc::Global;
use std::marker::Model;
use task_turns::Call;
use tree_model::{Blob, NoMemory};

/// The items that a command listed, in order, as they were listed, and the number of the next one that it tries to
/// delete.
#[derive(Drop)]
pub struct Owed {
    pub items: Vec<Item>,
    pub from: u64,
}

impl Model for Owed {
    ghost use Rattle.vold_book.specs.Owed.{Owed};

    ghost Value = { Owed };

    ghost view = { λ owed. record { items = owed.items.items; from = owed.from } };
}

impl Owed {
    /// No item. It takes no memory.
    pub fn nothing(alloc: Global) -> Owed
        ensures { result ≡ nothing_owed }
    {
        Owed {
            items: Vec::new(alloc),
            from: 0,
        }
    }

    /// The same, and an item of each blob that is listed next, from this number on.
    pub fn with(&self, alloc: Global, next: u64, blobs: &[Blob]) -> Result<Owed, NoMemory>
        requires { next < 2 ^ 63 }
        ensures { IfOk result (λ more. more ≡ with_drops self.now next blobs.now) }
    {
        let mut items = Vec::from_slice(alloc, self.items.as_slice())?;
        let mut number = next;
        for blob in blobs {
            items.push(Item {
                number,
                blob: *blob,
                synced: false,
            })?;
            number += 1;
        }
        Ok(Owed {
            items,
            from: self.from,
        })
    }

    /// The items up to this number were tried.
    pub fn try_to(&mut self, number: u64)
        requires { number < 2 ^ 63 }
        ensures { self.new ≡ tried_to self.old number }
    {
        self.from = number + 1;
    }

    /// What is owed after a call: with more where it was done and lists more, and with the item tried that it deletes.
    pub fn after(self, call: &Call, done: bool, more: Option<Owed>) -> Owed
        requires { CanTry call.now }
        ensures { result ≡ after_try call.now (with_more done more self) }
    {
        let mut owed = if done { more.unwrap_or(self) } else { self };
        if let Call::Delete { item, .. } = call {
            owed.try_to(item.number);
        }
        owed
    }

    /// The first of the items that is still to be tried, is still listed, and was synced.
    pub fn due(&self, list: &Deferred) -> Option<Item>
        ensures { result ≡ due_of list.now self.now }
    {
        for item in &self.items {
            if self.from <= item.number {
                if let Some(found) = listed_as(list, item.number) {
                    return Some(found);
                }
            }
        }
        None
    }
}

/// The item of this number, where it is listed and was synced.
fn listed_as(list: &Deferred, number: u64) -> Option<Item>
    ensures { result ≡ synced_at list.now number }
{
    list.due(false, number).filter(|item| item.number == number)
}
