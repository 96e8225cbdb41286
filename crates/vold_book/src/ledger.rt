ghost use Rattle.std.specs.Prelude.{◌≡◌, ◌+◌, ◌^◌, ◌<◌, ◌≤◌, [], ◌∷◌, ◌++◌, length, OnOk};
ghost use Rattle.vold_book.specs.Parts.{no_ledger, ledger_with};

use journal_model::{Actor, Entry, Journal, Order};
use std::alloc::Global;
use std::marker::Model;
use tree_model::NoMemory;

/// What was done: the journal, the actor of each counted call, and what was given to `stop`.
#[derive(Drop)]
pub struct Ledger {
    journal: Journal,
    callers: Vec<Actor>,
    orders: Vec<Order>,
}

impl Model for Ledger {
    ghost use Rattle.std.specs.Prelude.{◌-◌, min, vec_len};
    ghost use Rattle.std.specs.Vec.{vec_capacity};
    ghost use Rattle.vold_book.specs.Parts.{RoomyLedger};

    ghost Value = { RoomyLedger };

    ghost view = { λ ledger. record {
      now = record {
        entries = ledger.journal.entries;
        callers = ledger.callers.items;
        orders = ledger.orders.items;
      };
      room = min ledger.journal.room
          (min (vec_capacity ledger.callers - vec_len ledger.callers)
          (vec_capacity ledger.orders - vec_len ledger.orders));
    } };
}

impl Ledger {
    /// A ledger in which nothing was done. It takes no memory.
    pub fn new(alloc: Global) -> Ledger
        ensures { result.now ≡ no_ledger }
    {
        Ledger {
            journal: Journal::new(alloc),
            callers: Vec::new(alloc),
            orders: Vec::new(alloc),
        }
    }

    /// Takes room for one more entry, one more caller and one more order.
    pub fn reserve(&mut self) -> Result<(), NoMemory>
        ensures same { self.new.now ≡ self.old.now }
        ensures room { OnOk result (0 < self.new.room) }
        ensures few { OnOk result (length self.new.now.entries < 2 ^ 64) }
    {
        self.journal.reserve()?;
        self.callers.reserve(1)?;
        self.orders.reserve(1)?;
        Ok(())
    }

    /// Adds an entry last, in room that was promised.
    pub fn enter(&mut self, entry: Entry)
        requires { 0 < self.old.room }
        ensures { self.new.now ≡ record self.old.now { entries = self.old.now.entries ++ entry ∷ [] } }
    {
        self.journal.push(entry);
    }

    /// Adds an order and its entry last, in room that was promised.
    pub fn order(&mut self, order: Order, entry: Entry)
        requires { 0 < self.old.room }
        ensures { self.new.now ≡ record self.old.now {
          entries = self.old.now.entries ++ entry ∷ [];
          orders = self.old.now.orders ++ order ∷ [];
        } }
    {
        self.orders.push(order).unwrap();
        self.journal.push(entry);
    }

    /// Adds the caller of a counted call, and its entry where it has one, in room that was promised.
    pub fn note(&mut self, caller: Actor, entry: Option<Entry>)
        requires { 0 < self.old.room }
        ensures { self.new.now ≡ ledger_with self.old.now caller entry }
    {
        self.callers.push(caller).unwrap();
        if let Some(entry) = entry {
            self.journal.push(entry);
        }
    }

    /// The journal.
    pub fn journal(&self) -> &Journal
        ensures { result.now.entries ≡ self.now.now.entries }
    {
        &self.journal
    }

    /// The actor of each counted call, in order.
    pub fn callers(&self) -> &[Actor]
        ensures { result.now ≡ self.now.now.callers }
    {
        self.callers.as_slice()
    }

    /// What was given to `stop`, in order.
    pub fn orders(&self) -> &[Order]
        ensures { result.now ≡ self.now.now.orders }
    {
        self.orders.as_slice()
    }

    /// The journal alone.
    pub fn into_journal(self) -> Journal
        ensures { result.entries ≡ self.now.entries }
    {
        let Ledger { journal, .. } = self;
        journal
    }
}
