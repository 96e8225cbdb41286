//! The numbers that wait for one actor.

ghost use Rattle.std.specs.Prelude.{◌≡◌, ◌≢◌, ◌↔◌, [], ◌∷◌, ◌++◌, IsTrue, OnOk, OnErr};
ghost use Rattle.docket.specs.Docket.{IsFirst};

use std::alloc::Global;
use std::collections::VecDeque;
use std::marker::Model;
use tree_model::NoMemory;

/// The numbers of the commands that wait for an actor, in order.
#[derive(Drop)]
pub struct Queue {
    numbers: VecDeque<u64>,
}

impl Model for Queue {
    ghost use Rattle.std.specs.Prelude.{List, ℕ};

    ghost Value = { List ℕ };

    ghost view = { λ queue. queue.numbers.items };
}

impl Queue {
    /// A queue with nothing in it, which takes no memory.
    pub fn new(alloc: Global) -> Queue
        ensures { result ≡ [] }
    {
        Queue {
            numbers: VecDeque::new(alloc),
        }
    }

    /// Whether nothing waits.
    pub fn is_empty(&self) -> bool
        ensures { IsTrue result ↔ (self.now ≡ []) }
    {
        self.numbers.is_empty()
    }

    /// The first number, which is there.
    pub fn first(&self) -> u64
        requires { self.now ≢ [] }
        ensures { IsFirst self.now result }
    {
        *self.numbers.front().unwrap()
    }

    /// Adds a number last.
    pub fn push(&mut self, number: u64) -> Result<(), NoMemory>
        ensures pushed { OnOk result (self.new ≡ self.old ++ number ∷ []) }
        ensures refused { OnErr result (self.new ≡ self.old) }
    {
        self.numbers.push_back(number)?;
        Ok(())
    }

    /// Adds a number first.
    pub fn push_first(&mut self, number: u64) -> Result<(), NoMemory>
        ensures pushed { OnOk result (self.new ≡ number ∷ self.old) }
        ensures refused { OnErr result (self.new ≡ self.old) }
    {
        self.numbers.push_front(number)?;
        Ok(())
    }

    /// Takes the first number out, which is there.
    pub fn pop(&mut self) -> u64
        requires { self.old ≢ [] }
        ensures { self.old ≡ result ∷ self.new }
    {
        self.numbers.pop_front().unwrap()
    }
}
