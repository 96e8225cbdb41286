ghost use Rattle.std.specs.Prelude.{◌≡◌, [], IsOk, IfOk, IfSome, count_by, nat_lt};
ghost use Rattle.std.specs.List.Sorted.{IsStrictlyIncreasing};
ghost use Rattle.call_counter.specs.Counts.{no_counts};
ghost use Rattle.key_ring.specs.Kept.{once, ring-once};

use crate::keys::Keys;
use crate::ring::KeyRing;
use call_counter::Counter;
use std::alloc::Global;
use std::marker::Model;
use tree_model::{Class, DevFault, NoMemory};

/// A key ring in memory. It fails exactly the calls that were planned to fail.
#[derive(Drop)]
pub struct MemRing {
    keys: Keys,
    counter: Counter,
}

impl Model for MemRing {
    ghost use Rattle.key_ring.specs.Kept.{Device};
    ghost use Rattle.key_ring.specs.Ring.{IsRing};

    ghost Value = { Device };

    ghost view = { λ ring. record { keys = ring.keys.ring; counts = ring.counter } };

    ghost invariant = { λ ring. IsRing ring.keys.ring };
}

impl MemRing {
    /// No key, no calls, no faults and no planned call. It takes no memory.
    pub fn new(alloc: Global) -> Result<MemRing, NoMemory>
        ensures succeeds { IsOk result }
        ensures keys { IfOk result (λ ring. ring.keys ≡ []) }
        ensures counts { IfOk result (λ ring. ring.counts ≡ no_counts) }
    {
        Ok(MemRing {
            keys: Keys::new(alloc),
            counter: Counter::new(alloc),
        })
    }

    /// How many planned calls are still to come: those with a number above the count of calls.
    pub fn planned_left(&self) -> u64
        ensures left { IfSome self.now.counts.plan
            (λ planned. result ≡ count_by (λ call. nat_lt self.now.counts.calls call) planned) }
        ensures once { IfSome self.now.counts.plan IsStrictlyIncreasing }
    {
        self.counter.left()
    }
}

impl KeyRing for MemRing {
    ghost ring = { λ ring. once ring.keys };

    ghost counts = { λ ring. ring.counts };

    ghost whole = { λ ring. ring-once ring.keys };

    fn add(
        &mut self,
        _alloc: Global,
        user: u32,
        class: Class,
        key: &[u8; 64],
    ) -> Result<(), DevFault> {
        self.keys.reserve()?;
        if self.counter.tick() {
            return Err(DevFault::Failed);
        }
        self.keys.add(user, class, key);
        Ok(())
    }

    fn remove(&mut self, user: u32, class: Class) -> Result<(), DevFault> {
        if self.counter.tick() {
            return Err(DevFault::Failed);
        }
        self.keys.remove(user, class);
        Ok(())
    }

    fn get(&self, user: u32, class: Class) -> Option<&[u8; 64]> {
        self.keys.get(user, class)
    }

    fn at(&self, place: usize) -> Option<(u32, Class)> {
        self.keys.at(place)
    }

    fn len(&self) -> usize {
        self.keys.len()
    }

    fn clear(&mut self) {
        self.keys.clear();
    }

    fn plan_fault(&mut self, nth: u64) -> Result<(), NoMemory> {
        self.counter.plan(nth)
    }

    fn calls(&self) -> u64 {
        self.counter.calls()
    }

    fn faults(&self) -> u64 {
        self.counter.faults()
    }
}
