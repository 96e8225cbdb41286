ghost use Rattle.std.specs.Prelude.{◌≡◌, ◌≤◌, ◌↔◌, IsTrue, IfSome, OnOk, OnErr, Contains};
ghost use Rattle.std.specs.Prelude.{if◌then◌else◌, count_by, nat_lt};
ghost use Rattle.std.specs.List.Sorted.{IsStrictlyIncreasing};
ghost use Rattle.tree_model.specs.Counted.{IsPlanned, Rose, one_more};
ghost use Rattle.call_counter.specs.Counts.{no_counts};

use sorted_map::SortedMap;
use std::alloc::Global;
use std::marker::Model;
use tree_model::NoMemory;

/// Counts the calls of a device and its faults, and knows the numbers of the calls that are to fail.
#[derive(Drop)]
pub struct Counter {
    calls: u64,
    faults: u64,
    planned: SortedMap<u64, ()>,
}

impl Model for Counter {
    ghost use Rattle.std.specs.Prelude.{Some};
    ghost use Rattle.std.specs.FinMap as map;
    ghost use Rattle.std.specs.Ordering.{nat_cmp};
    ghost use Rattle.sorted_map.specs.Maps.{held};
    ghost use Rattle.tree_model.specs.Counted.{Counts};
    ghost use Rattle.call_counter.specs.Counts.{counts_code};

    ghost Value = { Counts };

    ghost coded = { counts_code };

    ghost view = { λ counter. record {
      calls = counter.calls;
      faults = counter.faults;
      plan = Some (map.keys (held nat_cmp counter.planned));
    } };
}

impl Counter {
    /// No call and no fault, and none is planned.
    pub fn new(alloc: Global) -> Counter
        ensures { result ≡ no_counts }
    {
        Counter {
            calls: 0,
            faults: 0,
            planned: SortedMap::new(alloc),
        }
    }

    /// The count of calls.
    pub fn calls(&self) -> u64
        ensures { result ≡ self.now.calls }
    {
        self.calls
    }

    /// The count of faults.
    pub fn faults(&self) -> u64
        ensures { result ≡ self.now.faults }
    {
        self.faults
    }

    /// How many planned calls are still to come.
    pub fn left(&self) -> u64
        ensures left { IfSome self.now.plan
            (λ planned. result ≡ count_by (λ call. nat_lt self.now.calls call) planned) }
        ensures once { IfSome self.now.plan IsStrictlyIncreasing }
    {
        let calls = self.calls;
        self.planned
            .keys()
            .iter()
            .filter(|call| calls < **call)
            .count() as u64
    }

    /// Counts a call, and tells whether it is to fail.
    pub fn tick(&mut self) -> bool
        ensures plan { self.new.plan ≡ self.old.plan }
        ensures calls { self.new.calls ≡ one_more self.old.calls }
        ensures planned { IfSome self.old.plan (λ planned. IsTrue result ↔ Contains planned self.new.calls) }
        ensures faults { self.new.faults ≡ (if result then one_more self.old.faults else self.old.faults) }
        ensures never_falls { self.old.faults ≤ self.new.faults }
        ensures rose { IsTrue result → Rose self.old.faults self.new.faults }
    {
        self.calls = self.calls.saturating_add(1);
        let fails = self.planned.contains_key(self.calls);
        if fails {
            self.faults = self.faults.saturating_add(1);
        }
        fails
    }

    /// Makes the call fail that is `nth` from now, unless its number is past the end.
    pub fn plan(&mut self, nth: u64) -> Result<(), NoMemory>
        ensures planned { OnOk result (IsPlanned self.old self.new nth) }
        ensures refused { OnErr result (self.new ≡ self.old) }
    {
        if let Some(call) = self.calls.checked_add(nth) {
            self.planned.insert(call, ())?;
        }
        Ok(())
    }
}
