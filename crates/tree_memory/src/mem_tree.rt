ghost use Rattle.std.specs.Prelude.{◌≡◌, ◌↔◌, [], IsTrue, IsSome, IfSome, IfOk, IsOk};
ghost use Rattle.std.specs.Prelude.{IsErrOf, MatchResult, count_by, nat_lt};
ghost use Rattle.std.specs.List.Sorted.{IsStrictlyIncreasing};
ghost use Rattle.std.specs.FinMap as map;
ghost use Rattle.tree_model.specs.Counted.{IsCounted};
ghost use Rattle.tree_model.specs.Disk.{view, with_op};
ghost use Rattle.tree_model.specs.Device.{IsWritten};
ghost use Rattle.call_counter.specs.Counts.{no_counts};
ghost use Rattle.tree_memory.specs.Medium.{empty_disk};

use crate::layers::Layers;
use call_counter::Counter;
use std::alloc::Global;
use std::marker::Model;
use tree_model::{Boot, Bytes, Cut, DevFault, Dir, FileName, NoMemory, Op, Place, TreeDisk};

/// A tree device in memory. It fails exactly the calls that were planned to fail; a write that fails leaves its file
/// with no bytes.
#[derive(Drop)]
pub struct MemTree {
    alloc: Global,
    layers: Layers,
    counter: Counter,
}

impl Model for MemTree {
    ghost use Rattle.tree_memory.specs.Medium.{Medium, medium_code};

    ghost Value = { Medium };

    ghost coded = { medium_code };

    ghost view = { λ tree. record { disk = tree.layers.disk; counts = tree.counter } };
}

impl MemTree {
    /// An empty tree with nothing pending, no calls, no faults and no planned call. It takes no memory.
    pub fn new(alloc: Global) -> Result<MemTree, NoMemory>
        ensures succeeds { IsOk result }
        ensures disk { IfOk result (λ tree. tree.disk ≡ empty_disk) }
        ensures counts { IfOk result (λ tree. tree.counts ≡ no_counts) }
    {
        Ok(MemTree {
            alloc,
            layers: Layers::new(alloc),
            counter: Counter::new(alloc),
        })
    }

    /// Whether the place is in the view.
    pub fn has(&self, place: Place) -> bool
        ensures { IsTrue result ↔ IsSome (map.get (view self.now.disk) place) }
    {
        self.layers.has(place)
    }

    /// How many planned calls are still to come: those with a number above the count of calls.
    pub fn planned_left(&self) -> u64
        ensures left { IfSome self.now.counts.plan
            (λ planned. result ≡ count_by (λ call. nat_lt self.now.counts.calls call) planned) }
        ensures once { IfSome self.now.counts.plan IsStrictlyIncreasing }
    {
        self.counter.left()
    }

    /// Makes the operation, which is given twice, unless the call fails. There is memory for it.
    fn make(&mut self, now: Op, later: Op) -> Result<(), DevFault>
        requires { later ≡ now }
        ensures made { MatchResult result (λ _. self.new.disk ≡ with_op self.old.disk now)
            (λ _. self.new.disk ≡ self.old.disk) }
        ensures counted { IsCounted self.old.counts self.new.counts result }
    {
        self.layers.prepare()?;
        if self.counter.tick() {
            return Err(DevFault::Failed);
        }
        self.layers.record(now, later);
        Ok(())
    }
}

impl TreeDisk for MemTree {
    ghost disk = { λ tree. tree.disk };

    ghost counts = { λ tree. tree.counts };

    fn list(&mut self, alloc: Global) -> Result<Vec<Place>, DevFault> {
        let places = Vec::from_slice(alloc, self.layers.places()).map_err(NoMemory::from)?;
        if self.counter.tick() {
            return Err(DevFault::Failed);
        }
        Ok(places)
    }

    fn read(&mut self, alloc: Global, place: Place) -> Result<Dir, DevFault> {
        let dir = self.layers.dir(place).duplicate(alloc)?;
        if self.counter.tick() {
            return Err(DevFault::Failed);
        }
        Ok(dir)
    }

    fn make_dir(&mut self, place: Place) -> Result<(), DevFault> {
        self.make(Op::MakeDir(place), Op::MakeDir(place))
    }

    fn write(&mut self, place: Place, file: FileName, bytes: &[u8]) -> Result<(), DevFault>
        requires { IsSome (map.get (view self.old.disk) place) }
        ensures written { IsWritten self.old.disk self.new.disk place file bytes.now result }
        ensures counted { IsCounted self.old.counts self.new.counts result }
        ensures torn { IsErrOf result DevFault.Failed
            → self.new.disk ≡ with_op self.old.disk (Op.Write place file []) }
    {
        let now = Bytes::copy(self.alloc, bytes)?;
        let later = Bytes::copy(self.alloc, bytes)?;
        self.layers.prepare()?;
        if self.counter.tick() {
            self.layers.tear(place, file);
            return Err(DevFault::Failed);
        }
        self.layers
            .record(Op::Write(place, file, now), Op::Write(place, file, later));
        Ok(())
    }

    fn rename_dir(&mut self, from: Place, to: Place) -> Result<(), DevFault> {
        self.make(Op::RenameDir(from, to), Op::RenameDir(from, to))
    }

    fn remove_dir(&mut self, place: Place) -> Result<(), DevFault> {
        self.make(Op::RemoveDir(place), Op::RemoveDir(place))
    }

    fn sync(&mut self) -> Result<(), DevFault> {
        if self.counter.tick() {
            return Err(DevFault::Failed);
        }
        self.layers.sync();
        Ok(())
    }

    fn stop(&mut self, cut: Cut) {
        self.layers.stop(cut);
    }

    fn restart(&mut self) -> Boot {
        Boot::Plain
    }

    fn plan_fault(&mut self, nth: u64) -> Result<(), NoMemory> {
        self.counter.plan(nth)
    }

    fn len(&self) -> u64 {
        self.layers.len() as u64
    }

    fn calls(&self) -> u64 {
        self.counter.calls()
    }

    fn faults(&self) -> u64 {
        self.counter.faults()
    }
}
