ghost use Rattle.std.specs.Prelude.{◌≡◌, ◌≤◌, ℕ, [], IsSome, IsNone, IfOk, OnOk, OnErr, MatchResult, IsErrOf};
ghost use Rattle.std.specs.FinMap as map;
ghost use Rattle.tree_model.specs.Counted.{Counts, IsCounted, IsPlanned};
ghost use Rattle.tree_model.specs.Disk.{Disk, view, with_op, synced, stopped};
ghost use Rattle.tree_model.specs.Device.{IsWritten};

use crate::files::{Dir, FileName};
use crate::memory::NoMemory;
use crate::ops::Cut;
use crate::places::Place;
use std::alloc::Global;

/// Why a call of a device didn't do its work.
#[derive(Clone, Copy, Debug, PartialEq, Eq)]
pub enum DevFault {
    /// The device failed, and its count of faults rose.
    Failed,
    /// Memory ran out; the call changed nothing and isn't counted.
    NoMemory,
}

impl From<NoMemory> for DevFault {
    ghost use Rattle.tree_model.specs.declared.device.DevFault.TheVariants.{NoMemory as WantsMemory};

    ghost from_gives = { λ _ fault. fault ≡ WantsMemory };

    fn from(_want: NoMemory) -> DevFault {
        DevFault::NoMemory
    }
}

/// What a restart found of a checkpoint.
#[derive(Clone, Copy, Debug, PartialEq, Eq)]
pub enum Boot {
    /// No checkpoint stood, and nothing changed.
    Plain,
    /// The checkpoint stands, with this number of tries left.
    Kept { tries: u32 },
    /// No try was left, and the tree is that of the checkpoint's start.
    RolledBack,
}

/// A device that keeps a tree through stops. Its view is the stable tree with the operations since the last sync. A
/// counted call answers `Failed` only where the count of faults rose in it; where the device tells its planned call
/// numbers, exactly at those. A failed call changes nothing but the counts, except that a failed `write` leaves any
/// bytes in that file, as a write of those bytes.
pub trait TreeDisk: Drop {
    ghost use Rattle.tree_model.specs.declared.ops.Op.TheVariants.{MakeDir, RenameDir, RemoveDir};
    ghost use Rattle.tree_model.specs.declared.device.Boot.TheVariants.{Plain as PlainBoot};
    ghost use Rattle.tree_model.specs.declared.device.DevFault.TheVariants.{NoMemory as WantsMemory};

    ghost disk: { Self → Disk };

    ghost counts: { Self → Counts };

    /// The places of the view, in order.
    fn list(&mut self, alloc: Global) -> Result<Vec<Place>, DevFault>
        ensures listed { IfOk result (λ places. places.items ≡ map.keys (view (disk self.old))) }
        ensures same { disk self.new ≡ disk self.old }
        ensures counted { IsCounted (counts self.old) (counts self.new) result };

    /// The files of the directory at a place of the view.
    fn read(&mut self, alloc: Global, place: Place) -> Result<Dir, DevFault>
        requires { IsSome (map.get (view (disk self.old)) place) }
        ensures found { IfOk result (λ files. map.get (view (disk self.old)) place ≡ Some files) }
        ensures same { disk self.new ≡ disk self.old }
        ensures counted { IsCounted (counts self.old) (counts self.new) result };

    /// Makes an empty directory at a place that isn't in the view.
    fn make_dir(&mut self, place: Place) -> Result<(), DevFault>
        requires { IsNone (map.get (view (disk self.old)) place) }
        ensures made { MatchResult result (λ _. disk self.new ≡ with_op (disk self.old) (MakeDir place))
            (λ _. disk self.new ≡ disk self.old) }
        ensures counted { IsCounted (counts self.old) (counts self.new) result };

    /// The file of the directory at a place of the view holds the bytes, whether or not it was there.
    fn write(&mut self, place: Place, file: FileName, bytes: &[u8]) -> Result<(), DevFault>
        requires { IsSome (map.get (view (disk self.old)) place) }
        ensures written { IsWritten (disk self.old) (disk self.new) place file bytes.now result }
        ensures counted { IsCounted (counts self.old) (counts self.new) result };

    /// The directory at `from`, which is in the view, stands at `to`, which isn't.
    fn rename_dir(&mut self, from: Place, to: Place) -> Result<(), DevFault>
        requires there { IsSome (map.get (view (disk self.old)) from) }
        requires free { IsNone (map.get (view (disk self.old)) to) }
        ensures renamed { MatchResult result (λ _. disk self.new ≡ with_op (disk self.old) (RenameDir from to))
            (λ _. disk self.new ≡ disk self.old) }
        ensures counted { IsCounted (counts self.old) (counts self.new) result };

    /// The directory at a place of the view and its files are gone.
    fn remove_dir(&mut self, place: Place) -> Result<(), DevFault>
        requires { IsSome (map.get (view (disk self.old)) place) }
        ensures removed { MatchResult result
            (λ _. disk self.new ≡ with_op (disk self.old) (RemoveDir place)) (λ _. disk self.new ≡ disk self.old) }
        ensures counted { IsCounted (counts self.old) (counts self.new) result };

    /// The view is stable. It takes no memory.
    fn sync(&mut self) -> Result<(), DevFault>
        ensures synced { MatchResult result (λ _. disk self.new ≡ synced (disk self.old))
            (λ _. disk self.new ≡ disk self.old) }
        ensures memory { ¬ (IsErrOf result WantsMemory) }
        ensures counted { IsCounted (counts self.old) (counts self.new) result };

    /// The machine stops: of the operations since the last sync the first `cut.keep` stay, each write with the bytes
    /// of its fill. It isn't counted, never fails and takes no memory.
    fn stop(&mut self, cut: Cut)
        ensures stopped { disk self.new ≡ stopped (disk self.old) cut.keep cut.fills }
        ensures counts { counts self.new ≡ counts self.old };

    /// The machine starts again. It isn't counted, never fails and takes no memory.
    fn restart(&mut self) -> Boot
        requires { (disk self.old).pending ≡ [] }
        ensures boot { result ≡ PlainBoot }
        ensures same { disk self.new ≡ disk self.old }
        ensures counts { counts self.new ≡ counts self.old };

    /// Makes the counted call fail that is `nth` from now, from 1. A device may ignore it, where it doesn't tell its
    /// planned calls. It isn't counted.
    fn plan_fault(&mut self, nth: u64) -> Result<(), NoMemory>
        requires { 1 ≤ nth }
        ensures same { disk self.new ≡ disk self.old }
        ensures planned { OnOk result (IsPlanned (counts self.old) (counts self.new) nth) }
        ensures refused { OnErr result (counts self.new ≡ counts self.old) };

    /// The number of places of the view. It isn't counted and takes no memory.
    fn len(&self) -> u64
        ensures { result ≡ map.len (view (disk self.now)) };

    /// The count of calls, which stays at 2^64 - 1.
    fn calls(&self) -> u64
        ensures { result ≡ (counts self.now).calls };

    /// The count of faults, which stays at 2^64 - 1.
    fn faults(&self) -> u64
        ensures { result ≡ (counts self.now).faults };
}
