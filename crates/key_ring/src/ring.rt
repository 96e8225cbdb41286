ghost use Rattle.std.specs.Prelude.{◌≡◌, ◌≤◌, [], OnOk, OnErr, MatchResult, IsErrOf, length, slice_get, option_copied};
ghost use Rattle.tree_model.specs.Counted.{Counts, IsCounted, IsPlanned};
ghost use Rattle.key_ring.specs.Ring.{Ring, IsRing, installed, removed, key_of, owners};

use std::alloc::Global;
use tree_model::{Class, DevFault, NoMemory};

/// A device that holds the keys of users who are unlocked, each of 64 bytes, in the order of their installation. A
/// stop of the machine clears it.
///
/// A counted call answers `Failed` only where the count of faults rose in it; where the device tells its planned call
/// numbers, exactly at those. A failed call changes nothing but the counts. What the device tells is always a ring:
/// each user and class at most once.
pub trait KeyRing: Drop {
    ghost use Rattle.tree_model.specs.declared.device.DevFault.TheVariants.{NoMemory as WantsMemory};

    ghost ring: { Self → Ring };

    ghost counts: { Self → Counts };

    /// Installs the key last; where one is installed for this user and class, it takes that one's place.
    fn add(
        &mut self,
        alloc: Global,
        user: u32,
        class: Class,
        key: &[u8; 64],
    ) -> Result<(), DevFault>
        ensures added { MatchResult result (λ _. ring self.new ≡ installed (ring self.old) user class key.now)
            (λ _. ring self.new ≡ ring self.old) }
        ensures counted { IsCounted (counts self.old) (counts self.new) result };

    /// No key of this user and class is installed, whether or not one was, and the others keep their order. It takes
    /// no memory.
    fn remove(&mut self, user: u32, class: Class) -> Result<(), DevFault>
        ensures removed { MatchResult result (λ _. ring self.new ≡ removed (ring self.old) user class)
            (λ _. ring self.new ≡ ring self.old) }
        ensures memory { ¬ (IsErrOf result WantsMemory) }
        ensures counted { IsCounted (counts self.old) (counts self.new) result };

    /// The key of a user and class; None exactly where none is installed. It isn't counted and takes no memory.
    fn get(&self, user: u32, class: Class) -> Option<&[u8; 64]>
        ensures key { option_copied result ≡ key_of (ring self.now) user class };

    /// The user and class of the key at a place, from 0; None exactly past the end. It isn't counted and takes no
    /// memory.
    fn at(&self, place: usize) -> Option<(u32, Class)>
        ensures owner { result ≡ slice_get (owners (ring self.now)) place };

    /// The number of keys. It isn't counted and takes no memory.
    fn len(&self) -> usize
        ensures count { result ≡ length (ring self.now) };

    /// No key is left, as after a stop. It isn't counted, never fails and takes no memory.
    fn clear(&mut self)
        ensures cleared { ring self.new ≡ [] }
        ensures counts { counts self.new ≡ counts self.old };

    /// Makes the counted call fail that is `nth` from now, from 1. A device may ignore it, where it doesn't tell its
    /// planned calls. It isn't counted.
    fn plan_fault(&mut self, nth: u64) -> Result<(), NoMemory>
        requires { 1 ≤ nth }
        ensures same { ring self.new ≡ ring self.old }
        ensures planned { OnOk result (IsPlanned (counts self.old) (counts self.new) nth) }
        ensures refused { OnErr result (counts self.new ≡ counts self.old) };

    /// The count of calls, which stays at 2^64 - 1.
    fn calls(&self) -> u64
        ensures { result ≡ (counts self.now).calls };

    /// The count of faults, which stays at 2^64 - 1.
    fn faults(&self) -> u64
        ensures { result ≡ (counts self.now).faults };

    ghost whole: { (device : Self) → IsRing (ring device) };
}
