ghost use Rattle.std.specs.Prelude.{◌≡◌, ◌≤◌, ◌<◌, ◌^◌, IfOk, OnOk, OnErr, MatchResult, IsErrOf, length};
ghost use Rattle.tree_model.specs.Counted.{Counts, IsCounted, IsPlanned};
ghost use Rattle.keystore_model.specs.Sealed.{encrypted, decrypted};
ghost use Rattle.keystore_model.specs.Store.{Store, IsStore, IsGenerated, IsCurrent};
ghost use Rattle.keystore_model.specs.Store.{deleted, at_level, level_at, listed};

use crate::entry::{Decrypted, Tag};
use std::alloc::Global;
use tree_model::{Blob, Bytes, DevFault, NoMemory};

/// A device that keeps keys and seals with them. No key leaves it: an entry is named by its blob, and each use gives
/// the entry's app id too.
///
/// A counted call answers `Failed` only where the count of faults rose in it; where the device tells its planned call
/// numbers, exactly at those. A failed call changes nothing but the counts. What the device tells is always a store:
/// the blobs that it gave differ, those of its entries are among them, and no two entries have one blob.
pub trait Keystore: Drop {
    ghost use Rattle.tree_model.specs.declared.device.DevFault.TheVariants.{NoMemory as WantsMemory};

    ghost store: { Self → Store };

    ghost counts: { Self → Counts };

    /// Makes a last entry at the store's level, under a key of its own, and answers its blob, which was never given.
    fn generate(&mut self, alloc: Global, tag: Tag, app_id: &[u8]) -> Result<Blob, DevFault>
        requires { length (store self.old).given < 2 ^ 63 }
        ensures generated { MatchResult result (IsGenerated (store self.old) (store self.new) tag app_id.now)
            (λ _. store self.new ≡ store self.old) }
        ensures whole { IsStore (store self.new) }
        ensures counted { IsCounted (counts self.old) (counts self.new) result };

    /// The nonce, and then the ciphertext of the text and its tag by AES-256-GCM under the entry's key, without
    /// additional data. A nonce serves one text under a key.
    fn encrypt(
        &mut self,
        alloc: Global,
        blob: Blob,
        app_id: &[u8],
        nonce: [u8; 12],
        text: &[u8],
    ) -> Result<Bytes, DevFault>
        requires entry { IsCurrent (store self.old) blob app_id.now }
        requires text_length { length text.now ≤ 2 ^ 32 }
        ensures encrypted { IfOk result (λ sealed. sealed ≡ encrypted (store self.old) blob nonce text.now) }
        ensures same { store self.new ≡ store self.old }
        ensures whole { IsStore (store self.new) }
        ensures counted { IsCounted (counts self.old) (counts self.new) result };

    /// Opens a nonce of 12 bytes with a ciphertext and its tag: `Invalid` exactly where there is no entry of this
    /// blob, or it has another app id, or a level above the store's; else `NeedsUpgrade` exactly where its level is
    /// below the store's; else `BadTag` exactly where the tag is another; else the text.
    fn decrypt(
        &mut self,
        alloc: Global,
        blob: Blob,
        app_id: &[u8],
        sealed: &[u8],
    ) -> Result<Decrypted, DevFault>
        requires whole_tag { 28 ≤ length sealed.now }
        requires sealed_length { length sealed.now ≤ 2 ^ 32 }
        ensures decrypted { IfOk result (λ answer. answer ≡ decrypted (store self.old) blob app_id.now sealed.now) }
        ensures same { store self.new ≡ store self.old }
        ensures whole { IsStore (store self.new) }
        ensures counted { IsCounted (counts self.old) (counts self.new) result };

    /// There is no entry of this blob, whether or not there was one. It takes no memory.
    fn delete(&mut self, blob: Blob) -> Result<(), DevFault>
        ensures deleted { MatchResult result (λ _. store self.new ≡ deleted (store self.old) blob)
            (λ _. store self.new ≡ store self.old) }
        ensures memory { ¬ (IsErrOf result WantsMemory) }
        ensures whole { IsStore (store self.new) }
        ensures counted { IsCounted (counts self.old) (counts self.new) result };

    /// The blobs and tags of the entries, in order.
    fn list(&mut self, alloc: Global) -> Result<Vec<(Blob, Tag)>, DevFault>
        ensures listed { IfOk result (λ rows. rows.items ≡ listed (store self.old)) }
        ensures same { store self.new ≡ store self.old }
        ensures whole { IsStore (store self.new) }
        ensures counted { IsCounted (counts self.old) (counts self.new) result };

    /// The store is at this level, from 1. It isn't counted, never fails and takes no memory.
    fn set_level(&mut self, level: u32)
        requires { 1 ≤ level }
        ensures level { store self.new ≡ at_level (store self.old) level }
        ensures whole { IsStore (store self.new) }
        ensures counts { counts self.new ≡ counts self.old };

    /// The store's level. It isn't counted and takes no memory.
    fn level(&self) -> u32
        ensures level { result ≡ (store self.now).level }
        ensures whole { IsStore (store self.now) };

    /// The level of the blob's entry; None exactly where there is none. It isn't counted and takes no memory.
    fn level_of(&self, blob: Blob) -> Option<u32>
        ensures level { result ≡ level_at (store self.now) blob }
        ensures whole { IsStore (store self.now) };

    /// The number of entries. It isn't counted and takes no memory.
    fn len(&self) -> u64
        ensures count { result ≡ length (store self.now).entries }
        ensures whole { IsStore (store self.now) };

    /// Makes the counted call fail that is `nth` from now, from 1. A device may ignore it, where it doesn't tell its
    /// planned calls. It isn't counted.
    fn plan_fault(&mut self, nth: u64) -> Result<(), NoMemory>
        requires { 1 ≤ nth }
        ensures same { store self.new ≡ store self.old }
        ensures whole { IsStore (store self.new) }
        ensures planned { OnOk result (IsPlanned (counts self.old) (counts self.new) nth) }
        ensures refused { OnErr result (counts self.new ≡ counts self.old) };

    /// The count of calls, which stays at 2^64 - 1.
    fn calls(&self) -> u64
        ensures { result ≡ (counts self.now).calls };

    /// The count of faults, which stays at 2^64 - 1.
    fn faults(&self) -> u64
        ensures { result ≡ (counts self.now).faults };
}
