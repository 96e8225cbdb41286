ghost use Rattle.std.specs.Prelude.{◌≡◌, ◌≤◌, ◌<◌, ◌^◌, IsOk, IfOk, OnOk, IfSome};
ghost use Rattle.std.specs.Prelude.{MatchResult, length, count_by, nat_lt};
ghost use Rattle.std.specs.List.Sorted.{IsStrictlyIncreasing};
ghost use Rattle.tree_model.specs.Counted.{IsCounted};
ghost use Rattle.call_counter.specs.Counts.{no_counts};
ghost use Rattle.keystore_model.specs.Sealed.{encrypted, decrypted};
ghost use Rattle.keystore_model.specs.Store.{IsStore, IsLive, IsGenerated, empty_store};
ghost use Rattle.keystore_memory.specs.Format.{next_blob, numbered};

use crate::ciphers::{entry_answer, sealed_text};
use crate::entries::Entries;
use call_counter::Counter;
use keystore_model::{Decrypted, Keystore, Tag};
use std::alloc::Global;
use std::marker::Model;
use tree_model::{Blob, Bytes, DevFault, NoMemory};

/// A keystore in memory. It fails exactly the calls that were planned to fail.
#[derive(Drop)]
pub struct MemKeystore {
    entries: Entries,
    counter: Counter,
}

impl Model for MemKeystore {
    ghost use Rattle.keystore_model.specs.Store.{IsStore};
    ghost use Rattle.keystore_memory.specs.Kept.{Device};

    ghost Value = { Device };

    ghost view = { λ keystore. record { store = keystore.entries.store; counts = keystore.counter } };

    ghost invariant = { λ keystore. IsStore keystore.entries.store };
}

impl MemKeystore {
    /// No entry at level 1, no blob given, no calls, no faults and no planned call. It takes no memory.
    pub fn new(alloc: Global) -> Result<MemKeystore, NoMemory>
        ensures succeeds { IsOk result }
        ensures store { IfOk result (λ keystore. keystore.store ≡ empty_store 1) }
        ensures counts { IfOk result (λ keystore. keystore.counts ≡ no_counts) }
    {
        Ok(MemKeystore {
            entries: Entries::new(alloc),
            counter: Counter::new(alloc),
        })
    }

    /// How many planned calls are still to come: those with a number above the count of calls.
    pub fn planned_left(&self) -> u64
        ensures left { IfSome self.now.counts.plan
            (λ planned. result ≡ count_by (λ call. nat_lt self.now.counts.calls call) planned) }
        ensures once { IfSome self.now.counts.plan IsStrictlyIncreasing }
    {
        self.counter.left()
    }

    /// A text sealed under the key of the blob's entry.
    fn seal(
        &self,
        alloc: Global,
        blob: Blob,
        nonce: [u8; 12],
        text: &[u8],
    ) -> Result<Bytes, NoMemory>
        requires entry { IsLive self.now.store.entries blob }
        requires text_length { length text.now ≤ 2 ^ 32 }
        ensures { IfOk result (λ sealed. sealed ≡ encrypted self.now.store blob nonce text.now) }
    {
        match self.entries.find(blob) {
            Some(entry) => sealed_text(alloc, &entry.key, &nonce, text),
            None => unreachable!(),
        }
    }

    /// The answer to a sealed text.
    fn answer(
        &self,
        alloc: Global,
        blob: Blob,
        app_id: &[u8],
        sealed: &[u8],
    ) -> Result<Decrypted, NoMemory>
        requires whole_tag { 28 ≤ length sealed.now }
        requires sealed_length { length sealed.now ≤ 2 ^ 32 }
        ensures { IfOk result (λ answer. answer ≡ decrypted self.now.store blob app_id.now sealed.now) }
    {
        match self.entries.find(blob) {
            Some(entry) => entry_answer(alloc, self.entries.level(), entry, app_id, sealed),
            None => Ok(Decrypted::Invalid),
        }
    }
}

impl Keystore for MemKeystore {
    ghost store = { λ keystore. keystore.store };

    ghost counts = { λ keystore. keystore.counts };

    fn generate(&mut self, alloc: Global, tag: Tag, app_id: &[u8]) -> Result<Blob, DevFault>
        requires { length self.old.store.given < 2 ^ 63 }
        ensures generated { MatchResult result (IsGenerated self.old.store self.new.store tag app_id.now)
            (λ _. self.new.store ≡ self.old.store) }
        ensures blob { IfOk result (λ blob. blob ≡ next_blob self.old.store) }
        ensures numbered { OnOk result (self.new.store ≡ numbered self.old.store tag app_id.now) }
        ensures whole { IsStore self.new.store }
        ensures counted { IsCounted self.old.counts self.new.counts result }
    {
        self.entries.reserve()?;
        let app_id = Bytes::copy(alloc, app_id)?;
        if self.counter.tick() {
            return Err(DevFault::Failed);
        }
        Ok(self.entries.add(tag, app_id))
    }

    fn encrypt(
        &mut self,
        alloc: Global,
        blob: Blob,
        _app_id: &[u8],
        nonce: [u8; 12],
        text: &[u8],
    ) -> Result<Bytes, DevFault> {
        let sealed = self.seal(alloc, blob, nonce, text)?;
        if self.counter.tick() {
            return Err(DevFault::Failed);
        }
        Ok(sealed)
    }

    fn decrypt(
        &mut self,
        alloc: Global,
        blob: Blob,
        app_id: &[u8],
        sealed: &[u8],
    ) -> Result<Decrypted, DevFault> {
        let answer = self.answer(alloc, blob, app_id, sealed)?;
        if self.counter.tick() {
            return Err(DevFault::Failed);
        }
        Ok(answer)
    }

    fn delete(&mut self, blob: Blob) -> Result<(), DevFault> {
        if self.counter.tick() {
            return Err(DevFault::Failed);
        }
        self.entries.remove(blob);
        Ok(())
    }

    fn list(&mut self, alloc: Global) -> Result<Vec<(Blob, Tag)>, DevFault> {
        let rows = self.entries.list(alloc)?;
        if self.counter.tick() {
            return Err(DevFault::Failed);
        }
        Ok(rows)
    }

    fn set_level(&mut self, level: u32) {
        self.entries.set_level(level);
    }

    fn level(&self) -> u32 {
        self.entries.level()
    }

    fn level_of(&self, blob: Blob) -> Option<u32> {
        self.entries.find(blob).map(|entry| entry.level)
    }

    fn len(&self) -> u64 {
        self.entries.len() as u64
    }

    fn plan_fault(&mut self, nth: u64) -> Result<(), NoMemory> {
        self.counter.plan(nth)
    }

    fn calls(&self) -> u64 {
        self.counter.calls()
    }

    fn faults(&self) -> u64 {
        self.counter.faults()
    }
}
