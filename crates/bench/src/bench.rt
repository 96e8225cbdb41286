ghost use Rattle.std.specs.Prelude.{◌≡◌, ◌+◌, ◌^◌, ◌<◌, [], Bool, true, length, Contains, IsSome};
ghost use Rattle.std.specs.FinMap as map;
ghost use Rattle.bench.specs.Bench.{Fits, IsMade, AreCounted, device_of, told_of, dropped};
ghost use Rattle.bench.specs.Seen.{seen_by, senses_by, marks_told, IsUnread, Makes, BringsWhole, AnswersWhole};
ghost use Rattle.deferred_delete.specs.Deferral.{Deferral};
ghost use Rattle.keystore_model.specs.Store.{IsCurrent};
ghost use Rattle.step_core.specs.Table.{empty_table};
ghost use Rattle.task_turns.specs.declared.calls.Call.TheVariants.{Op, Sync, List as ListCall, Read};
ghost use Rattle.task_turns.specs.declared.calls.Call.TheVariants.{Generate, Encrypt, Decrypt, Entries, Add, Remove};
ghost use Rattle.task_turns.specs.declared.calls.Call.TheVariants.{Delete};
ghost use Rattle.tree_model.specs.Disk.{view};
ghost use Rattle.tree_model.specs.Parts.{part_of, LocalFits};

use crate::drops::{dropped_blobs, list_dropped};
use crate::follow::{follow, list_anew};
use crate::made::Made;
use crate::operations::{failure, operate, read_blob};
use crate::unnamed::{list_unnamed, named_blobs};
use deferred_delete::{Deferred, Item};
use journal_model::Device;
use key_directory::shapes;
use key_ring::KeyRing;
use keystore_model::{Keystore, Tag};
use std::alloc::Global;
use step_core::Table;
use task_turns::{Answer, Call};
use tree_model::{Blob, Class, LocalOp, NoMemory, Place, TreeDisk};

/// The devices, and what is known of them without a call.
#[derive(Drop)]
pub struct Bench<T: TreeDisk, K: Keystore, G: KeyRing> {
    pub tree: T,
    pub store: K,
    pub ring: G,
    /// The seed of the boot.
    pub seed: [u8; 32],
    /// The blobs whose deletion waits.
    pub list: Deferred,
    /// The places of the tree's view, with the blobs that they name.
    pub table: Table,
}

impl<T: TreeDisk, K: Keystore, G: KeyRing> Bench<T, K, G> {
    /// The devices, of which nothing is known, and no blob is listed.
    pub fn new(tree: T, store: K, ring: G, seed: [u8; 32], alloc: Global) -> Bench<T, K, G>
        ensures tree { result.tree ≡ tree }
        ensures store { result.store ≡ store }
        ensures ring { result.ring ≡ ring }
        ensures seed { result.seed ≡ seed }
        ensures list { result.list ≡ record { items = []; next = 0; promised = 0 } }
        ensures table { result.table ≡ empty_table }
    {
        Bench {
            tree,
            store,
            ring,
            seed,
            list: Deferred::new(alloc),
            table: Table::new(alloc),
        }
    }

    /// Makes the one call of its device, and follows it in the table and in the list. All memory that this takes is
    /// taken before the call, but for what the device hands out.
    pub fn make(&mut self, alloc: Global, call: &Call) -> Result<Made, NoMemory>
        requires fits { Fits (seen_by T.disk T.counts K.store K.counts G.ring G.counts self.old) call.now }
        ensures made { IsMade (seen_by T.disk T.counts K.store K.counts G.ring G.counts self.old)
            (seen_by T.disk T.counts K.store K.counts G.ring G.counts self.new) call.now result }
        ensures counted { AreCounted (seen_by T.disk T.counts K.store K.counts G.ring G.counts self.old)
            (seen_by T.disk T.counts K.store K.counts G.ring G.counts self.new) (device_of call.now) (told_of result) }
        ensures seed { self.new.seed ≡ self.old.seed }
        ensures marks { self.new.table.marks ≡ marks_told self.old.table.marks call.now result }
        ensures dirty { self.new.table.dirty ≡ self.old.table.dirty }
        ensures unread { IsUnread self.new.table.places call.now result }
        ensures brings { BringsWhole call.now }
        ensures answers { AnswersWhole result }
    {
        match call {
            Call::Op { user, op, names } => self.operate(alloc, *user, op, *names),
            Call::Sync => self.sync(),
            Call::List => self.list_places(alloc),
            Call::Read(place) => self.read(alloc, *place),
            Call::Generate { tag, app_id } => self.generate(alloc, *tag, app_id.as_slice()),
            Call::Encrypt {
                blob,
                app_id,
                nonce,
                key,
            } => self.encrypt(alloc, *blob, app_id.as_slice(), *nonce, *key),
            Call::Decrypt {
                blob,
                app_id,
                sealed,
            } => self.decrypt(alloc, *blob, app_id.as_slice(), sealed.as_slice()),
            Call::Entries => self.list_entries(alloc),
            Call::Delete { item, .. } => self.delete(*item),
            Call::Add { user, class, key } => self.add(alloc, *user, *class, key),
            Call::Remove { user, class } => self.remove(*user, *class),
        }
    }

    /// Makes the operation on the user's places, the table follows it, and the blobs that it drops are listed.
    fn operate(
        &mut self,
        alloc: Global,
        user: u32,
        op: &LocalOp,
        names: Option<Blob>,
    ) -> Result<Made, NoMemory>
        requires fits { LocalFits (part_of (view (T.disk self.old.tree)) user) op.now }
        requires few { self.old.list.next + self.old.list.promised
            + length (dropped self.old.table.places user op.now) < 2 ^ 63 }
        ensures { Makes (senses_by T.disk T.counts K.store K.counts G.ring G.counts)
            self.old self.new (Op user op.now names) result }
    {
        read_blob(&names);
        let drops = dropped_blobs(alloc, &self.table, user, op)?;
        let wanted = drops.len() as u64;
        self.table.reserve(1)?;
        self.list.reserve(wanted)?;
        match operate(&mut self.tree, user, op) {
            Ok(()) => {
                follow(&mut self.table, user, op, names);
                list_dropped(&mut self.list, drops.as_slice());
                Ok(Made::Heard(Answer::Done))
            }
            Err(fault) => {
                self.list.give_back(wanted);
                failure(Device::Tree, fault)
            }
        }
    }

    /// Syncs the tree: no listed blob waits for a sync any more, and nobody is marked.
    fn sync(&mut self) -> Result<Made, NoMemory>
        ensures { Makes (senses_by T.disk T.counts K.store K.counts G.ring G.counts) self.old self.new Sync result }
    {
        match self.tree.sync() {
            Ok(()) => {
                self.list.note_sync();
                self.table.unmark_all();
                Ok(Made::Heard(Answer::Done))
            }
            Err(fault) => failure(Device::Tree, fault),
        }
    }

    /// Lists the places of the view, which are those of the table from then on.
    fn list_places(&mut self, alloc: Global) -> Result<Made, NoMemory>
        ensures { Makes (senses_by T.disk T.counts K.store K.counts G.ring G.counts)
            self.old self.new ListCall result }
    {
        self.table.reserve(self.tree.len())?;
        match self.tree.list(alloc) {
            Ok(places) => {
                list_anew(&mut self.table, places.as_slice());
                Ok(Made::Heard(Answer::Done))
            }
            Err(fault) => failure(Device::Tree, fault),
        }
    }

    /// Reads the directory at the place, and the table has the blob that it names.
    fn read(&mut self, alloc: Global, place: Place) -> Result<Made, NoMemory>
        requires { IsSome (map.get (view (T.disk self.old.tree)) place) }
        ensures { Makes (senses_by T.disk T.counts K.store K.counts G.ring G.counts)
            self.old self.new (Read place) result }
    {
        self.table.reserve(1)?;
        match self.tree.read(alloc, place) {
            Ok(dir) => {
                self.table.put(place, shapes::named(&dir));
                Ok(Made::Heard(Answer::Directory(dir)))
            }
            Err(fault) => failure(Device::Tree, fault),
        }
    }

    /// Makes an entry of the keystore.
    fn generate(&mut self, alloc: Global, tag: Tag, app_id: &[u8]) -> Result<Made, NoMemory>
        requires { length (K.store self.old.store).given < 2 ^ 63 }
        ensures { Makes (senses_by T.disk T.counts K.store K.counts G.ring G.counts) self.old self.new
            (Generate tag app_id.now) result }
    {
        match self.store.generate(alloc, tag, app_id) {
            Ok(blob) => {
                read_blob(&Some(blob));
                Ok(Made::Heard(Answer::Blob(blob)))
            }
            Err(fault) => failure(Device::Store, fault),
        }
    }

    /// Seals the key under the blob's entry.
    fn encrypt(
        &mut self,
        alloc: Global,
        blob: Blob,
        app_id: &[u8],
        nonce: [u8; 12],
        key: [u8; 64],
    ) -> Result<Made, NoMemory>
        requires entry { IsCurrent (K.store self.old.store) blob app_id.now }
        ensures { Makes (senses_by T.disk T.counts K.store K.counts G.ring G.counts) self.old self.new
            (Encrypt blob app_id.now nonce key) result }
    {
        match self
            .store
            .encrypt(alloc, blob, app_id, nonce, key.as_slice())
        {
            Ok(sealed) => Ok(Made::Heard(Answer::Sealed(sealed))),
            Err(fault) => failure(Device::Store, fault),
        }
    }

    /// Opens a sealed key under the blob's entry.
    fn decrypt(
        &mut self,
        alloc: Global,
        blob: Blob,
        app_id: &[u8],
        sealed: &[u8],
    ) -> Result<Made, NoMemory>
        requires long { length sealed.now ≡ 92 }
        ensures { Makes (senses_by T.disk T.counts K.store K.counts G.ring G.counts) self.old self.new
            (Decrypt blob app_id.now sealed.now) result }
    {
        match self.store.decrypt(alloc, blob, app_id, sealed) {
            Ok(opened) => Ok(Made::Heard(Answer::Decrypted(opened))),
            Err(fault) => failure(Device::Store, fault),
        }
    }

    /// Lists the entries of the keystore, and puts the blobs of those on the list that no known place names.
    fn list_entries(&mut self, alloc: Global) -> Result<Made, NoMemory>
        requires { self.old.list.next + self.old.list.promised + length (K.store self.old.store).entries < 2 ^ 63 }
        ensures { Makes (senses_by T.disk T.counts K.store K.counts G.ring G.counts) self.old self.new Entries result }
    {
        let named = named_blobs(alloc, &self.table)?;
        let count = self.store.len();
        self.list.reserve(count)?;
        match self.store.list(alloc) {
            Ok(rows) => {
                list_unnamed(&mut self.list, named.as_slice(), rows.as_slice());
                Ok(Made::Heard(Answer::Done))
            }
            Err(fault) => {
                self.list.give_back(count);
                failure(Device::Store, fault)
            }
        }
    }

    /// Deletes the keystore's entry of a listed item's blob, and the item leaves the list.
    fn delete(&mut self, item: Item) -> Result<Made, NoMemory>
        requires listed { Contains self.old.list.items item }
        requires synced { item.synced ≡ true }
        ensures { (tells : Bool) → Makes (senses_by T.disk T.counts K.store K.counts G.ring G.counts) self.old self.new
            (Delete item tells) result }
    {
        match self.store.delete(item.blob) {
            Ok(()) => {
                self.list.take(item.number);
                Ok(Made::Heard(Answer::Done))
            }
            Err(fault) => failure(Device::Store, fault),
        }
    }

    /// Installs the user's key.
    fn add(
        &mut self,
        alloc: Global,
        user: u32,
        class: Class,
        key: &[u8; 64],
    ) -> Result<Made, NoMemory>
        ensures { Makes (senses_by T.disk T.counts K.store K.counts G.ring G.counts) self.old self.new
            (Add user class key.now) result }
    {
        match self.ring.add(alloc, user, class, key) {
            Ok(()) => Ok(Made::Heard(Answer::Installed)),
            Err(fault) => failure(Device::Ring, fault),
        }
    }

    /// Takes the user's key out.
    fn remove(&mut self, user: u32, class: Class) -> Result<Made, NoMemory>
        ensures { Makes (senses_by T.disk T.counts K.store K.counts G.ring G.counts) self.old self.new
            (Remove user class) result }
    {
        match self.ring.remove(user, class) {
            Ok(()) => Ok(Made::Heard(Answer::Done)),
            Err(fault) => failure(Device::Ring, fault),
        }
    }
}
