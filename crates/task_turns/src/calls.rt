use deferred_delete::Item;
use keystore_model::{Decrypted, Tag};
use step_core::JobOutput;
use tree_model::{Blob, Bytes, Class, Dir, LocalOp, Place};

/// A counted call of a device, as a task names it.
#[derive(Drop)]
pub enum Call {
    /// An operation on the places of a user.
    Op {
        user: u32,
        op: LocalOp,
        /// The blob that a temporary directory names which the operation renames, where it names one.
        names: Option<Blob>,
    },
    /// A sync of the tree.
    Sync,
    /// A list of the tree's places.
    List,
    /// The directory at a place is read.
    Read(Place),
    /// The keystore makes an entry of this tag and app id.
    Generate {
        tag: Tag,
        app_id: Bytes,
    },
    /// The keystore seals the key under the blob's entry.
    Encrypt {
        blob: Blob,
        app_id: Bytes,
        nonce: [u8; 12],
        key: [u8; 64],
    },
    /// The keystore opens a sealed key under the blob's entry.
    Decrypt {
        blob: Blob,
        app_id: Bytes,
        sealed: Bytes,
    },
    /// A list of the keystore's entries.
    Entries,
    /// The keystore's entry of a listed item's blob is deleted, and the item leaves the list.
    Delete {
        item: Item,
        /// Whether the command tells where the keystore failed; else it goes on, and the item stays listed.
        tells: bool,
    },
    /// The ring gets a user's key.
    Add {
        user: u32,
        class: Class,
        key: [u8; 64],
    },
    /// The user's key leaves the ring.
    Remove {
        user: u32,
        class: Class,
    },
}

/// What a task hears of what it did.
#[derive(Drop)]
pub enum Answer {
    /// It was done, and there is nothing to tell of it.
    Done,
    /// The key is in the ring.
    Installed,
    /// The directory that was read.
    Directory(Dir),
    /// The blob of the entry that was made.
    Blob(Blob),
    /// The nonce, the ciphertext and its tag: 92 bytes.
    Sealed(Bytes),
    /// What the keystore opened.
    Decrypted(Decrypted),
    /// What the job computed.
    Output(JobOutput),
}
