ghost use Rattle.std.specs.Prelude.{◌≡◌, IfOk};

use journal_model::Secret;
use keystore_model::Tag;
use std::alloc::Global;
use step_core::Job;
use tree_model::{Blob, Bytes, LocalOp, NoMemory, Place};

/// What is to be stored, and where.
#[derive(Drop)]
pub struct StoreSpec {
    /// The place of the directory, which isn't the temporary one.
    pub target: Place,
    /// Whose key it is.
    pub tag: Tag,
    /// The key.
    pub key: [u8; 64],
    /// The secret that protects it; the empty one where an entry of the keystore does.
    pub secret: Secret,
    /// The nonce that it is sealed with.
    pub nonce: [u8; 12],
    /// The discardable file: 16,384 bytes.
    pub discard: Bytes,
}

impl StoreSpec {
    /// The same in memory of its own.
    pub fn duplicate(&self, alloc: Global) -> Result<StoreSpec, NoMemory>
        ensures { IfOk result (λ copied. copied ≡ self.now) }
    {
        Ok(StoreSpec {
            target: self.target,
            tag: self.tag,
            key: self.key,
            secret: self.secret.duplicate(alloc)?,
            nonce: self.nonce,
            discard: Bytes::copy(alloc, self.discard.as_slice())?,
        })
    }
}

/// What a task does next.
#[derive(Drop)]
pub enum Doing {
    /// A computation.
    Work(Job),
    /// The keystore makes an entry of this tag and app id.
    Generate {
        tag: Tag,
        app_id: Bytes,
    },
    /// The keystore seals the key under the blob's entry.
    Encrypt {
        blob: Blob,
        app_id: Bytes,
        nonce: [u8; 12],
        key: [u8; 64],
    },
    /// An operation on the places of the tag's user.
    Tree(LocalOp),
    /// Everything that is pending becomes stable.
    Sync,
}
