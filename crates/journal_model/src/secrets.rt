ghost use Rattle.std.specs.Prelude.{◌≡◌, ◌≤◌, ◌↔◌, [], IsSome, IfSome, IfOk, length};

use std::alloc::Global;
use std::marker::Model;
use tree_model::{Bytes, NoMemory};

/// A user's secret: at most 64 bytes. The empty one stands for none.
#[derive(Drop)]
pub struct Secret {
    bytes: Bytes,
}

impl Model for Secret {
    ghost use Rattle.std.specs.Prelude.{List, ℕ, ◌≤◌, length};

    ghost Value = { List ℕ };

    ghost view = { λ secret. secret.bytes };

    ghost invariant = { λ secret. length secret.bytes ≤ 64 };
}

impl Secret {
    /// The most bytes that a secret has.
    pub const MAX_LEN: usize = 64;

    /// The secret of these bytes; None exactly above 64 of them.
    pub fn new(bytes: Bytes) -> Option<Secret>
        ensures short { IsSome result ↔ (length bytes ≤ 64) }
        ensures same { IfSome result (λ secret. secret ≡ bytes) }
    {
        if bytes.as_slice().len() <= Secret::MAX_LEN {
            Some(Secret { bytes })
        } else {
            None
        }
    }

    /// The empty secret.
    pub fn empty(alloc: Global) -> Secret
        ensures { result ≡ [] }
    {
        Secret {
            bytes: Bytes::from_vec(Vec::new(alloc)),
        }
    }

    /// The secret's bytes.
    pub fn as_slice(&self) -> &[u8]
        ensures same { result.now ≡ self.now }
        ensures short { length self.now ≤ 64 }
    {
        self.bytes.as_slice()
    }

    /// The same secret in memory of its own.
    pub fn duplicate(&self, alloc: Global) -> Result<Secret, NoMemory>
        ensures { IfOk result (λ copied. copied ≡ self.now) }
    {
        Ok(Secret {
            bytes: Bytes::copy(alloc, self.bytes.as_slice())?,
        })
    }
}
