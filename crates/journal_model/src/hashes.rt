ghost use Rattle.std.specs.Prelude.{◌≡◌, ◌≤◌, length, IfOk};
ghost use Rattle.sha2.specs.Hashers.{Holds512};
ghost use Rattle.journal_model.specs.Hashes.{padded_prefix, prefixed_hash, half_of, app_id_of, wrap_key_of};

use crate::secrets::Secret;
use sha2::{Digest, Sha512};
use std::alloc::Global;
use tree_model::{Bytes, NoMemory};

/// The prefix of the hash of a discardable file.
const DISCARDABLE: [u8; 29] = *b"Android secdiscardable SHA512";

/// The prefix of the hash that gives a wrapping key.
const KEY_GENERATION: [u8; 42] = *b"Android key wrapping key generation SHA512";

/// What a prefix is filled up with.
const ZEROS: [u8; 128] = [0; 128];

/// SHA-512 (FIPS 180-4, section 6.4) of the prefix, filled up with zeros to 128 bytes, and the bytes. It takes no
/// memory.
pub fn prefixed_hash(prefix: &[u8], bytes: &[u8]) -> [u8; 64]
    requires { length prefix.now ≤ 128 }
    ensures { result ≡ prefixed_hash prefix.now bytes.now }
{
    let mut hasher = after_prefix(prefix);
    hasher.update(bytes);
    hasher.finalize()
}

/// A hasher that holds the padded prefix.
pub(crate) fn after_prefix(prefix: &[u8]) -> Sha512
    requires { length prefix.now ≤ 128 }
    ensures { Holds512 result (padded_prefix prefix.now) }
{
    let mut hasher = Sha512::new_with_prefix(prefix);
    let zeros = &ZEROS[prefix.len()..];
    hasher.update(zeros);
    hasher
}

/// The first 32 bytes of a hash.
pub(crate) fn half(hash: &[u8; 64]) -> [u8; 32]
    ensures { result ≡ half_of hash.now }
{
    let mut key = [0; 32];
    key.copy_from_slice(&hash[..32]);
    key
}

/// What a directory's key is bound to: the hash of the discardable file, and the secret.
pub fn app_id(alloc: Global, discard: &[u8], secret: &Secret) -> Result<Bytes, NoMemory>
    ensures value { IfOk result (λ made. made ≡ app_id_of discard.now secret.now) }
    ensures length { IfOk result (λ made. (64 ≤ length made) × (length made ≤ 128)) }
{
    let mut bytes = Vec::from_slice(alloc, &prefixed_hash(&DISCARDABLE, discard))?;
    bytes.extend_from_slice(secret.as_slice())?;
    Ok(Bytes::from_vec(bytes))
}

/// The key that seals the directory of this app id, where it has a secret.
pub fn wrap_key(app_id: &[u8]) -> [u8; 32]
    ensures { result ≡ wrap_key_of app_id.now }
{
    half(&prefixed_hash(&KEY_GENERATION, app_id))
}
