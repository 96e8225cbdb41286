ghost use Rattle.std.specs.Prelude.{◌≡◌, IfSome, IfNone};
ghost use Rattle.journal_model.specs.Hashes.{half_of};
ghost use Rattle.keystore_memory.specs.Format.{blob_of_number, key_of_number, IsNumberOf, IsNoNumber};

use journal_model::prefixed_hash;
use tree_model::Blob;

/// The prefix of the hash that gives a key.
const KEY: [u8; 17] = *b"vold keystore key";

/// The blob of a number: its 8 bytes, high byte first, and 24 zeros.
pub fn blob_of_number(number: u64) -> Blob
    ensures { result ≡ blob_of_number number }
{
    let mut bytes = [0; 32];
    bytes[..8].copy_from_slice(&number.to_be_bytes());
    Blob::new(bytes)
}

/// The number whose blob this is; None where it is that of none.
pub fn number_of(blob: Blob) -> Option<u64>
    ensures found { IfSome result (IsNumberOf blob) }
    ensures none { IfNone result (IsNoNumber blob) }
{
    let mut high = [0; 8];
    high.copy_from_slice(&blob.bytes()[..8]);
    let number = u64::from_be_bytes(high);
    if blob_of_number(number) == blob {
        Some(number)
    } else {
        None
    }
}

/// The key of the entry with a number: the first half of the hash of that number behind a prefix of its own.
pub fn key_of_number(number: u64) -> [u8; 32]
    ensures { result ≡ key_of_number number }
{
    half(&prefixed_hash(&KEY, &number.to_be_bytes()))
}

/// The first 32 bytes of a hash.
fn half(hash: &[u8; 64]) -> [u8; 32]
    ensures { result ≡ half_of hash.now }
{
    let mut key = [0; 32];
    key.copy_from_slice(&hash[..32]);
    key
}
