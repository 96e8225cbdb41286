ghost use Rattle.std.specs.Prelude.{◌≡◌};
ghost use Rattle.key_ring.specs.Reference.{key_ref};

use sha2::{Digest, Sha512};

/// The name by which a file system finds a key: the first 8 bytes of SHA-512 (FIPS 180-4, section 6.4) of SHA-512 of
/// the key. It takes no memory.
pub fn key_ref(raw: &[u8; 64]) -> [u8; 8]
    ensures { result ≡ key_ref raw.now }
{
    let hash = Sha512::digest(raw.as_slice());
    let hash_of_hash = Sha512::digest(hash.as_slice());
    let mut name = [0; 8];
    name.copy_from_slice(&hash_of_hash[..8]);
    name
}
