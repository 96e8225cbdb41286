ghost use Rattle.std.specs.Prelude.{◌≡◌, ℕ, ◌+◌, ◌*◌, ◌≤◌, length, IfOk};
ghost use Rattle.journal_model.specs.Made.{boot_seed_of, stream_number, stream_bytes};
ghost use Rattle.journal_model.specs.Made.{key_place, nonce_place, discardable_place};
ghost use Rattle.journal_model.specs.MadeLaws.{StreamsAreApart, WordsServeOnce, MadeLengths};

use crate::hashes::{after_prefix, half};
use rand_chacha::ChaCha20Rng;
use rand_core::{Rng, SeedableRng};
use sha2::Digest;
use std::alloc::Global;
use tree_model::{Bytes, Class, NoMemory};

/// The prefix of the hash that gives a boot's seed.
const BOOT_SEED: [u8; 14] = *b"vold boot seed";

/// The words of a discardable file.
const DISCARDABLE_WORDS: u64 = 4096;

/// The seed of a boot, from that of the script. It takes no memory.
pub fn boot_seed(seed: &[u8], boot: u64) -> [u8; 32]
    ensures { result ≡ boot_seed_of seed.now boot }
{
    let mut hasher = after_prefix(&BOOT_SEED);
    hasher.update(seed);
    let number = boot.to_be_bytes();
    hasher.update(&number);
    half(&hasher.finalize())
}

/// The words `first_word` to `first_word + words - 1` of the stream of a user's command, four bytes a word and the low
/// byte first. The stream is ChaCha20 under the boot's seed, with the stream number `user * 2^32 + index`, where the
/// index is how many commands the user's actor began before this one in the boot.
pub fn made_bytes(
    alloc: Global,
    boot_seed: &[u8; 32],
    user: u32,
    index: u32,
    first_word: u64,
    words: u64,
) -> Result<Bytes, NoMemory>
    requires { first_word + words ≤ 8256 }
    ensures { IfOk result (λ made. made ≡ stream_bytes boot_seed.now (stream_number user index) first_word words) }
{
    let mut bytes = vec![in alloc; 0; 4 * words as usize]?;
    fill(boot_seed, user, index, first_word, &mut bytes);
    Ok(Bytes::from_vec(bytes))
}

/// The key of this class that the create at this index makes. It takes no memory.
pub fn made_key(boot_seed: &[u8; 32], class: Class, user: u32, index: u32) -> [u8; 64]
    ensures { result ≡ stream_bytes boot_seed.now (stream_number user index) (key_place class) 16 }
{
    let mut key = [0; 64];
    fill(boot_seed, user, index, key_place(class), &mut key);
    key
}

/// The nonce that seals the directory of this class's key. It takes no memory.
pub fn made_nonce(boot_seed: &[u8; 32], class: Class, user: u32, index: u32) -> [u8; 12]
    ensures { result ≡ stream_bytes boot_seed.now (stream_number user index) (nonce_place class) 3 }
{
    let mut nonce = [0; 12];
    fill(boot_seed, user, index, nonce_place(class), &mut nonce);
    nonce
}

/// The discardable file in the directory of this class's key, of 16384 bytes.
pub fn made_discardable(
    alloc: Global,
    boot_seed: &[u8; 32],
    class: Class,
    user: u32,
    index: u32,
) -> Result<Bytes, NoMemory>
    ensures { IfOk result (λ made.
        made ≡ stream_bytes boot_seed.now (stream_number user index) (discardable_place class) 4096) }
{
    let place = discardable_place(class);
    made_bytes(alloc, boot_seed, user, index, place, DISCARDABLE_WORDS)
}

/// Fills the bytes with words of the stream of a user's command, from the word at `place` on.
fn fill(boot_seed: &[u8; 32], user: u32, index: u32, place: u64, bytes: &mut [u8])
    ensures { (words : ℕ) → length bytes.old ≡ 4 * words → place + words ≤ 8256
        → bytes.new ≡ stream_bytes boot_seed.now (stream_number user index) place words }
{
    let mut generator = ChaCha20Rng::from_seed(*boot_seed);
    let number = u64::from(user) * (1 << 32) + u64::from(index);
    generator.set_stream(number);
    generator.set_word_pos(u128::from(place));
    generator.fill_bytes(bytes);
}

/// The first word of a class's key in the stream of the create.
fn key_place(class: Class) -> u64
    ensures { result ≡ key_place class }
{
    match class {
        Class::Ce => 0,
        Class::De => 16,
    }
}

/// The first word of the nonce for the directory of a class's key.
fn nonce_place(class: Class) -> u64
    ensures { result ≡ nonce_place class }
{
    match class {
        Class::Ce => 32,
        Class::De => 35,
    }
}

/// The first word of the discardable file for the directory of a class's key.
fn discardable_place(class: Class) -> u64
    ensures { result ≡ discardable_place class }
{
    match class {
        Class::Ce => 64,
        Class::De => 4160,
    }
}

/// Two commands of one boot have one stream only where they are one command.
pub fn law_of_streams()
    ensures { StreamsAreApart }
{}

/// No word of a stream serves twice.
pub fn law_of_words()
    ensures { WordsServeOnce }
{}

/// A key has 64 bytes, a nonce 12 and a discardable file 16384.
pub fn law_of_lengths()
    ensures { MadeLengths }
{}
