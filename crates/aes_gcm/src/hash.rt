// GHASH (section 6.4), eight blocks at a time by powers over lanes, and the rest block by block by Horner's rule.

ghost use Rattle.std.specs.Prelude.{◌≡◌, ℕ, ◌+◌, ◌-◌, ◌*◌, ◌^◌, ◌<◌, ◌≤◌, ◌++◌, [], ◌∷◌, map, length};
ghost use Rattle.std.specs.Int.{w64, to_be_bytes};
ghost use Rattle.seal_model.specs.Polynomial.{bits};
ghost use Rattle.seal_model.specs.Gcm.{blocks_of, first_blocks, padded, polynomial_of, power};
ghost use Rattle.aes_gcm.specs.Hash.{Adds, block, blocks_from};
ghost use Rattle.aes_gcm.specs.Lanes.{element};

use crate::field::Factor;
use crate::lanes::Elements;

/// The element of a block.
pub fn element_of(block: [u8; 16]) -> u128
    ensures { bits 128 result ≡ polynomial_of block }
{
    u128::from_be_bytes(block)
}

/// The sum with one more block.
pub fn absorb_block(sum: u128, h: &Factor, block: [u8; 16]) -> u128
    ensures { Adds (bits 128 h.now) (bits 128 sum) (bits 128 result) (polynomial_of block ∷ []) }
{
    h.times(sum ^ element_of(block))
}

/// The sum with the blocks of `bytes`, the last one filled up with zeros.
pub fn absorb(sum: u128, h: &Factor, bytes: &[u8]) -> u128
    ensures { Adds (bits 128 h.now) (bits 128 sum) (bits 128 result) (map polynomial_of (blocks_of bytes.now)) }
{
    let groups = bytes.len() / 128;
    let mut total = absorb_groups(sum, h, bytes, groups);
    for index in 8 * groups..bytes.len().div_ceil(16) {
        total = h.times(total ^ element_at(bytes, index));
    }
    total
}

// The sum with the blocks of the first `groups` groups of eight.
fn absorb_groups(sum: u128, h: &Factor, bytes: &[u8], groups: usize) -> u128
    requires { 128 * groups ≤ length bytes.now }
    ensures { Adds (bits 128 h.now) (bits 128 sum) (bits 128 result)
        (map polynomial_of (first_blocks (8 * groups) bytes.now)) }
{
    if groups == 0 {
        return sum;
    }
    let powers = Elements::new(h.powers());
    let mut total = sum;
    for group in 0..groups {
        total = absorb_eight(total, h, powers, bytes, 8 * group);
    }
    total
}

// The sum with the eight blocks of `bytes` from `index` on: each times its power, the sum so far added to the first.
fn absorb_eight(sum: u128, h: &Factor, powers: Elements, bytes: &[u8], index: usize) -> u128
    requires in_bytes { 16 * index + 128 ≤ length bytes.now }
    requires are_powers { (j : ℕ) → j < 8
        → bits 128 (element powers.high powers.low j) ≡ power (bits 128 h.now) (8 - j) }
    ensures { Adds (bits 128 h.now) (bits 128 sum) (bits 128 result)
        (map polynomial_of (blocks_from 8 index bytes.now)) }
{
    let blocks = Elements::new([
        sum ^ element_at(bytes, index),
        element_at(bytes, index + 1),
        element_at(bytes, index + 2),
        element_at(bytes, index + 3),
        element_at(bytes, index + 4),
        element_at(bytes, index + 5),
        element_at(bytes, index + 6),
        element_at(bytes, index + 7),
    ]);
    blocks.times(powers).sum()
}

// The element of block `index` of `bytes`, filled up with zeros.
fn element_at(bytes: &[u8], index: usize) -> u128
    requires { 16 * index < length bytes.now }
    ensures { bits 128 result ≡ polynomial_of (block bytes.now index) }
{
    let rest = &bytes[16 * index..];
    match rest.split_first_chunk::<16>() {
        Some((block, _)) => element_of(*block),
        None => element_of(filled(rest)),
    }
}

// A part of a block, filled up with zeros.
fn filled(part: &[u8]) -> [u8; 16]
    requires { length part.now < 16 }
    ensures { result ≡ padded part.now }
{
    let mut block = [0; 16];
    block[..part.len()].copy_from_slice(part);
    block
}

/// The block of two lengths in bits.
pub fn lengths_block(aad_len: usize, text_len: usize) -> [u8; 16]
    requires aad { aad_len ≤ 2 ^ 32 }
    requires text { text_len ≤ 2 ^ 32 }
    ensures { result ≡ to_be_bytes w64 (8 * aad_len) ++ to_be_bytes w64 (8 * text_len) }
{
    let [a, b, c, d, e, f, g, h] = (8 * aad_len).to_be_bytes();
    let [i, j, k, l, m, n, o, p] = (8 * text_len).to_be_bytes();
    [a, b, c, d, e, f, g, h, i, j, k, l, m, n, o, p]
}
