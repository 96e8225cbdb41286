// The key stream (section 6.5).

ghost use Rattle.std.specs.Prelude.{◌≡◌, ℕ, ◌+◌, ◌*◌, ◌^◌, ◌<◌, ◌≤◌, List, [], length, slice_index_or, IfOk};
ghost use Rattle.seal_model.specs.Aes.{encrypt};
ghost use Rattle.seal_model.specs.Gcm.{counter_block, encrypted};
ghost use Rattle.aes_gcm.specs.Stream.{partly_encrypted, with_block_added};

use aes_block::Aes256;
use std::alloc::{AllocError, Global};

/// The counter block whose last 32 bits are `count`.
pub fn counter_block(nonce: &[u8; 12], count: u32) -> [u8; 16]
    ensures { result ≡ counter_block nonce.now count }
{
    let n = nonce;
    let [a, b, c, d] = count.to_be_bytes();
    [
        n[0], n[1], n[2], n[3], n[4], n[5], n[6], n[7], n[8], n[9], n[10], n[11], a, b, c, d,
    ]
}

/// The text with the key stream added, in memory for `spare` bytes more.
pub fn add_key_stream(
    alloc: Global,
    cipher: &Aes256,
    nonce: &[u8; 12],
    text: &[u8],
    spare: usize,
) -> Result<Vec<u8>, AllocError>
    requires text_length { length text.now ≤ 2 ^ 32 }
    requires spare_length { spare ≤ 16 }
    ensures { IfOk result (λ output. output.items ≡ encrypted cipher.now nonce.now text.now) }
{
    let mut output = Vec::with_capacity(alloc, text.len() + spare)?;
    output.extend_from_slice(text)?;
    add_streams(cipher, nonce, output.as_mut_slice());
    Ok(output)
}

// Adds the key stream, sixteen blocks at a time and the rest block by block.
fn add_streams(cipher: &Aes256, nonce: &[u8; 12], text: &mut [u8])
    requires { length text.old ≤ 2 ^ 32 }
    ensures { text.new ≡ encrypted cipher.now nonce.now text.old }
{
    let groups = text.len() / 256;
    add_groups(cipher, nonce, groups, text);
    for index in 16 * groups..text.len().div_ceil(16) {
        let stream = cipher.encrypt_block(counter_block(nonce, index as u32 + 2));
        add_stream(stream, index, text);
    }
}

// Adds the first `groups` groups of sixteen blocks of the key stream.
fn add_groups(cipher: &Aes256, nonce: &[u8; 12], groups: usize, text: &mut [u8])
    requires in_text { 256 * groups ≤ length text.old }
    requires text_length { length text.old ≤ 2 ^ 32 }
    ensures { text.new ≡ partly_encrypted cipher.now nonce.now text.old (16 * groups) }
{
    for group in 0..groups {
        add_group(cipher, nonce, 16 * group, text);
    }
}

// Adds the sixteen blocks of the key stream from block `first` on, from 0, where those before them are added.
fn add_group(cipher: &Aes256, nonce: &[u8; 12], first: usize, text: &mut [u8])
    requires in_text { 16 * first + 256 ≤ length text.old }
    requires text_length { length text.old ≤ 2 ^ 32 }
    ensures { (original : List ℕ) → text.old ≡ partly_encrypted cipher.now nonce.now original first
        → text.new ≡ partly_encrypted cipher.now nonce.now original (first + 16) }
{
    let streams = key_streams(cipher, nonce, first);
    for k in 0..16 {
        add_stream(streams[k], first + k, text);
    }
}

// Sixteen blocks of the key stream from block `first` on, from 0.
fn key_streams(cipher: &Aes256, nonce: &[u8; 12], first: usize) -> [[u8; 16]; 16]
    requires { first < 2 ^ 28 }
    ensures { (k : ℕ) → k < 16
        → slice_index_or result k [] ≡ encrypt cipher.now (counter_block nonce.now (first + k + 2)) }
{
    let mut blocks = [[0; 16]; 16];
    for k in 0..16 {
        blocks[k] = counter_block(nonce, (first + k) as u32 + 2);
    }
    cipher.encrypt16(&mut blocks);
    blocks
}

// Adds a block of the key stream to block `index` of the text, from 0, or to as much of it as there is.
fn add_stream(stream: [u8; 16], index: usize, text: &mut [u8])
    requires { 16 * index < length text.old }
    ensures { text.new ≡ with_block_added text.old index stream }
{
    let start = 16 * index;
    let len = (text.len() - start).min(16);
    for k in 0..len {
        text[start + k] ^= stream[k];
    }
}
