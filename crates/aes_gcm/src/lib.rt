//! AES-256-GCM (SP 800-38D) with a nonce of 96 bits and a tag of 128: the key stream by sixteen blocks and GHASH by
//! eight over lanes, and the rest block by block.
//!
//! No claim is made on time, or on what a cache shows of a key.
#![tactic(auto)]

mod counter;
mod field;
mod hash;
mod lanes;

ghost use Rattle.std.specs.Prelude.{◌≡◌, ◌^◌, ◌≤◌, length, IfOk};
ghost use Rattle.seal_model.specs.Gcm.{blocks_of, ghash, seal, tag, unseal};

use crate::counter::{add_key_stream, counter_block};
use crate::field::Factor;
use crate::hash::{absorb, absorb_block, element_of, lengths_block};
use aes_block::Aes256;
use std::alloc::Global;
use tree_model::{Bytes, NoMemory};

/// GHASH of the bytes, filled up with zeros to whole blocks (section 6.4).
pub fn ghash(h: [u8; 16], bytes: &[u8]) -> [u8; 16]
    ensures { result ≡ ghash h (blocks_of bytes.now) }
{
    let h = Factor::new(element_of(h));
    absorb(0, &h, bytes).to_be_bytes()
}

/// The ciphertext of a text and its tag (section 7.1), in memory for these alone.
///
/// A nonce serves one text under a key.
pub fn seal(
    alloc: Global,
    key: &[u8; 32],
    nonce: &[u8; 12],
    aad: &[u8],
    text: &[u8],
) -> Result<Bytes, NoMemory>
    requires aad_length { length aad.now ≤ 2 ^ 32 }
    requires text_length { length text.now ≤ 2 ^ 32 }
    ensures { IfOk result (λ sealed. sealed ≡ seal key.now nonce.now aad.now text.now) }
{
    let cipher = Aes256::new(key);
    let mut sealed = add_key_stream(alloc, &cipher, nonce, text, TAG_LEN)?;
    let tag = tag(&cipher, nonce, aad, sealed.as_slice());
    sealed.extend_from_slice(&tag)?;
    Ok(Bytes::from_vec(sealed))
}

/// The text of a sealed text (section 7.2), in memory for it alone. `None` where the sealed text has fewer than 16
/// bytes, or another tag than its ciphertext's.
pub fn open(
    alloc: Global,
    key: &[u8; 32],
    nonce: &[u8; 12],
    aad: &[u8],
    sealed: &[u8],
) -> Result<Option<Bytes>, NoMemory>
    requires aad_length { length aad.now ≤ 2 ^ 32 }
    requires sealed_length { length sealed.now ≤ 2 ^ 32 }
    ensures answer { IfOk result (λ opened. opened ≡ unseal key.now nonce.now aad.now sealed.now) }

    // Where the sealed text opens to nothing the answer is None, and never NoMemory.
    ensures refused { unseal key.now nonce.now aad.now sealed.now ≡ None → result ≡ Ok None }
{
    let Some((ciphertext, expected)) = sealed.split_last_chunk::<16>() else {
        return Ok(None);
    };
    let cipher = Aes256::new(key);
    if *expected != tag(&cipher, nonce, aad, ciphertext) {
        return Ok(None);
    }
    let text = add_key_stream(alloc, &cipher, nonce, ciphertext, 0)?;
    Ok(Some(Bytes::from_vec(text)))
}

const TAG_LEN: usize = 16;

// The tag of a ciphertext.
fn tag(cipher: &Aes256, nonce: &[u8; 12], aad: &[u8], ciphertext: &[u8]) -> [u8; 16]
    requires aad_length { length aad.now ≤ 2 ^ 32 }
    requires ciphertext_length { length ciphertext.now ≤ 2 ^ 32 }
    ensures { result ≡ tag cipher.now nonce.now aad.now ciphertext.now }
{
    let h = Factor::new(element_of(cipher.encrypt_block([0; 16])));
    let sum = absorb(0, &h, aad);
    let sum = absorb(sum, &h, ciphertext);
    let sum = absorb_block(sum, &h, lengths_block(aad.len(), ciphertext.len()));
    let mask = u128::from_be_bytes(cipher.encrypt_block(counter_block(nonce, 1)));
    (sum ^ mask).to_be_bytes()
}

#[cfg(test)]
mod tests;
