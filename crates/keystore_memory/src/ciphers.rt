ghost use Rattle.std.specs.Prelude.{◌≡◌, ◌≤◌, ◌^◌, IfOk, length, option_copied};
ghost use Rattle.seal_model.specs.Sealed.{sealed_text, unsealed};
ghost use Rattle.keystore_model.specs.Sealed.{text_or, entry_answer};

use aes_gcm::{open, seal};
use keystore_model::{Decrypted, StoreEntry};
use std::alloc::Global;
use tree_model::{Bytes, NoMemory};

/// The nonce, and then the ciphertext of the text and its tag under the key.
pub fn sealed_text(
    alloc: Global,
    key: &[u8; 32],
    nonce: &[u8; 12],
    text: &[u8],
) -> Result<Bytes, NoMemory>
    requires { length text.now ≤ 2 ^ 32 }
    ensures { IfOk result (λ sealed. sealed ≡ sealed_text key.now nonce.now text.now) }
{
    let sealed = seal(alloc, key, nonce, &[], text)?;
    let mut bytes = Vec::from_slice(alloc, nonce)?;
    bytes.extend_from_slice(sealed.as_slice())?;
    Ok(Bytes::from_vec(bytes))
}

/// What an entry answers to a sealed text at a keystore's level.
pub fn entry_answer(
    alloc: Global,
    level: u32,
    entry: &StoreEntry,
    app_id: &[u8],
    sealed: &[u8],
) -> Result<Decrypted, NoMemory>
    requires whole_tag { 28 ≤ length sealed.now }
    requires sealed_length { length sealed.now ≤ 2 ^ 32 }
    ensures { IfOk result (λ answer. answer ≡ entry_answer level app_id.now sealed.now entry.now) }
{
    if app_id != entry.app_id.as_slice() {
        return Ok(Decrypted::Invalid);
    }
    if entry.level > level {
        return Ok(Decrypted::Invalid);
    }
    if entry.level < level {
        return Ok(Decrypted::NeedsUpgrade);
    }
    Ok(text_or(open_text(alloc, &entry.key, sealed)?))
}

fn text_or(text: Option<Bytes>) -> Decrypted
    ensures { result ≡ text_or text }
{
    match text {
        Some(text) => Decrypted::Key(text),
        None => Decrypted::BadTag,
    }
}

/// The text of a sealed text under the key; None where its tag is another.
fn open_text(alloc: Global, key: &[u8; 32], sealed: &[u8]) -> Result<Option<Bytes>, NoMemory>
    requires whole_tag { 28 ≤ length sealed.now }
    requires sealed_length { length sealed.now ≤ 2 ^ 32 }
    ensures { IfOk result (λ text. text ≡ unsealed key.now sealed.now) }
{
    let mut nonce = [0; 12];
    nonce.copy_from_slice(&sealed[..12]);
    open(alloc, key, &nonce, &[], &sealed[12..])
}
