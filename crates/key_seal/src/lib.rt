//! Does jobs: app ids, and keys sealed and opened with AES-256-GCM (SP 800-38D) under the wrapping key of an app id.
#![tactic(auto)]

ghost use Rattle.std.specs.Prelude.{◌≡◌, ◌≤◌, ◌+◌, ◌^◌, ◌↔◌, length, IsTrue, IfOk, IfErr};
ghost use Rattle.journal_model.specs.Hashes.{app_id_of, wrap_key_of};
ghost use Rattle.seal_model.specs.Sealed.{sealed_text};
ghost use Rattle.journal_model.specs.Sealed.{key_of, unsealed_key};
ghost use Rattle.step_core.specs.Jobs.{output_of};
ghost use Rattle.key_seal.specs.Small.{IsSmall};

use aes_gcm::{open, seal};
use journal_model::{Secret, app_id, wrap_key};
use std::alloc::Global;
use step_core::{Job, JobDone, JobInput, JobOutput};
use tree_model::{Bytes, NoMemory};

/// The most bytes of a sealed key that a job may open: 2^32 behind the nonce.
const MAX_SEALED: usize = 4294967308;

/// Does a job. Its number and its input stay, and the output is the one that its input defines. Where memory runs out
/// the job comes back as it was.
pub fn perform(alloc: Global, job: Job) -> Result<JobDone, (Job, NoMemory)>
    requires small { IsSmall job.input }
    // A clause sees what is done as its job, whose input defines the output.
    ensures done { IfOk result (λ done. done ≡ job) }
    ensures refused { IfErr result (λ refused. refused.0 ≡ job) }
{
    match output(alloc, &job.input) {
        Ok(output) => Ok(JobDone::new(job, output)),
        Err(want) => Err((job, want)),
    }
}

/// Whether the ciphers can take what a job has to compute from. All but a sealed key of more than 2^32 + 12 bytes is.
pub fn is_small(input: &JobInput) -> bool
    ensures { IsTrue result ↔ IsSmall input.now }
{
    match input {
        JobInput::Unseal { sealed, .. } => sealed.as_slice().len() <= MAX_SEALED,
        _ => true,
    }
}

/// What an input defines as its output.
fn output(alloc: Global, input: &JobInput) -> Result<JobOutput, NoMemory>
    requires small { IsSmall input.now }
    ensures { IfOk result (λ output. output ≡ output_of input.now) }
{
    match input {
        JobInput::AppId { discard, secret } => {
            let made = app_id(alloc, discard.as_slice(), secret)?;
            Ok(JobOutput::AppId(made))
        }
        JobInput::Seal {
            discard,
            secret,
            nonce,
            key,
        } => {
            let wrap = wrap_key_for(alloc, discard, secret)?;
            Ok(JobOutput::Sealed(seal_key(alloc, &wrap, nonce, key)?))
        }
        JobInput::Unseal {
            discard,
            secret,
            sealed,
        } => {
            let wrap = wrap_key_for(alloc, discard, secret)?;
            Ok(JobOutput::Opened(open_key(alloc, &wrap, sealed.as_slice())?))
        }
    }
}

/// The wrapping key of the app id of a discardable file and a secret.
fn wrap_key_for(alloc: Global, discard: &Bytes, secret: &Secret) -> Result<[u8; 32], NoMemory>
    ensures { IfOk result (λ wrap. wrap ≡ wrap_key_of (app_id_of discard.now secret.now)) }
{
    let app_id = app_id(alloc, discard.as_slice(), secret)?;
    Ok(wrap_key(app_id.as_slice()))
}

/// The nonce, and the key sealed with it.
fn seal_key(
    alloc: Global,
    wrap: &[u8; 32],
    nonce: &[u8; 12],
    key: &[u8; 64],
) -> Result<Bytes, NoMemory>
    ensures { IfOk result (λ sealed. sealed ≡ sealed_text wrap.now nonce.now key.now) }
{
    let sealed = seal(alloc, wrap, nonce, &[], key)?;
    let mut bytes = Vec::from_slice(alloc, nonce)?;
    bytes.extend_from_slice(sealed.as_slice())?;
    Ok(Bytes::from_vec(bytes))
}

/// The key of 64 bytes that a sealed key opens to, if it does.
fn open_key(alloc: Global, wrap: &[u8; 32], sealed: &[u8]) -> Result<Option<[u8; 64]>, NoMemory>
    requires short { length sealed.now ≤ 2 ^ 32 + 12 }
    ensures { IfOk result (λ opened. opened ≡ unsealed_key wrap.now sealed.now) }
{
    let Some((nonce, rest)) = sealed.split_first_chunk::<12>() else {
        return Ok(None);
    };
    match open(alloc, wrap, nonce, &[], rest)? {
        Some(text) => Ok(key_in(text.as_slice())),
        None => Ok(None),
    }
}

/// The text as a key, if it has a key's length.
fn key_in(text: &[u8]) -> Option<[u8; 64]>
    ensures { result ≡ key_of text.now }
{
    if text.len() != 64 {
        return None;
    }
    let mut key = [0; 64];
    key.copy_from_slice(text);
    Some(key)
}

#[cfg(test)]
mod tests;
