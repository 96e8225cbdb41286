ghost use Rattle.std.specs.Io.KnownBytes.{append_known, prepend_known, IsAtEnd};
ghost use Rattle.std.specs.Prelude.{◌<◌, ◌≡◌, ◌≤◌, ◌++◌, ℕ, List, length, take, vec_len, IfOk, IsErrOf, OnErr, OnOk};
ghost use Rattle.vold_io.specs.Counted.{CountsFaults};
ghost use Rattle.vold_io.specs.Transfers.{AddsFront, LosesAtMost};
ghost use Rattle.vold_io.specs.declared.transfers.ReadFault.TheVariants.{Failed as ReadFailed};
ghost use Rattle.vold_io.specs.declared.transfers.ReadFault.TheVariants.{NoMemory as WantsMemory};

use crate::sink::{Sink, SinkFault};
use crate::source::{Failed, Source};
use std::alloc::Global;
use tree_model::NoMemory;

/// How many bytes are asked for at a time.
const PIECE: usize = 4096;

/// Why a source was not read.
#[derive(Clone, Copy, Debug, PartialEq, Eq)]
pub enum ReadFault {
    /// A read failed.
    Failed,
    /// Memory ran out.
    NoMemory,
}

impl From<Failed> for ReadFault {
    ghost from_gives = { λ _ fault. fault ≡ ReadFailed };

    fn from(_error: Failed) -> ReadFault {
        ReadFault::Failed
    }
}

impl From<NoMemory> for ReadFault {
    ghost from_gives = { λ _ fault. fault ≡ WantsMemory };

    fn from(_error: NoMemory) -> ReadFault {
        ReadFault::NoMemory
    }
}

/// Reads up to the end of the source or until `limit` bytes came, whichever is first. It never asks for more than is
/// left of the limit.
///
/// # Errors
///
/// `Failed` where a read failed, and the source's count of faults rose; `NoMemory` where memory ran out. What was read
/// until then is taken from the source and lost.
pub fn read_at_most<S: Source>(
    alloc: Global,
    source: &mut S,
    limit: usize,
) -> Result<Vec<u8>, ReadFault>
    ensures within { IfOk result (λ bytes. vec_len bytes ≤ limit) }
    ensures taken { IfOk result (λ bytes. S.rest source.old ≡ prepend_known bytes.items (S.rest source.new)) }
    ensures whole { IfOk result (λ bytes. vec_len bytes < limit → IsAtEnd (S.rest source.new)) }
    ensures at_most { LosesAtMost limit (S.rest source.old) (S.rest source.new) }
    ensures faults { CountsFaults (IsErrOf result ReadFault.Failed) (S.fault_count source.old)
        (S.fault_count source.new) }
    ensures steady { S.never_fails source.old → S.never_fails source.new × ¬ (IsErrOf result ReadFault.Failed) }
{
    let mut bytes = Vec::new(alloc);
    let mut buffer = [0; PIECE];
    while bytes.len() < limit {
        let room = (limit - bytes.len()).min(PIECE);
        let count = source.read(&mut buffer[..room])?;
        if count == 0 {
            return Ok(bytes);
        }
        append(&mut bytes, &buffer[..count])?;
    }
    Ok(bytes)
}

/// Adds bytes at the end.
fn append(bytes: &mut Vec<u8>, more: &[u8]) -> Result<(), NoMemory>
    ensures { OnOk result (bytes.new.items ≡ bytes.old.items ++ more.now) }
{
    bytes.extend_from_slice(more)?;
    Ok(())
}

/// Writes all of the bytes.
///
/// # Errors
///
/// `Failed` where a write failed, and the sink's count of faults rose; `NoMemory` where memory ran out for the sink,
/// since nothing else wants any. The sink took a front of the bytes then.
pub fn write_all<K: Sink>(sink: &mut K, bytes: &[u8]) -> Result<(), SinkFault>
    ensures all { OnOk result (K.taken sink.new ≡ append_known (K.taken sink.old) bytes.now) }
    ensures front { OnErr result (AddsFront bytes.now (K.taken sink.old) (K.taken sink.new)) }
    ensures faults { CountsFaults (IsErrOf result SinkFault.Failed) (K.fault_count sink.old) (K.fault_count sink.new) }
    ensures steady { K.never_fails sink.old → K.never_fails sink.new × ¬ (IsErrOf result SinkFault.Failed) }
    ensures sparing { K.wants_no_memory sink.old → K.wants_no_memory sink.new × ¬ (IsErrOf result SinkFault.NoMemory) }
{
    let mut written = 0;
    while written < bytes.len() {
        written += sink.write(&bytes[written..])?;
    }
    Ok(())
}
