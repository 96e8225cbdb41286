ghost use Rattle.std.specs.Prelude.{◌≡◌, ◌↔◌, ◌+◌, IsTrue, IfOk, IfErr, IsErrOf, map, codes};
ghost use Rattle.std.specs.String.{string_bytes};
ghost use Rattle.vold_io.specs.Transfers.{LosesAtMost};
ghost use Rattle.vold_run.specs.Input.{most_bytes, IsAccepted, IsCause, ScriptCame, IsReading};

use script_text::{Script, Status, read_script};
use std::alloc::Global;
use vold_io::{ReadFault, Source, read_at_most};

/// The most bytes that a script has.
pub const MOST_BYTES: usize = 1_048_576;

/// The script that the words ask for and the source gives. Where there is none, the status that tells why.
pub fn script_of<S: Source>(
    alloc: Global,
    words: &[String],
    source: &mut S,
) -> Result<Script, Status>
    ensures script { IfOk result
        (λ lines. IsAccepted (map string_bytes words.now) × ScriptCame (S.rest source.old) (S.rest source.new) lines) }
    ensures cause { IfErr result
        (IsCause (map string_bytes words.now) (S.rest source.old) (S.rest source.new) (S.fault_count source.old)
        (S.fault_count source.new)) }
    ensures unread { IsErrOf result Status.Usage → source.new ≡ source.old }
    ensures at_most { LosesAtMost (most_bytes + 1) (S.rest source.old) (S.rest source.new) }
    ensures steady { S.never_fails source.old → ¬ (IsErrOf result Status.ReadFault) }
{
    if !is_accepted(words) {
        return Err(Status::Usage);
    }
    match read_at_most(alloc, source, MOST_BYTES + 1) {
        Ok(bytes) => script_in(alloc, bytes.as_slice()),
        Err(ReadFault::Failed) => Err(Status::ReadFault),
        Err(ReadFault::NoMemory) => Err(Status::NoMemory),
    }
}

/// Whether the words ask for a run.
fn is_accepted(words: &[String]) -> bool
    ensures { IsTrue result ↔ IsAccepted (map string_bytes words.now) }
{
    match words {
        [word] => is_run(word.as_bytes()),
        _ => false,
    }
}

fn is_run(word: &[u8]) -> bool
    ensures { IsTrue result ↔ (word.now ≡ codes "run") }
{
    word == b"run".as_slice()
}

/// The script that the bytes are the text of.
fn script_in(alloc: Global, bytes: &[u8]) -> Result<Script, Status>
    ensures { IsReading bytes.now result }
{
    if bytes.len() > MOST_BYTES {
        return Err(Status::BadScript);
    }
    match read_script(alloc, bytes) {
        Ok(Some(script)) => Ok(script),
        Ok(None) => Err(Status::BadScript),
        Err(_) => Err(Status::NoMemory),
    }
}
