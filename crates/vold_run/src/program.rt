ghost use Rattle.std.specs.Prelude.{◌≡◌, [], Ok, IfOk, IsErr, IsErrOf, IsOk, IsOkAnd};
ghost use Rattle.script_text.specs.Status.{number_of_status};

use script_text::Status;
use std::alloc::{AllocError, Global};
use tree_model::NoMemory;
use vold_io::SinkFault;

/// Why the words of the command line were not read.
#[derive(Clone, Copy, Debug, PartialEq, Eq)]
pub enum WordsFault {
    /// One of them isn't text.
    NoText,
    /// Memory ran out.
    NoMemory,
}

impl From<AllocError> for WordsFault {
    ghost use Rattle.vold_run.specs.declared.program.WordsFault.TheVariants.{NoMemory as WantsMemory};

    ghost from_gives = { λ _ fault. fault ≡ WantsMemory };

    fn from(_error: AllocError) -> WordsFault {
        WordsFault::NoMemory
    }
}

/// The words that a run is asked with: those that were read, and none where one of them isn't text, which no run
/// accepts.
pub fn asked_words(
    alloc: Global,
    words: Result<Vec<String>, WordsFault>,
) -> Result<Vec<String>, NoMemory>
    ensures read { IfOk words (λ given. result ≡ Ok given) }
    ensures no_text { IsErrOf words WordsFault.NoText → IsOkAnd result (λ asked. asked.items ≡ []) }
    ensures no_memory { IsErrOf words WordsFault.NoMemory → IsErr result }
{
    match words {
        Ok(given) => Ok(given),
        Err(WordsFault::NoText) => Ok(Vec::new(alloc)),
        Err(WordsFault::NoMemory) => Err(NoMemory),
    }
}

/// The number that the program ends with: that of the run's status, but that of a write fault where the output could
/// not be flushed behind the run. Where memory ran out before the run there is no status.
pub fn exit_number(ended: Result<Status, NoMemory>, flushed: Result<(), SinkFault>) -> u8
    ensures no_memory { IsErr ended → result ≡ number_of_status Status.NoMemory }
    ensures unflushed { IsOk ended → IsErr flushed → result ≡ number_of_status Status.WriteFault }
    ensures ended { IsOk flushed → IfOk ended (λ status. result ≡ number_of_status status) }
{
    let status = match (ended, flushed) {
        (Err(NoMemory), _) => Status::NoMemory,
        (Ok(_), Err(_)) => Status::WriteFault,
        (Ok(status), Ok(())) => status,
    };
    status.number()
}
