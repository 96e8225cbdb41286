ghost use Rattle.std.specs.Prelude.{◌≡◌, IfOk};
ghost use Rattle.journal_model.specs.Sealed.{key_of as key_in_text};
ghost use Rattle.key_directory.specs.Opened.{key_in_answer};
ghost use Rattle.open_task.specs.Task.{stage_after, after_job, opened, skips};

use keystore_model::Decrypted;
use std::alloc::Global;
use step_core::{Job, JobOutput};
use task_turns::Answer;
use tree_model::{Blob, Bytes, Dir, NoMemory, Slot};

/// Where a task stands: what is known by then.
#[derive(Drop)]
pub enum Stage {
    /// The next slot is to be read.
    Reading,
    /// Its directory.
    Read(Dir),
    /// And the app id of its blob's entry.
    Tied(Dir, Bytes),
    /// The key of the first slot that opens.
    Opened([u8; 64]),
}

/// What a task does next.
#[derive(Drop)]
pub enum Doing {
    /// The directory in a slot of the user is read.
    Read(Slot),
    /// A computation.
    Work(Job),
    /// The keystore opens the sealed key under the blob's entry.
    Decrypt {
        blob: Blob,
        app_id: Bytes,
        sealed: Bytes,
    },
}

impl Stage {
    /// What it is after an answer; the same where this answers nothing. A slot that didn't open is left for the next.
    pub fn after(self, answer: Answer) -> Stage
        ensures { result ≡ stage_after self answer }
    {
        match self {
            Stage::Reading => match answer {
                Answer::Directory(dir) => Stage::Read(dir),
                _ => Stage::Reading,
            },
            Stage::Read(dir) => match answer {
                Answer::Output(output) => Stage::after_job(dir, output),
                _ => Stage::Read(dir),
            },
            Stage::Tied(dir, app_id) => match answer {
                Answer::Decrypted(told) => Stage::opened(key_in_answer(&told)),
                _ => Stage::Tied(dir, app_id),
            },
            Stage::Opened(key) => Stage::Opened(key),
        }
    }

    fn after_job(dir: Dir, output: JobOutput) -> Stage
        ensures { result ≡ after_job dir output }
    {
        match output {
            JobOutput::AppId(app_id) => Stage::Tied(dir, app_id),
            JobOutput::Opened(key) => Stage::opened(key),
            JobOutput::Sealed(_) => Stage::Read(dir),
        }
    }

    fn opened(key: Option<[u8; 64]>) -> Stage
        ensures { result ≡ opened key }
    {
        match key {
            Some(key) => Stage::Opened(key),
            None => Stage::Reading,
        }
    }

    /// How many slots are passed over on the way to it: one where the next is to be read.
    pub fn skips(&self) -> usize
        ensures { result ≡ skips self.now }
    {
        match self {
            Stage::Reading => 1,
            _ => 0,
        }
    }

    /// The same stage in memory of its own.
    pub fn duplicate(&self, alloc: Global) -> Result<Stage, NoMemory>
        ensures { IfOk result (λ copied. copied ≡ self.now) }
    {
        Ok(match self {
            Stage::Reading => Stage::Reading,
            Stage::Read(dir) => Stage::Read(dir.duplicate(alloc)?),
            Stage::Tied(dir, app_id) => {
                Stage::Tied(
                    dir.duplicate(alloc)?,
                    Bytes::copy(alloc, app_id.as_slice())?,
                )
            }
            Stage::Opened(key) => Stage::Opened(*key),
        })
    }
}

/// The key in a keystore's answer, where it is one of 64 bytes.
fn key_in_answer(told: &Decrypted) -> Option<[u8; 64]>
    ensures { result ≡ key_in_answer told.now }
{
    match told {
        Decrypted::Key(text) => key_in(text.as_slice()),
        _ => None,
    }
}

/// The text as a key, if it has a key's length.
fn key_in(text: &[u8]) -> Option<[u8; 64]>
    ensures { result ≡ key_in_text text.now }
{
    if text.len() != 64 {
        return None;
    }
    let mut key = [0; 64];
    key.copy_from_slice(text);
    Some(key)
}
