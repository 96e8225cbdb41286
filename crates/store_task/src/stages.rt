ghost use Rattle.std.specs.Prelude.{◌≡◌, IfOk};
ghost use Rattle.store_task.specs.Task.{stage_after, after_first, progress_after};

use std::alloc::Global;
use step_core::JobOutput;
use task_turns::Answer;
use tree_model::{Blob, Bytes, NoMemory};

/// How far the directory is, once its key is sealed.
#[derive(Clone, Copy, Debug, PartialEq, Eq)]
pub enum Progress {
    /// It isn't there.
    Absent,
    /// The temporary directory was made.
    Made,
    /// It holds its version.
    Versioned,
    /// It holds its discardable file.
    Discardable,
    /// It holds its blob.
    Named,
    /// It holds its sealed key, and so every file.
    Keyed,
    /// It was synced.
    Settled,
    /// It is at its place.
    Stored,
}

/// Where a task stands: what is known by then.
#[derive(Drop)]
pub enum Stage {
    /// Nothing.
    First,
    /// The app id.
    Tied(Bytes),
    /// The app id, and the blob of the entry that was made.
    Generated(Bytes, Blob),
    /// The blob, where there is one, and the sealed key; and how far the directory is.
    Storing(Option<Blob>, Bytes, Progress),
}

impl Progress {
    /// What it is after one more operation or sync; whether the directory names a blob.
    pub fn after(self, bound: bool) -> Progress
        ensures { result ≡ progress_after bound self }
    {
        match self {
            Progress::Absent => Progress::Made,
            Progress::Made => Progress::Versioned,
            Progress::Versioned => Progress::Discardable,
            Progress::Discardable => {
                if bound {
                    Progress::Named
                } else {
                    Progress::Keyed
                }
            }
            Progress::Named => Progress::Keyed,
            Progress::Keyed => Progress::Settled,
            Progress::Settled | Progress::Stored => Progress::Stored,
        }
    }
}

impl Stage {
    /// The same stage in memory of its own.
    pub fn duplicate(&self, alloc: Global) -> Result<Stage, NoMemory>
        ensures { IfOk result (λ copied. copied ≡ self.now) }
    {
        Ok(match self {
            Stage::First => Stage::First,
            Stage::Tied(app_id) => Stage::Tied(Bytes::copy(alloc, app_id.as_slice())?),
            Stage::Generated(app_id, blob) => {
                Stage::Generated(Bytes::copy(alloc, app_id.as_slice())?, *blob)
            }
            Stage::Storing(blob, sealed, progress) => {
                Stage::Storing(*blob, Bytes::copy(alloc, sealed.as_slice())?, *progress)
            }
        })
    }

    /// What it is after an answer; the same where this answers nothing.
    pub fn after(self, answer: Answer) -> Stage
        ensures { result ≡ stage_after self answer }
    {
        match self {
            Stage::First => Stage::after_first(answer),
            Stage::Tied(app_id) => match answer {
                Answer::Blob(blob) => Stage::Generated(app_id, blob),
                _ => Stage::Tied(app_id),
            },
            Stage::Generated(app_id, blob) => match answer {
                Answer::Sealed(sealed) => Stage::Storing(Some(blob), sealed, Progress::Absent),
                _ => Stage::Generated(app_id, blob),
            },
            Stage::Storing(blob, sealed, progress) => match answer {
                Answer::Done => Stage::Storing(blob, sealed, progress.after(blob.is_some())),
                _ => Stage::Storing(blob, sealed, progress),
            },
        }
    }

    fn after_first(answer: Answer) -> Stage
        ensures { result ≡ after_first answer }
    {
        match answer {
            Answer::Output(JobOutput::AppId(app_id)) => Stage::Tied(app_id),
            Answer::Output(JobOutput::Sealed(sealed)) => Stage::Storing(
                None,
                sealed,
                Progress::Absent,
            ),
            _ => Stage::First,
        }
    }
}
