ghost use Rattle.std.specs.Prelude.{◌≡◌, ◌≢◌, ◌↔◌, IfOk, Some, length};
ghost use Rattle.tree_model.specs.Sites.{site_of};
ghost use Rattle.tree_model.specs.Tree.{user_of};
ghost use Rattle.tree_model.specs.declared.sites.Site.TheVariants.{Temp};
ghost use Rattle.store_task.specs.declared.stages.Stage.TheVariants.{First, Storing};
ghost use Rattle.store_task.specs.declared.turns.Doing.TheVariants.{Tree};
ghost use Rattle.tree_model.specs.declared.sites.LocalOp.TheVariants.{Write};
ghost use Rattle.store_task.specs.Task.{IsTask, IsAnswer, after, first_job, with_key, progress_of, held_by, held_of};
ghost use Rattle.store_task.specs.Turns.{StoreTurns, StoreAsks};

use crate::stages::{Progress, Stage};
use crate::turns::{Doing, StoreSpec};
use std::alloc::Global;
use std::marker::Model;
use std::mem;
use step_core::{Job, JobInput};
use task_turns::Answer;
use tree_model::{Blob, Bytes, FileName, LocalOp, NoMemory, Site};

/// A task that stores a sealed key directory.
#[derive(Drop)]
pub struct StoreTask {
    spec: StoreSpec,
    job: u64,
    stage: Stage,
}

impl Model for StoreTask {
    ghost use Rattle.store_task.specs.Task.{Task, IsTask};

    ghost Value = { Task };

    ghost view = { λ task. record { spec = task.spec; job = task.job; stage = task.stage } };

    ghost invariant = { λ task. IsTask (record { spec = task.spec; job = task.job; stage = task.stage }) };
}

impl StoreTask {
    /// The task as it begins, whose one job has this number.
    pub fn new(spec: StoreSpec, job: u64) -> StoreTask
        requires discard { length spec.discard ≡ 16384 }
        requires owner { user_of spec.target ≡ spec.tag.user }
        requires target { site_of spec.target ≢ Temp }
        ensures first { result ≡ record { spec = spec; job = job; stage = First } }
        ensures whole { IsTask result }
    {
        StoreTask {
            spec,
            job,
            stage: Stage::First,
        }
    }

    /// The task after an answer to what it does next. It takes no memory.
    pub fn heard(&mut self, answer: Answer)
        requires { IsAnswer self.old answer }
        ensures after { self.new ≡ after self.old answer }
        ensures whole { IsTask self.new }
    {
        let stage = mem::replace(&mut self.stage, Stage::First);
        self.stage = stage.after(answer);
    }

    /// The same task in memory of its own.
    pub fn duplicate(&self, alloc: Global) -> Result<StoreTask, NoMemory>
        ensures { IfOk result (λ copied. copied ≡ self.now) }
    {
        Ok(StoreTask {
            spec: self.spec.duplicate(alloc)?,
            job: self.job,
            stage: self.stage.duplicate(alloc)?,
        })
    }

    /// What it stores, and where.
    pub fn spec(&self) -> &StoreSpec
        ensures { result.now ≡ self.now.spec }
    {
        &self.spec
    }

    /// It stores this key from now on.
    pub fn set_key(&mut self, key: [u8; 64])
        ensures key { self.new ≡ with_key self.old key }
        ensures whole { IsTask self.new }
    {
        self.spec.key = key;
    }

    /// How far its directory is.
    pub fn progress(&self) -> Progress
        ensures { result ≡ progress_of self.now.stage }
    {
        match &self.stage {
            Stage::First | Stage::Tied(_) | Stage::Generated(_, _) => Progress::Absent,
            Stage::Storing(_, _, progress) => *progress,
        }
    }

    /// The blob of the entry that it made.
    pub fn held(&self) -> Option<Blob>
        ensures { held_by result ≡ held_of self.now }
    {
        match &self.stage {
            Stage::First | Stage::Tied(_) => None,
            Stage::Generated(_, blob) => Some(*blob),
            Stage::Storing(blob, _, _) => *blob,
        }
    }

    /// What it does next; None exactly where it has ended.
    pub fn next(&self, alloc: Global) -> Result<Option<Doing>, NoMemory>
        ensures turn { IfOk result (StoreTurns self.now) }
        ensures asks { IfOk result (StoreAsks self.now) }
    {
        match &self.stage {
            Stage::First => Ok(Some(Doing::Work(self.job(alloc)?))),
            Stage::Tied(app_id) => Ok(Some(Doing::Generate {
                tag: self.spec.tag,
                app_id: Bytes::copy(alloc, app_id.as_slice())?,
            })),
            Stage::Generated(app_id, blob) => Ok(Some(Doing::Encrypt {
                blob: *blob,
                app_id: Bytes::copy(alloc, app_id.as_slice())?,
                nonce: self.spec.nonce,
                key: self.spec.key,
            })),
            Stage::Storing(blob, sealed, progress) => self.store(alloc, *blob, sealed, *progress),
        }
    }

    /// The job that it begins with.
    fn job(&self, alloc: Global) -> Result<Job, NoMemory>
        ensures { IfOk result (λ job. job ≡ first_job self.now) }
    {
        let discard = Bytes::copy(alloc, self.spec.discard.as_slice())?;
        let secret = self.spec.secret.duplicate(alloc)?;
        let input = if secret.as_slice().is_empty() {
            JobInput::AppId { discard, secret }
        } else {
            let (nonce, key) = (self.spec.nonce, self.spec.key);
            JobInput::Seal {
                discard,
                secret,
                nonce,
                key,
            }
        };
        Ok(Job {
            number: self.job,
            input,
        })
    }

    /// The next operation or sync once the key is sealed.
    fn store(
        &self,
        alloc: Global,
        blob: Option<Blob>,
        sealed: &Bytes,
        progress: Progress,
    ) -> Result<Option<Doing>, NoMemory>
        requires { self.now.stage ≡ Storing blob sealed.now progress }
        ensures turn { IfOk result (StoreTurns self.now) }
        ensures asks { IfOk result (StoreAsks self.now) }
    {
        match progress {
            Progress::Absent => Ok(Some(Doing::Tree(LocalOp::MakeDir(Site::Temp)))),
            Progress::Made => write(alloc, FileName::Version, &VERSION),
            Progress::Versioned => write(alloc, FileName::Discard, self.spec.discard.as_slice()),
            Progress::Discardable => match blob {
                Some(blob) => write(alloc, FileName::Blob, &blob.bytes()),
                None => write(alloc, FileName::EncryptedKey, sealed.as_slice()),
            },
            Progress::Named => write(alloc, FileName::EncryptedKey, sealed.as_slice()),
            Progress::Keyed => Ok(Some(Doing::Sync)),
            Progress::Settled => {
                let target = Site::of(self.spec.target);
                Ok(Some(Doing::Tree(LocalOp::RenameDir(Site::Temp, target))))
            }
            Progress::Stored => Ok(None),
        }
    }
}

/// What the file `version` holds.
const VERSION: [u8; 1] = *b"1";

/// A file of the temporary directory is written.
fn write(alloc: Global, file: FileName, bytes: &[u8]) -> Result<Option<Doing>, NoMemory>
    ensures { IfOk result (λ doing. doing ≡ Some (Tree (Write Temp file bytes.now))) }
{
    let bytes = Bytes::copy(alloc, bytes)?;
    Ok(Some(Doing::Tree(LocalOp::Write(Site::Temp, file, bytes))))
}
