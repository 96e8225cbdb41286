ghost use Rattle.std.specs.Prelude.{◌≡◌, [], IfOk, slice_get};
ghost use Rattle.key_directory.specs.Opened.{FitsFiles};
ghost use Rattle.open_task.specs.declared.stages.Stage.TheVariants.{Reading};
ghost use Rattle.open_task.specs.Task.{IsAnswer, after, job_of, key_in, slot_at_hand};
ghost use Rattle.open_task.specs.Turns.{OpenTurns, OpenAsks, Decrypts};

use crate::stages::{Doing, Stage};
use journal_model::Secret;
use key_directory::{bytes_in, named};
use std::alloc::Global;
use std::marker::Model;
use std::mem;
use step_core::{Job, JobInput};
use task_turns::Answer;
use tree_model::{Bytes, Dir, FileName, NoMemory, Slot};

/// A task that opens a user's credential key with a secret: it tries the slots in their order, and ends with the key of
/// the first that opens, or with none.
#[derive(Drop)]
pub struct OpenTask {
    user: u32,
    slots: Vec<Slot>,
    at: usize,
    secret: Secret,
    job: u64,
    stage: Stage,
}

impl Model for OpenTask {
    ghost use Rattle.std.specs.Prelude.{drop};
    ghost use Rattle.open_task.specs.Task.{Opening, IsOpening};
    ghost use Rattle.std.specs.Coded.{codes};
    ghost use Rattle.open_task.specs.contracts.stages.Stage as stage_type;

    ghost Value = { Opening };

    ghost coded = { Prim.hlevel (codes, stage_type.the_row.coded) };

    ghost view = { λ task. record {
      user = task.user;
      secret = task.secret;
      job = task.job;
      left = drop task.at task.slots.items;
      stage = task.stage;
    } };

    ghost invariant = { λ task. IsOpening (record {
      user = task.user;
      secret = task.secret;
      job = task.job;
      left = drop task.at task.slots.items;
      stage = task.stage;
    }) };
}

impl OpenTask {
    /// The task as it begins, with the slots to try, whose jobs have this number. It takes no memory.
    pub fn new(user: u32, slots: Vec<Slot>, secret: Secret, job: u64) -> OpenTask
        ensures first { result
            ≡ record { user = user; secret = secret; job = job; left = slots.items; stage = Reading } }
    {
        OpenTask {
            user,
            slots,
            at: 0,
            secret,
            job,
            stage: Stage::Reading,
        }
    }

    /// Whose key it opens.
    pub fn user(&self) -> u32
        ensures { result ≡ self.now.user }
    {
        self.user
    }

    /// The key that it opened; None where none opened, or it has not ended.
    pub fn key(&self) -> Option<[u8; 64]>
        ensures { result ≡ key_in self.now.stage }
    {
        match &self.stage {
            Stage::Opened(key) => Some(*key),
            _ => None,
        }
    }

    /// The slot at hand, which opened where there is a key.
    pub fn slot(&self) -> Slot
        ensures { result ≡ slot_at_hand self.now.left }
    {
        slot_at(self.slots.as_slice(), self.at).unwrap_or(Slot::Current)
    }

    /// What it does next; None exactly where it has ended.
    pub fn next(&self, alloc: Global) -> Result<Option<Doing>, NoMemory>
        ensures turn { IfOk result (OpenTurns self.now) }
        ensures asks { IfOk result (OpenAsks self.now) }
    {
        match &self.stage {
            Stage::Reading => match slot_at(self.slots.as_slice(), self.at) {
                Some(slot) => Ok(Some(Doing::Read(slot))),
                None => Ok(None),
            },
            Stage::Read(dir) => Ok(Some(Doing::Work(self.job(alloc, dir)?))),
            Stage::Tied(dir, app_id) => Ok(Some(decrypt(alloc, dir, app_id)?)),
            Stage::Opened(_) => Ok(None),
        }
    }

    /// The task after an answer to what it does next. It takes no memory.
    pub fn heard(&mut self, answer: Answer)
        requires hears { IsAnswer self.old answer }
        ensures after { self.new ≡ after self.old answer }
    {
        let stage = mem::replace(&mut self.stage, Stage::Reading).after(answer);
        self.at += stage.skips();
        self.stage = stage;
    }

    /// The same task in memory of its own.
    pub fn duplicate(&self, alloc: Global) -> Result<OpenTask, NoMemory>
        ensures { IfOk result (λ copied. copied ≡ self.now) }
    {
        Ok(OpenTask {
            user: self.user,
            slots: Vec::from_slice(alloc, self.slots.as_slice())?,
            at: self.at,
            secret: self.secret.duplicate(alloc)?,
            job: self.job,
            stage: self.stage.duplicate(alloc)?,
        })
    }

    /// The job that a directory wants which was read.
    fn job(&self, alloc: Global, dir: &Dir) -> Result<Job, NoMemory>
        ensures { IfOk result (λ job. job ≡ job_of self.now dir.now) }
    {
        let discard = Bytes::copy(alloc, bytes_in(dir, FileName::Discard))?;
        let secret = self.secret.duplicate(alloc)?;
        let input = if secret.as_slice().is_empty() {
            JobInput::AppId { discard, secret }
        } else {
            let sealed = Bytes::copy(alloc, bytes_in(dir, FileName::EncryptedKey))?;
            JobInput::Unseal {
                discard,
                secret,
                sealed,
            }
        };
        Ok(Job {
            number: self.job,
            input,
        })
    }
}

/// The slot at this index, if there is one.
fn slot_at(slots: &[Slot], at: usize) -> Option<Slot>
    ensures { result ≡ slice_get slots.now at }
{
    slots.get(at).copied()
}

/// The directory's sealed key is opened under the entry of its blob.
fn decrypt(alloc: Global, dir: &Dir, app_id: &Bytes) -> Result<Doing, NoMemory>
    requires bound { FitsFiles dir.now [] }
    ensures { IfOk result (Decrypts dir.now app_id.now) }
{
    let Some(blob) = named(dir) else {
        unreachable!()
    };
    Ok(Doing::Decrypt {
        blob,
        app_id: Bytes::copy(alloc, app_id.as_slice())?,
        sealed: Bytes::copy(alloc, bytes_in(dir, FileName::EncryptedKey))?,
    })
}
