ghost use Rattle.std.specs.Prelude.{◌≡◌, IfOk};
ghost use Rattle.step_core.specs.Jobs.{output_of};

use journal_model::Secret;
use std::alloc::Global;
use std::marker::Model;
use tree_model::{Bytes, NoMemory};

/// What a job is to compute, from the discardable file of a directory and the secret that protects it.
#[derive(Drop)]
pub enum JobInput {
    /// The app id of the file and the secret.
    AppId {
        discard: Bytes,
        secret: Secret,
    },
    /// The key, sealed with the nonce under the wrapping key of the app id.
    Seal {
        discard: Bytes,
        secret: Secret,
        nonce: [u8; 12],
        key: [u8; 64],
    },
    /// The key that the wrapping key of the app id opens a sealed key to.
    Unseal {
        discard: Bytes,
        secret: Secret,
        sealed: Bytes,
    },
}

/// A computation that a task hands out.
#[derive(Drop)]
pub struct Job {
    /// The number by which its result is given back.
    pub number: u64,
    /// What is to be computed.
    pub input: JobInput,
}

/// What a job computed.
#[derive(Drop)]
pub enum JobOutput {
    /// The app id.
    AppId(Bytes),
    /// The nonce, the ciphertext and its tag: 92 bytes.
    Sealed(Bytes),
    /// The key; None where the sealed key opens to nothing, or to a text that isn't of 64 bytes.
    Opened(Option<[u8; 64]>),
}

/// A job with its output, which is the one that its input defines.
#[derive(Drop)]
pub struct JobDone {
    job: Job,
    output: JobOutput,
}

impl Model for JobDone {
    ghost use Rattle.std.specs.Prelude.{◌≡◌};
    ghost use Rattle.step_core.specs.declared.jobs.Job.{Job};
    ghost use Rattle.step_core.specs.Jobs.{output_of};

    ghost Value = { Job };

    ghost view = { λ done. done.job };

    ghost invariant = { λ done. done.output ≡ output_of done.job.input };
}

impl JobInput {
    /// The same input in memory of its own.
    pub fn duplicate(&self, alloc: Global) -> Result<JobInput, NoMemory>
        ensures { IfOk result (λ copied. copied ≡ self.now) }
    {
        Ok(match self {
            JobInput::AppId { discard, secret } => JobInput::AppId {
                discard: Bytes::copy(alloc, discard.as_slice())?,
                secret: secret.duplicate(alloc)?,
            },
            JobInput::Seal {
                discard,
                secret,
                nonce,
                key,
            } => JobInput::Seal {
                discard: Bytes::copy(alloc, discard.as_slice())?,
                secret: secret.duplicate(alloc)?,
                nonce: *nonce,
                key: *key,
            },
            JobInput::Unseal {
                discard,
                secret,
                sealed,
            } => JobInput::Unseal {
                discard: Bytes::copy(alloc, discard.as_slice())?,
                secret: secret.duplicate(alloc)?,
                sealed: Bytes::copy(alloc, sealed.as_slice())?,
            },
        })
    }
}

impl Job {
    /// The same job in memory of its own.
    pub fn duplicate(&self, alloc: Global) -> Result<Job, NoMemory>
        ensures { IfOk result (λ copied. copied ≡ self.now) }
    {
        Ok(Job {
            number: self.number,
            input: self.input.duplicate(alloc)?,
        })
    }
}

/// A clause sees a job that is done as the job alone, since its input defines the output.
impl JobDone {
    /// The job with this output, which its input defines.
    pub fn new(job: Job, output: JobOutput) -> JobDone
        requires output { output ≡ output_of job.input }
        ensures { result ≡ job }
    {
        JobDone { job, output }
    }

    /// The job's number.
    pub fn number(&self) -> u64
        ensures { result ≡ self.now.number }
    {
        self.job.number
    }

    /// What the job was to compute.
    pub fn input(&self) -> &JobInput
        ensures { result.now ≡ self.now.input }
    {
        &self.job.input
    }

    /// What it computed, alone.
    pub fn into_output(self) -> JobOutput
        ensures { result ≡ output_of self.input }
    {
        self.output
    }

    /// What it computed.
    pub fn output(&self) -> &JobOutput
        ensures { result.now ≡ output_of self.now.input }
    {
        &self.output
    }
}
