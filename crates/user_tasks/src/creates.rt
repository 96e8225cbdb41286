ghost use Rattle.std.specs.Prelude.{◌≡◌, ◌<◌, IfOk};
ghost use Rattle.task_turns.specs.declared.calls.Call.TheVariants.{Add};
ghost use Rattle.task_turns.specs.Turns.{Asks, seen_of};
ghost use Rattle.user_tasks.specs.declared.tasks.UserTask.TheVariants.{Create as OfCreate};
ghost use Rattle.store_task.specs.declared.stages.Stage.TheVariants.{First};
ghost use Rattle.store_task.specs.declared.stages.Progress.TheVariants.{Stored};
ghost use Rattle.store_task.specs.Task.{IsAnswer, after as store_after, progress_of};
ghost use Rattle.user_tasks.specs.Create.{after, hears, all_held, held_in, with_ce, with_de, after_ce, after_de};
ghost use Rattle.user_tasks.specs.Made.{IsFirst};
ghost use Rattle.user_tasks.specs.Tasks.{UserTurns, UserJobs, tasks};
ghost use Rattle.user_tasks.specs.Turns.{quiet_turn};

use crate::looks::Looks;
use crate::made::made_spec;
use crate::stores::store_turn;
use crate::turns::{quiet, removing};
use journal_model::{Birth, Reply};
use std::alloc::Global;
use std::marker::Model;
use store_task::{Progress, StoreTask};
use task_turns::{Answer, Call, Next};
use tree_model::{Blob, Class, NoMemory};
use user_world::LocalChange;

/// Where a create stands.
#[derive(Clone, Copy, Debug, PartialEq, Eq)]
pub enum Stage {
    /// What an earlier create left at the user's places is being removed.
    Clearing,
    /// The credential key's directory is being stored.
    StoringCe,
    /// The device key's directory is being stored.
    StoringDe,
    /// It is at its place: the user is there.
    Created,
    /// And that is durable: the device key is being installed.
    InstallingDe,
    /// The credential key is being installed.
    InstallingCe,
    /// Both keys are installed.
    Ended,
}

/// A create on its way: a user's two keys are stored, each in a directory bound to an entry of the keystore, and then
/// installed.
#[derive(Drop)]
pub struct Create {
    user: u32,
    birth: Birth,
    ce: StoreTask,
    de: StoreTask,
    stage: Stage,
}

impl Model for Create {
    ghost use Rattle.user_tasks.specs.Create.{Creating, IsCreating};

    ghost Value = { Creating };

    ghost view = { λ create. record {
      user = create.user;
      birth = create.birth;
      ce = create.ce;
      de = create.de;
      stage = create.stage;
    } };

    ghost invariant = { λ create. IsCreating (record {
      user = create.user;
      birth = create.birth;
      ce = create.ce;
      de = create.de;
      stage = create.stage;
    }) };
}

impl Create {
    /// The user's create as it begins, with the bytes that are made for it from the boot's seed.
    pub fn first(
        alloc: Global,
        user: u32,
        birth: Birth,
        number: u64,
        boot_seed: &[u8; 32],
    ) -> Result<Create, NoMemory>
        requires number { number < 65536 }
        ensures first { IfOk result (IsFirst user birth number boot_seed.now) }
    {
        let ce = made_spec(alloc, boot_seed, user, birth, Class::Ce)?;
        let de = made_spec(alloc, boot_seed, user, birth, Class::De)?;
        Ok(Create {
            user,
            birth,
            ce: StoreTask::new(ce, 65536 * number),
            de: StoreTask::new(de, 65536 * number + 1),
            stage: Stage::Clearing,
        })
    }

    /// Whose it is.
    pub fn user(&self) -> u32
        ensures { result ≡ self.now.user }
    {
        self.user
    }

    /// The next turn.
    pub fn next(&self, alloc: Global, looks: Looks) -> Result<Next, NoMemory>
        ensures turn { IfOk result (UserTurns (OfCreate self.now) looks) }
        ensures asks { IfOk result (Asks (seen_of tasks (OfCreate self.now))) }
        ensures jobs { IfOk result (UserJobs (OfCreate self.now) looks) }
    {
        match self.stage {
            Stage::Clearing => match looks.in_the_way {
                Some(site) => Ok(removing(self.user, site)),
                None => store_turn(alloc, self.user, &self.ce, None),
            },
            Stage::StoringCe => store_turn(alloc, self.user, &self.ce, None),
            Stage::StoringDe => {
                let born = LocalChange::Born(self.birth);
                store_turn(alloc, self.user, &self.de, Some(born))
            }
            Stage::Created => Ok(quiet(Call::Sync)),
            Stage::InstallingDe => Ok(install(self.user, Class::De, &self.de)),
            Stage::InstallingCe => Ok(install(self.user, Class::Ce, &self.ce)),
            Stage::Ended => Ok(Next::Reply(Reply::Done)),
        }
    }

    /// The create after an answer to its turn. It takes no memory.
    pub fn heard(&mut self, answer: Answer)
        requires hears { hears self.old answer }
        ensures after { self.new ≡ after self.old answer }
    {
        match self.stage {
            Stage::Clearing => match answer {
                Answer::Done => {}
                answer => self.heard_ce(answer),
            },
            Stage::StoringCe => self.heard_ce(answer),
            Stage::StoringDe => self.heard_de(answer),
            Stage::Created => self.stage = Stage::InstallingDe,
            Stage::InstallingDe => self.stage = Stage::InstallingCe,
            Stage::InstallingCe => self.stage = Stage::Ended,
            Stage::Ended => {}
        }
    }

    /// The blobs that it holds, in the order in which they were made.
    pub fn held(&self) -> [Option<Blob>; 2]
        ensures { all_held result ≡ held_in self.now }
    {
        match self.stage {
            Stage::StoringCe => [self.ce.held(), None],
            Stage::StoringDe => [self.ce.held(), self.de.held()],
            Stage::Clearing | Stage::Created => [None, None],
            Stage::InstallingDe | Stage::InstallingCe | Stage::Ended => [None, None],
        }
    }

    /// The same create in memory of its own.
    pub fn duplicate(&self, alloc: Global) -> Result<Create, NoMemory>
        ensures { IfOk result (λ copied. copied ≡ self.now) }
    {
        Ok(Create {
            user: self.user,
            birth: self.birth,
            ce: self.ce.duplicate(alloc)?,
            de: self.de.duplicate(alloc)?,
            stage: self.stage,
        })
    }

    fn heard_ce(&mut self, answer: Answer)
        requires hears { IsAnswer self.old.ce answer }
        requires before { self.old.de.stage ≡ First }
        ensures after { self.new ≡ with_ce self.old (store_after self.old.ce answer) }
    {
        self.ce.heard(answer);
        self.stage = after_ce(self.ce.progress());
    }

    fn heard_de(&mut self, answer: Answer)
        requires hears { IsAnswer self.old.de answer }
        requires behind { progress_of self.old.ce.stage ≡ Stored }
        ensures after { self.new ≡ with_de self.old (store_after self.old.de answer) }
    {
        self.de.heard(answer);
        self.stage = after_de(self.de.progress());
    }
}

/// The stage once the credential key's directory is so far.
fn after_ce(progress: Progress) -> Stage
    ensures { result ≡ after_ce progress }
{
    match progress {
        Progress::Stored => Stage::StoringDe,
        _ => Stage::StoringCe,
    }
}

/// The stage once the device key's directory is so far.
fn after_de(progress: Progress) -> Stage
    ensures { result ≡ after_de progress }
{
    match progress {
        Progress::Stored => Stage::Created,
        _ => Stage::StoringDe,
    }
}

/// The key that was stored comes into the ring, as the user's of this class.
fn install(user: u32, class: Class, stored: &StoreTask) -> Next
    ensures { result ≡ quiet_turn (Add user class stored.now.spec.key) }
{
    let key = stored.spec().key;
    quiet(Call::Add { user, class, key })
}
