ghost use Rattle.std.specs.Prelude.{◌≡◌, IfOk};
ghost use Rattle.open_task.specs.Task.{IsAnswer};
ghost use Rattle.task_turns.specs.Turns.{Asks, seen_of};
ghost use Rattle.user_tasks.specs.declared.tasks.UserTask.TheVariants.{Unlock as OfUnlock};
ghost use Rattle.user_tasks.specs.Tasks.{UserTurns, UserJobs, tasks};
ghost use Rattle.user_tasks.specs.Unlock.{first_unlock, after, after_opening, hears, adding_turn};

use crate::looks::Looks;
use crate::turns::{ending, fixing, opening, quiet};
use fixate_task::FixateTask;
use journal_model::{Reply, Secret};
use open_task::OpenTask;
use std::alloc::Global;
use task_turns::{Answer, Call, Next};
use tree_model::{Class, NoMemory, Slot};

/// Where an unlock stands.
#[derive(Clone, Copy)]
pub enum UnlockStage {
    /// The credential key is being opened with the secret.
    Opening,
    /// It was opened to this key: the slot that opened is being made the user's one.
    Fixing([u8; 64]),
    /// That is durable: the key is being installed.
    Installing([u8; 64]),
    /// It is in the ring: what was listed is being deleted.
    Ending,
}

/// An unlock on its way: a user's credential key is opened with a secret, the slot that opened is kept alone, as the
/// current one, and then the key is installed.
#[derive(Drop)]
pub struct Unlock {
    pub opening: OpenTask,
    /// While the key is being opened, of all the user's slots.
    pub fixing: FixateTask,
    pub stage: UnlockStage,
    /// Whether it dropped a slot or settled one.
    pub changed: bool,
}

impl Unlock {
    /// The user's unlock as it begins, with all the user's slots, those to try, the secret, and the number of its
    /// jobs. It takes no memory.
    pub fn first(user: u32, slots: Vec<Slot>, to_try: Vec<Slot>, secret: Secret, job: u64) -> Unlock
        ensures { result ≡ first_unlock user slots.items to_try.items secret job }
    {
        Unlock {
            opening: OpenTask::new(user, to_try, secret, job),
            fixing: FixateTask {
                kept: Slot::Current,
                others: slots,
            },
            stage: UnlockStage::Opening,
            changed: false,
        }
    }

    /// The next turn.
    pub fn next(&self, alloc: Global, looks: Looks) -> Result<Next, NoMemory>
        ensures turn { IfOk result (UserTurns (OfUnlock self.now) looks) }
        ensures asks { IfOk result (Asks (seen_of tasks (OfUnlock self.now))) }
        ensures jobs { IfOk result (UserJobs (OfUnlock self.now) looks) }
    {
        let user = self.opening.user();
        match &self.stage {
            UnlockStage::Opening => match self.opening.next(alloc)? {
                Some(doing) => Ok(opening(user, doing)),
                None => Ok(Next::Reply(Reply::WrongSecret)),
            },
            UnlockStage::Fixing(key) => match self.fixing.next() {
                Some(doing) => Ok(fixing(user, doing)),
                None if looks.durable && !self.changed => Ok(adding(user, *key)),
                None => Ok(quiet(Call::Sync)),
            },
            UnlockStage::Installing(key) => Ok(adding(user, *key)),
            UnlockStage::Ending => Ok(ending(looks.due, false, Reply::Done)),
        }
    }

    /// The unlock after an answer to its turn. It takes no memory.
    pub fn heard(&mut self, answer: Answer)
        requires hears { hears self.old answer }
        ensures after { self.new ≡ after self.old answer }
    {
        match self.stage {
            UnlockStage::Opening => self.heard_opening(answer),
            UnlockStage::Fixing(key) => match answer {
                Answer::Installed => self.stage = UnlockStage::Ending,
                _ if self.fixing.has_ended() => self.stage = UnlockStage::Installing(key),
                _ => {
                    self.fixing.heard();
                    self.changed = true;
                }
            },
            UnlockStage::Installing(_) => self.stage = UnlockStage::Ending,
            UnlockStage::Ending => {}
        }
    }

    /// The same unlock in memory of its own.
    pub fn duplicate(&self, alloc: Global) -> Result<Unlock, NoMemory>
        ensures { IfOk result (λ copied. copied ≡ self.now) }
    {
        Ok(Unlock {
            opening: self.opening.duplicate(alloc)?,
            fixing: self.fixing.duplicate(alloc)?,
            stage: self.stage,
            changed: self.changed,
        })
    }

    fn heard_opening(&mut self, answer: Answer)
        requires hears { IsAnswer self.old.opening answer }
        ensures after { self.new ≡ after_opening self.old answer }
    {
        self.opening.heard(answer);
        if let Some(key) = self.opening.key() {
            self.fixing.keep(self.opening.slot());
            self.stage = UnlockStage::Fixing(key);
        }
    }
}

/// The key comes into the ring.
fn adding(user: u32, key: [u8; 64]) -> Next
    ensures { result ≡ adding_turn user key }
{
    quiet(Call::Add {
        user,
        class: Class::Ce,
        key,
    })
}
