ghost use Rattle.std.specs.Prelude.{◌≡◌};
ghost use Rattle.task_turns.specs.Turns.{Asks, seen_of};
ghost use Rattle.user_tasks.specs.declared.looks.Looks.{Looks};
ghost use Rattle.user_tasks.specs.declared.tasks.UserTask.TheVariants.{Lock as OfLock};
ghost use Rattle.user_tasks.specs.Lock.{first_lock, after};
ghost use Rattle.user_tasks.specs.Tasks.{UserTurns, tasks};

use crate::turns::quiet;
use journal_model::Reply;
use task_turns::{Call, Next};
use tree_model::Class;

/// Where a lock stands.
#[derive(Clone, Copy, Debug, PartialEq, Eq)]
pub enum LockStage {
    /// The credential key is being taken out.
    Evicting,
    /// It is out.
    Ended,
}

/// A lock on its way: a user's credential key leaves the ring.
#[derive(Clone, Copy, Debug, PartialEq, Eq)]
pub struct Lock {
    pub user: u32,
    pub stage: LockStage,
}

impl Lock {
    /// The user's lock as it begins.
    pub fn first(user: u32) -> Lock
        ensures { result ≡ first_lock user }
    {
        Lock {
            user,
            stage: LockStage::Evicting,
        }
    }

    /// The next turn, whatever it would be told.
    pub fn next(self) -> Next
        ensures turn { (looks : Looks) → UserTurns (OfLock self) looks result }
        ensures asks { Asks (seen_of tasks (OfLock self)) result }
    {
        match self.stage {
            LockStage::Evicting => quiet(Call::Remove {
                user: self.user,
                class: Class::Ce,
            }),
            LockStage::Ended => Next::Reply(Reply::Done),
        }
    }

    /// The lock after an answer to its turn.
    pub fn heard(self) -> Lock
        ensures { result ≡ after self }
    {
        Lock {
            user: self.user,
            stage: LockStage::Ended,
        }
    }
}
