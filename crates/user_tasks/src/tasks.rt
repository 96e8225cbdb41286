ghost use Rattle.std.specs.Prelude.{◌≡◌, ◌<◌, MatchOption, IfOk, IfSome, IsNone};
ghost use Rattle.journal_model.specs.Command.{user_in};
ghost use Rattle.task_turns.specs.Turns.{Asks, seen_of};
ghost use Rattle.user_tasks.specs.Create.{all_held};
ghost use Rattle.user_tasks.specs.Tasks.{Begins, HasJobs, UserTurns, UserJobs, tasks, rest_of, user_of};

use crate::creates::Create;
use crate::destroys::Destroy;
use crate::fixates::Fixate;
use crate::locks::Lock;
use crate::looks::{Known, Looks};
use crate::protects::Protect;
use crate::unlocks::Unlock;
use journal_model::{Birth, Command};
use open_task::OpenTask;
use std::alloc::Global;
use task_turns::{Answer, Next};
use tree_model::{Blob, NoMemory};

/// A user's command on its way: of every kind there is.
#[derive(Drop)]
pub enum UserTask {
    Create(Create),
    Unlock(Unlock),
    Lock(Lock),
    Protect(Protect),
    Fixate(Fixate),
    Destroy(Destroy),
}

impl UserTask {
    /// Whose it is.
    pub fn user(&self) -> u32
        ensures { result ≡ user_of self.now }
    {
        match self {
            UserTask::Create(create) => create.user(),
            UserTask::Unlock(unlock) => unlock.opening.user(),
            UserTask::Lock(lock) => lock.user,
            UserTask::Protect(protect) => protect.user(),
            UserTask::Fixate(fixate) => fixate.user,
            UserTask::Destroy(destroy) => destroy.user,
        }
    }

    /// The next turn.
    pub fn next(&self, alloc: Global, looks: Looks) -> Result<Next, NoMemory>
        ensures turn { IfOk result (UserTurns self.now looks) }
        ensures asks { IfOk result (Asks (seen_of tasks self.now)) }
        ensures jobs { IfOk result (UserJobs self.now looks) }
    {
        match self {
            UserTask::Create(create) => create.next(alloc, looks),
            UserTask::Unlock(unlock) => unlock.next(alloc, looks),
            UserTask::Lock(lock) => Ok(lock.next()),
            UserTask::Protect(protect) => protect.next(alloc, looks),
            UserTask::Fixate(fixate) => Ok(fixate.next(looks)),
            UserTask::Destroy(destroy) => Ok(destroy.next(looks)),
        }
    }

    /// The task after an answer to its turn. It takes no memory.
    pub fn heard(&mut self, answer: Answer)
        requires hears { tasks.hears self.old answer }
        ensures after { self.new ≡ tasks.after self.old answer }
    {
        match self {
            UserTask::Create(create) => create.heard(answer),
            UserTask::Unlock(unlock) => unlock.heard(answer),
            UserTask::Lock(lock) => *lock = lock.heard(),
            UserTask::Protect(protect) => protect.heard(answer),
            UserTask::Fixate(fixate) => fixate.heard(),
            UserTask::Destroy(destroy) => destroy.heard(),
        }
    }

    /// The blobs that it holds, in the order in which they were made.
    pub fn held(&self) -> [Option<Blob>; 2]
        ensures { all_held result ≡ (rest_of self.now).held }
    {
        match self {
            UserTask::Create(create) => create.held(),
            UserTask::Protect(protect) => protect.held(),
            UserTask::Unlock(_) | UserTask::Lock(_) => [None, None],
            UserTask::Fixate(_) | UserTask::Destroy(_) => [None, None],
        }
    }

    /// The same task in memory of its own.
    pub fn duplicate(&self, alloc: Global) -> Result<UserTask, NoMemory>
        ensures { IfOk result (λ copied. copied ≡ self.now) }
    {
        Ok(match self {
            UserTask::Create(create) => UserTask::Create(create.duplicate(alloc)?),
            UserTask::Unlock(unlock) => UserTask::Unlock(unlock.duplicate(alloc)?),
            UserTask::Lock(lock) => UserTask::Lock(*lock),
            UserTask::Protect(protect) => UserTask::Protect(protect.duplicate(alloc)?),
            UserTask::Fixate(fixate) => UserTask::Fixate(fixate.duplicate(alloc)?),
            UserTask::Destroy(destroy) => UserTask::Destroy(destroy.duplicate(alloc)?),
        })
    }
}

/// The task of a user's command that begins and isn't refused, by what is known of the user; None exactly where the
/// command is not a user's.
pub fn first(
    alloc: Global,
    command: &Command,
    number: u64,
    birth: Birth,
    boot_seed: &[u8; 32],
    known: Known,
) -> Result<Option<UserTask>, NoMemory>
    requires number { number < 65536 }
    ensures begins { IfOk result (λ found.
        MatchOption found (IsNone (user_in command.now)) (Begins command.now birth boot_seed.now known)) }
    ensures jobs { IfOk result (λ found. IfSome found (HasJobs number)) }
{
    match command {
        Command::Create { user } => {
            let create = Create::first(alloc, *user, birth, number, boot_seed)?;
            Ok(Some(UserTask::Create(create)))
        }
        Command::Unlock { user, secret } => {
            let secret = secret.duplicate(alloc)?;
            let Known { slots, to_try, .. } = known;
            let unlock = Unlock::first(*user, slots, to_try, secret, 65536 * number);
            Ok(Some(UserTask::Unlock(unlock)))
        }
        Command::Lock { user } => Ok(Some(UserTask::Lock(Lock::first(*user)))),
        Command::Protect {
            user,
            known: given,
            fresh,
        } => {
            let Known { to_try, next, .. } = known;
            let opening = OpenTask::new(*user, to_try, given.duplicate(alloc)?, 65536 * number);
            let fresh = fresh.duplicate(alloc)?;
            let protect = Protect::first(alloc, opening, fresh, next, birth, number, boot_seed)?;
            Ok(Some(UserTask::Protect(protect)))
        }
        Command::Fixate { user } => {
            let Known { slots, newest, .. } = known;
            Ok(Some(UserTask::Fixate(Fixate::first(*user, slots, newest))))
        }
        Command::Destroy { user } => {
            let Known {
                slots,
                has_ce,
                has_de,
                has_temp,
                ..
            } = known;
            let destroy = Destroy::first(*user, slots, has_ce, has_de, has_temp);
            Ok(Some(UserTask::Destroy(destroy)))
        }
        Command::Recover => Ok(None),
    }
}
