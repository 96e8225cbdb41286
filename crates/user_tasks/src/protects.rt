ghost use Rattle.std.specs.Prelude.{◌≡◌, ◌≢◌, ◌<◌, Some, None, IfOk};
ghost use Rattle.open_task.specs.Task.{IsAnswer as OpenAnswer, key_in};
ghost use Rattle.store_task.specs.declared.stages.Progress.TheVariants.{Stored};
ghost use Rattle.store_task.specs.Task.{IsAnswer, progress_of};
ghost use Rattle.task_turns.specs.Turns.{Asks, seen_of};
ghost use Rattle.user_tasks.specs.declared.tasks.UserTask.TheVariants.{Protect as OfProtect};
ghost use Rattle.user_tasks.specs.Create.{all_held};
ghost use Rattle.user_tasks.specs.Made.{IsFirstProtect};
ghost use Rattle.user_tasks.specs.Protect.{after, hears, protect_rest, change_by, after_opening, after_store};
ghost use Rattle.user_tasks.specs.Protect.{after_storing, slot_at, user_of};
ghost use Rattle.user_tasks.specs.declared.protects.ProtectStage.TheVariants.{Opening as IsOpening};
ghost use Rattle.user_tasks.specs.Stores.{IsStoreTurn};
ghost use Rattle.user_tasks.specs.Tasks.{UserTurns, UserJobs, tasks};

use crate::looks::Looks;
use crate::made::further_spec;
use crate::stores::store_turn;
use crate::turns::{ending, opening, quiet, removing};
use journal_model::{Birth, Reply, Secret};
use open_task::OpenTask;
use std::alloc::Global;
use std::marker::Model;
use store_task::{Progress, StoreTask};
use task_turns::{Answer, Call, Next};
use tree_model::{Blob, NoMemory, Place, Site, Slot};
use user_world::LocalChange;

/// Where a protect stands.
#[derive(Clone, Copy, Debug, PartialEq, Eq)]
pub enum ProtectStage {
    /// The key is being opened with the secret that is known.
    Opening,
    /// It was opened: what an earlier command left at the temporary place is being removed.
    Clearing,
    /// The key's further directory is being stored.
    Storing,
    /// It is at its place: the user has one more slot.
    Added,
    /// And that is durable.
    Ended,
}

/// A protect on its way: a user's credential key is opened with one secret, and stored in a further slot under
/// another.
#[derive(Drop)]
pub struct Protect {
    made: Birth,
    opening: OpenTask,
    store: StoreTask,
    stage: ProtectStage,
}

impl Model for Protect {
    ghost use Rattle.open_task.specs.contracts.stages.Stage as opening_stage;
    ghost use Rattle.std.specs.Coded.{codes};
    ghost use Rattle.user_tasks.specs.Protect.{Protecting, IsProtecting};

    ghost Value = { Protecting };

    ghost coded = { Prim.hlevel (codes, opening_stage.the_row.coded) };

    ghost view = { λ protect. record {
      made = protect.made;
      opening = protect.opening;
      store = protect.store;
      stage = protect.stage;
    } };

    ghost invariant = { λ protect. IsProtecting (record {
      made = protect.made;
      opening = protect.opening;
      store = protect.store;
      stage = protect.stage;
    }) };
}

impl Protect {
    /// The user's protect as it begins, with the task that opens the key, the slot that it is stored in under the
    /// fresh secret, and the bytes that are made for it from the boot's seed.
    pub fn first(
        alloc: Global,
        opening: OpenTask,
        fresh: Secret,
        next: Slot,
        made: Birth,
        number: u64,
        boot_seed: &[u8; 32],
    ) -> Result<Protect, NoMemory>
        requires number { number < 65536 }
        requires reading { key_in opening.stage ≡ None }
        ensures first { IfOk result (IsFirstProtect opening.user made number boot_seed.now fresh next) }
        ensures opening { IfOk result (λ protect. protect.opening ≡ opening) }
    {
        let spec = further_spec(alloc, boot_seed, opening.user(), made, next, fresh)?;
        Ok(Protect {
            made,
            opening,
            store: StoreTask::new(spec, 65536 * number + 1),
            stage: ProtectStage::Opening,
        })
    }

    /// Whose it is.
    pub fn user(&self) -> u32
        ensures { result ≡ user_of self.now }
    {
        self.opening.user()
    }

    /// The next turn.
    pub fn next(&self, alloc: Global, looks: Looks) -> Result<Next, NoMemory>
        ensures turn { IfOk result (UserTurns (OfProtect self.now) looks) }
        ensures asks { IfOk result (Asks (seen_of tasks (OfProtect self.now))) }
        ensures jobs { IfOk result (UserJobs (OfProtect self.now) looks) }
    {
        match self.stage {
            ProtectStage::Opening => match self.opening.next(alloc)? {
                Some(doing) => Ok(opening(self.user(), doing)),
                None => Ok(Next::Reply(Reply::WrongSecret)),
            },
            ProtectStage::Clearing => match looks.in_the_way {
                Some(Site::Temp) => Ok(removing(self.user(), Site::Temp)),
                _ => self.store_turn(alloc),
            },
            ProtectStage::Storing => self.store_turn(alloc),
            ProtectStage::Added => Ok(quiet(Call::Sync)),
            ProtectStage::Ended => Ok(ending(looks.due, false, Reply::Done)),
        }
    }

    /// The protect after an answer to its turn. It takes no memory.
    pub fn heard(&mut self, answer: Answer)
        requires hears { hears self.old answer }
        ensures after { self.new ≡ after self.old answer }
    {
        match self.stage {
            ProtectStage::Opening => self.heard_opening(answer),
            ProtectStage::Clearing => match answer {
                Answer::Done => {}
                answer => self.heard_storing(answer),
            },
            ProtectStage::Storing => self.heard_storing(answer),
            ProtectStage::Added => self.stage = ProtectStage::Ended,
            ProtectStage::Ended => {}
        }
    }

    /// The blobs that it holds, in the order in which they were made.
    pub fn held(&self) -> [Option<Blob>; 2]
        ensures { all_held result ≡ (protect_rest self.now).held }
    {
        match self.stage {
            ProtectStage::Storing => [self.store.held(), None],
            ProtectStage::Opening | ProtectStage::Clearing => [None, None],
            ProtectStage::Added | ProtectStage::Ended => [None, None],
        }
    }

    /// The same protect in memory of its own.
    pub fn duplicate(&self, alloc: Global) -> Result<Protect, NoMemory>
        ensures { IfOk result (λ copied. copied ≡ self.now) }
    {
        Ok(Protect {
            made: self.made,
            opening: self.opening.duplicate(alloc)?,
            store: self.store.duplicate(alloc)?,
            stage: self.stage,
        })
    }

    /// The next turn of the task that stores the key.
    fn store_turn(&self, alloc: Global) -> Result<Next, NoMemory>
        requires goes_on { progress_of self.now.store.stage ≢ Stored }
        ensures turn { IfOk result (IsStoreTurn (user_of self.now) self.now.store (Some (change_by self.now))) }
    {
        let change = self.change(alloc)?;
        store_turn(alloc, self.user(), &self.store, Some(change))
    }

    /// The change that it makes.
    fn change(&self, alloc: Global) -> Result<LocalChange, NoMemory>
        ensures { IfOk result (λ change. change ≡ change_by self.now) }
    {
        let spec = self.store.spec();
        Ok(LocalChange::Added {
            slot: slot_at(spec.target),
            secret: spec.secret.duplicate(alloc)?,
        })
    }

    fn heard_opening(&mut self, answer: Answer)
        requires hears { OpenAnswer self.old.opening answer }
        requires stage { self.old.stage ≡ IsOpening }
        ensures after { self.new ≡ after_opening self.old answer }
    {
        self.opening.heard(answer);
        if let Some(key) = self.opening.key() {
            self.store.set_key(key);
            self.stage = ProtectStage::Clearing;
        }
    }

    fn heard_storing(&mut self, answer: Answer)
        requires hears { IsAnswer self.old.store answer }
        ensures after { self.new ≡ after_storing self.old answer }
    {
        self.store.heard(answer);
        self.stage = after_store(self.store.progress());
    }
}

/// The slot of a credential key's place.
fn slot_at(place: Place) -> Slot
    ensures { result ≡ slot_at place }
{
    match place {
        Place::Ce(_, slot) => slot,
        Place::De(_) | Place::Temp(_) => Slot::Current,
    }
}

/// The stage once the directory is so far.
fn after_store(progress: Progress) -> ProtectStage
    ensures { result ≡ after_store progress }
{
    match progress {
        Progress::Stored => ProtectStage::Added,
        _ => ProtectStage::Storing,
    }
}
