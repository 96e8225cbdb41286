ghost use Rattle.std.specs.Prelude.{◌≡◌, IfOk, is_some, not};
ghost use Rattle.fixate_task.specs.Task.{first, after, has_ended, op_of, change_by};
ghost use Rattle.fixate_task.specs.Turns.{FixTurns};

use std::alloc::Global;
use std::marker::Model;
use tree_model::{LocalOp, NoMemory, Site, Slot};
use user_world::LocalChange;

/// What a task does next.
#[derive(Clone, Copy, Debug, PartialEq, Eq)]
pub enum Doing {
    /// The directory of a slot that isn't kept is removed.
    Drop(Slot),
    /// The kept slot's directory, the only one by then, becomes the current one.
    Settle(Slot),
}

impl Doing {
    /// The operation on the user's places that does it.
    pub fn op(self) -> LocalOp
        ensures { result ≡ op_of self }
    {
        match self {
            Doing::Drop(slot) => LocalOp::RemoveDir(Site::Ce(slot)),
            Doing::Settle(slot) => LocalOp::RenameDir(Site::Ce(slot), Site::Ce(Slot::Current)),
        }
    }

    /// The change that it makes.
    pub fn change(self) -> LocalChange
        ensures { result ≡ change_by self }
    {
        match self {
            Doing::Drop(slot) => LocalChange::Dropped { slot },
            Doing::Settle(slot) => LocalChange::Settled { slot },
        }
    }
}

/// A task that fixates a user's slots: it drops all but the one that is kept, in their order, and makes that the
/// current one.
#[derive(Drop)]
pub struct FixateTask {
    pub kept: Slot,
    /// The slots that are still to be dropped, in their order.
    pub others: Vec<Slot>,
}

impl Model for FixateTask {
    ghost use Rattle.fixate_task.specs.Task.{Fixing};

    ghost Value = { Fixing };

    ghost view = { λ task. record { kept = task.kept; others = task.others.items } };
}

impl FixateTask {
    /// The task as it begins, of a user with these slots, which keeps this one of them. It takes no memory.
    pub fn new(slots: Vec<Slot>, kept: Slot) -> FixateTask
        ensures { result ≡ first slots.items kept }
    {
        let mut task = FixateTask {
            kept,
            others: slots,
        };
        task.keep(kept);
        task
    }

    /// Of a task with all of a user's slots among the others: it keeps this one of them. It takes no memory.
    pub fn keep(&mut self, kept: Slot)
        ensures { self.new ≡ first self.old.others kept }
    {
        self.others.retain(|slot| *slot != kept);
        self.kept = kept;
    }

    /// Whether it has nothing more to do.
    pub fn has_ended(&self) -> bool
        ensures { result ≡ has_ended self.now }
    {
        self.others.is_empty() && self.kept == Slot::Current
    }

    /// What it does next; None exactly where it has ended, and so the current slot is the user's one.
    pub fn next(&self) -> Option<Doing>
        ensures turn { FixTurns self.now result }
        ensures ended { is_some result ≡ not (has_ended self.now) }
    {
        match self.others.first() {
            Some(slot) => Some(Doing::Drop(*slot)),
            None if self.kept == Slot::Current => None,
            None => Some(Doing::Settle(self.kept)),
        }
    }

    /// The task once that was done. It takes no memory.
    pub fn heard(&mut self)
        ensures after { self.new ≡ after self.old }
    {
        match self.others.first().copied() {
            Some(slot) => self.others.retain(|other| *other != slot),
            None => self.kept = Slot::Current,
        }
    }

    /// The same task in memory of its own.
    pub fn duplicate(&self, alloc: Global) -> Result<FixateTask, NoMemory>
        ensures { IfOk result (λ copied. copied ≡ self.now) }
    {
        Ok(FixateTask {
            kept: self.kept,
            others: Vec::from_slice(alloc, self.others.as_slice())?,
        })
    }
}
