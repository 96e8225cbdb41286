ghost use Rattle.std.specs.Prelude.{◌≡◌, IfOk};
ghost use Rattle.task_turns.specs.Turns.{Asks, seen_of};
ghost use Rattle.user_tasks.specs.declared.tasks.UserTask.TheVariants.{Fixate as OfFixate};
ghost use Rattle.user_tasks.specs.Fixate.{first_fixate, after};
ghost use Rattle.user_tasks.specs.Tasks.{UserTurns, tasks};

use crate::looks::Looks;
use crate::turns::{ending, fixing, quiet};
use fixate_task::FixateTask;
use journal_model::Reply;
use std::alloc::Global;
use task_turns::{Call, Next};
use tree_model::{NoMemory, Slot};

/// A fixate on its way: the user's newest slot is kept, as the current one, and the others are dropped.
#[derive(Drop)]
pub struct Fixate {
    pub user: u32,
    pub fixing: FixateTask,
    /// The current slot is the user's one, and that is durable.
    pub fixed: bool,
    /// Whether it dropped a slot or settled one.
    pub changed: bool,
}

impl Fixate {
    /// The user's fixate as it begins, with the user's slots and the newest of them. It takes no memory.
    pub fn first(user: u32, slots: Vec<Slot>, newest: Slot) -> Fixate
        ensures { result ≡ first_fixate user slots.items newest }
    {
        Fixate {
            user,
            fixing: FixateTask::new(slots, newest),
            fixed: false,
            changed: false,
        }
    }

    /// The next turn.
    pub fn next(&self, looks: Looks) -> Next
        ensures turn { UserTurns (OfFixate self.now) looks result }
        ensures asks { Asks (seen_of tasks (OfFixate self.now)) result }
    {
        if self.fixed {
            return ending(looks.due, false, Reply::Done);
        }
        match self.fixing.next() {
            Some(doing) => fixing(self.user, doing),
            None if looks.durable && !self.changed => ending(looks.due, false, Reply::Done),
            None => quiet(Call::Sync),
        }
    }

    /// The fixate after its turn. It takes no memory.
    pub fn heard(&mut self)
        ensures after { self.new ≡ after self.old }
    {
        if self.fixing.has_ended() {
            self.fixed = true;
        } else {
            self.fixing.heard();
            self.changed = true;
        }
    }

    /// The same fixate in memory of its own.
    pub fn duplicate(&self, alloc: Global) -> Result<Fixate, NoMemory>
        ensures { IfOk result (λ copied. copied ≡ self.now) }
    {
        Ok(Fixate {
            user: self.user,
            fixing: self.fixing.duplicate(alloc)?,
            fixed: self.fixed,
            changed: self.changed,
        })
    }
}
