ghost use Rattle.std.specs.Prelude.{◌≡◌, [], length};
ghost use Rattle.vold_book.specs.Tasks.{blobs_in, held_in, lists_with, begins_anew, fault_of, task_heard};
ghost use Rattle.vold_book.specs.Steps.{task_now};
ghost use Rattle.vold_book.specs.Tasks.{HearsAnswer, HearsMade, TaskAfter, is_untold};
ghost use Rattle.vold_book.specs.Owed.{CanTry, after_try, with_more};
ghost use Rattle.bench.specs.Bench.{was_done};

use crate::owed::Owed;
use crate::recovery::Recovery;
use bench::Made;
use journal_model::{Device, Reply};
use std::alloc::Global;
use task_turns::{Answer, Call};
use tree_model::Blob;
use user_tasks::UserTask;

/// The blobs that a command held when its device failed, in the order in which they were made.
#[derive(Clone, Copy)]
pub struct Held {
    pub first: Option<Blob>,
    pub second: Option<Blob>,
}

/// What an actor's command does next.
#[derive(Drop)]
pub enum Task {
    /// The next turn of a user's command.
    User(UserTask),
    /// The next turn of a recovery.
    Recovery(Recovery),
    /// It is told that it was refused.
    Refusal(Reply),
    /// It is told that the device failed in its last turn, and lists what it held.
    Fault(Device, Held),
}

/// A command that began: its number, what it does next, and what it listed.
#[derive(Drop)]
pub struct Running {
    pub number: u64,
    pub task: Task,
    pub owed: Owed,
}

impl Held {
    /// None.
    pub fn nothing() -> Held
        ensures { blobs_in result ≡ [] }
    {
        Held {
            first: None,
            second: None,
        }
    }

    /// How many they are.
    pub fn count(self) -> u64
        ensures { result ≡ length (blobs_in self) }
    {
        u64::from(self.first.is_some()) + u64::from(self.second.is_some())
    }
}

impl Running {
    /// What stands for a command while its task is taken out.
    pub fn none(alloc: Global) -> Running {
        Running {
            number: 0,
            task: Task::Refusal(Reply::Ready),
            owed: Owed::nothing(alloc),
        }
    }

    /// The command after a call that it made and that listed `more`; `worked` is the user's task with its jobs done,
    /// where it asked for any.
    pub fn after(
        self,
        call: &Call,
        worked: Option<UserTask>,
        made: Made,
        more: Option<Owed>,
    ) -> Running
        requires tries { CanTry call.now }
        requires hears { HearsMade call.now (task_now worked self.task) made }
        ensures number { result.number ≡ self.number }
        ensures task { TaskAfter call.now made (task_now worked self.task) result.task }
        ensures owed { result.owed ≡ after_try call.now (with_more (was_done made) more self.owed) }
    {
        let Running { number, task, owed } = self;
        let owed = owed.after(call, made.was_done(), more);
        Running {
            number,
            task: task.worked(worked).after(call, made),
            owed,
        }
    }
}

impl Task {
    /// The task after a call that it made: with what it hears, or, where the device failed, that this is to be told. A
    /// delete that failed and isn't told is as one that was done.
    fn after(self, call: &Call, made: Made) -> Task
        requires { HearsMade call.now self made }
        ensures { TaskAfter call.now made self result }
    {
        match made {
            Made::Heard(answer) => self.heard(call, answer),
            Made::Failed(_) if is_untold(call) => self.heard(call, Answer::Done),
            Made::Failed(device) => Task::Fault(device, self.held()),
        }
    }

    /// The task with what it hears of a call that was done.
    fn heard(self, call: &Call, answer: Answer) -> Task
        requires { HearsAnswer self answer }
        ensures { result ≡ task_heard call.now answer self }
    {
        match self {
            Task::User(mut task) => {
                task.heard(answer);
                Task::User(task)
            }
            Task::Recovery(recovery) => Task::Recovery(recovery.after(call)),
            other => other,
        }
    }

    /// The task, or the user's with its jobs done, where it asked for any.
    fn worked(self, done: Option<UserTask>) -> Task
        ensures { result ≡ task_now done self }
    {
        match done {
            Some(task) => Task::User(task),
            None => self,
        }
    }

    /// Whether it is a recovery's, which begins with nothing known and nothing listed.
    pub fn begins_anew(&self) -> bool
        ensures { result ≡ begins_anew self.now }
    {
        matches!(self, Task::Recovery(_))
    }

    /// The blobs that it holds.
    fn held(&self) -> Held
        ensures { blobs_in result ≡ held_in self.now }
    {
        match self {
            Task::User(task) => {
                let [first, second] = task.held();
                Held { first, second }
            }
            Task::Fault(_, held) => *held,
            Task::Recovery(_) | Task::Refusal(_) => Held::nothing(),
        }
    }

    /// What it lists with its reply: what a command held which failed.
    pub fn failed_with(&self) -> Held
        ensures { blobs_in result ≡ lists_with self.now }
    {
        match self {
            Task::Fault(_, held) => *held,
            _ => Held::nothing(),
        }
    }
}

/// The reply that tells of a failed device.
pub fn fault_of(device: Device) -> Reply
    ensures { result ≡ fault_of device }
{
    match device {
        Device::Tree => Reply::TreeFault,
        Device::Store => Reply::StoreFault,
        Device::Ring => Reply::RingFault,
    }
}

/// Whether the call is a delete of which nobody is told where it fails.
pub fn is_untold(call: &Call) -> bool
    ensures { result ≡ is_untold call.now }
{
    matches!(call, Call::Delete { tells: false, .. })
}
