//! What an actor's command does next, once the jobs that it asks for are done.
ghost use Rattle.std.specs.Prelude.{◌≡◌, IfOk};
ghost use Rattle.vold_book.specs.Plans.{IsSettledNext, PlansUser, next_of};

use journal_model::Reply;
use key_seal::perform;
use std::alloc::Global;
use task_turns::{Answer, Call, Next};
use tree_model::NoMemory;
use user_tasks::{Looks, UserTask};
use user_world::LocalChange;

/// What a command does next, but for a job.
#[derive(Drop)]
pub enum Plan {
    /// A call, with the change that it makes.
    Call {
        call: Call,
        change: Option<LocalChange>,
    },
    /// Its reply.
    Reply(Reply),
}

/// What a command does next.
#[derive(Drop)]
pub struct Planned {
    /// The user's task with its jobs done, where it asked for any.
    pub task: Option<UserTask>,
    pub plan: Plan,
}

/// What a user's task does next, with what its turn is told; its jobs are done.
pub fn planned_user(alloc: Global, task: &UserTask, looks: &Looks) -> Result<Planned, NoMemory>
    ensures { IfOk result (PlansUser task.now looks.now) }
{
    match task.next(alloc, *looks)? {
        Next::Work(job) => {
            let mut then = task.duplicate(alloc)?;
            let Ok(done) = perform(alloc, job) else {
                return Err(NoMemory);
            };
            then.heard(Answer::Output(done.into_output()));
            let Planned { task, plan } = planned_user(alloc, &then, looks)?;
            Ok(Planned {
                task: Some(task.unwrap_or(then)),
                plan,
            })
        }
        next => Ok(with_no_job(next)),
    }
}

/// What is planned with no job.
pub fn with_no_job(next: Next) -> Planned
    requires { IsSettledNext next }
    ensures plan { next_of result.plan ≡ next }
    ensures task { result.task ≡ None }
{
    Planned {
        task: None,
        plan: plan_of(next),
    }
}

/// A plan that asks for no job.
fn plan_of(next: Next) -> Plan
    requires { IsSettledNext next }
    ensures { next_of result ≡ next }
{
    match next {
        Next::Call { call, change } => Plan::Call { call, change },
        Next::Reply(reply) => Plan::Reply(reply),
        Next::Work(_) => unreachable!(),
    }
}
