ghost use Rattle.std.specs.Prelude.{◌≡◌, ◌≢◌, IfOk};
ghost use Rattle.store_task.specs.declared.stages.Progress.TheVariants.{Stored};
ghost use Rattle.store_task.specs.Task.{progress_of};
ghost use Rattle.user_tasks.specs.Stores.{IsStoreTurn, op_turn, turn_of};

use crate::turns::quiet;
use std::alloc::Global;
use store_task::{Doing, StoreTask};
use task_turns::{Call, Next};
use tree_model::{Blob, LocalOp, NoMemory};
use user_world::LocalChange;

/// The next turn of a store task as one of its user's command; putting its directory in place makes this change.
pub fn store_turn(
    alloc: Global,
    user: u32,
    task: &StoreTask,
    change: Option<LocalChange>,
) -> Result<Next, NoMemory>
    requires goes_on { progress_of task.now.stage ≢ Stored }
    ensures turn { IfOk result (IsStoreTurn user task.now change) }
{
    match task.next(alloc)? {
        Some(doing) => Ok(turn_of(user, doing, task.held(), change)),
        None => unreachable!(),
    }
}

fn turn_of(user: u32, doing: Doing, named: Option<Blob>, change: Option<LocalChange>) -> Next
    ensures { result ≡ turn_of user doing named change }
{
    match doing {
        Doing::Work(job) => Next::Work(job),
        Doing::Generate { tag, app_id } => quiet(Call::Generate { tag, app_id }),
        Doing::Encrypt {
            blob,
            app_id,
            nonce,
            key,
        } => quiet(Call::Encrypt {
            blob,
            app_id,
            nonce,
            key,
        }),
        Doing::Tree(op) => op_turn(user, op, named, change),
        Doing::Sync => quiet(Call::Sync),
    }
}

/// A rename brings what the directory names, and makes the change.
fn op_turn(user: u32, op: LocalOp, named: Option<Blob>, change: Option<LocalChange>) -> Next
    ensures { result ≡ op_turn user op named change }
{
    match op {
        LocalOp::RenameDir(from, to) => {
            let op = LocalOp::RenameDir(from, to);
            let names = named;
            Next::Call {
                call: Call::Op { user, op, names },
                change,
            }
        }
        _ => quiet(Call::Op {
            user,
            op,
            names: None,
        }),
    }
}
