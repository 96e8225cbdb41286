ghost use Rattle.std.specs.Prelude.{◌≡◌};
ghost use Rattle.user_tasks.specs.Turns.{quiet_turn, removing_turn, fixing_turn, opening_turn, ending_turn};

use deferred_delete::Item;
use fixate_task::Doing as Fixing;
use journal_model::Reply;
use open_task::Doing as Opening;
use task_turns::{Call, Next};
use tree_model::{LocalOp, Place, Site};

/// A call that makes no change.
pub fn quiet(call: Call) -> Next
    ensures { result ≡ quiet_turn call }
{
    Next::Call { call, change: None }
}

/// The directory at one of the user's sites is removed, which is no change.
pub fn removing(user: u32, site: Site) -> Next
    ensures { result ≡ removing_turn user site }
{
    let op = LocalOp::RemoveDir(site);
    quiet(Call::Op {
        user,
        op,
        names: None,
    })
}

/// The turn that opens the user's key.
pub fn opening(user: u32, doing: Opening) -> Next
    ensures { result ≡ opening_turn user doing }
{
    match doing {
        Opening::Read(slot) => quiet(Call::Read(Place::Ce(user, slot))),
        Opening::Work(job) => Next::Work(job),
        Opening::Decrypt {
            blob,
            app_id,
            sealed,
        } => quiet(Call::Decrypt {
            blob,
            app_id,
            sealed,
        }),
    }
}

/// The turn that fixates the user's slots.
pub fn fixing(user: u32, doing: Fixing) -> Next
    ensures { result ≡ fixing_turn user doing }
{
    let op = doing.op();
    Next::Call {
        call: Call::Op {
            user,
            op,
            names: None,
        },
        change: Some(doing.change()),
    }
}

/// The turn of a command that has done its work: what it listed is deleted, item by item, and behind the last comes
/// its reply. Of a command that `tells` it is told where the keystore failed; another goes on with its next item.
pub fn ending(due: Option<Item>, tells: bool, reply: Reply) -> Next
    ensures { result ≡ ending_turn due tells reply }
{
    match due {
        Some(item) => quiet(Call::Delete { item, tells }),
        None => Next::Reply(reply),
    }
}
