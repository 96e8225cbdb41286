ghost use Rattle.std.specs.Prelude.{◌≡◌, None, slice_get};
ghost use Rattle.std.specs.FinMap as map;
ghost use Rattle.task_turns.specs.declared.next.Next.TheVariants.{Call as CallNext};
ghost use Rattle.tree_model.specs.Tree.{user_of};
ghost use Rattle.vold_book.specs.Recovery.{CountsFew, RecoveryTurns, next_read, recovery_after};

use crate::sweeping;
use journal_model::Reply;
use step_core::Table;
use task_turns::{Call, Next};
use tree_model::{LocalOp, Place, Site};

/// A recovery on its way: what it does next.
#[derive(Clone, Copy, Debug, PartialEq, Eq)]
pub enum Recovery {
    /// It lists the tree.
    Listing,
    /// It removes what commands left half made.
    Sweeping,
    /// It reads the directories that are left, of which it read so many.
    Reading(u64),
    /// Every directory is known and durable.
    Settled,
    /// What no directory names is listed.
    Listed,
}

impl Recovery {
    /// The next turn, from the known places and whether an operation is pending.
    pub fn next(self, table: &Table, dirty: bool) -> Next
        ensures { RecoveryTurns table.now.places dirty self result }
    {
        match self {
            Recovery::Listing => call(Call::List),
            Recovery::Sweeping => match sweeping::first_left(table) {
                Some(place) => call(Call::Op {
                    user: user_of(place),
                    op: LocalOp::RemoveDir(Site::of(place)),
                    names: None,
                }),
                None => read(table, 0, dirty),
            },
            Recovery::Reading(count) => read(table, count, dirty),
            Recovery::Settled => call(Call::Entries),
            Recovery::Listed => Next::Reply(Reply::Ended(0)),
        }
    }

    /// What it is after a call that was done.
    pub fn after(self, call: &Call) -> Recovery
        requires { CountsFew self }
        ensures { result ≡ recovery_after call.now self }
    {
        match call {
            Call::List => Recovery::Sweeping,
            Call::Read(_) => match self {
                Recovery::Reading(count) => Recovery::Reading(count + 1),
                _ => Recovery::Reading(1),
            },
            Call::Sync => Recovery::Settled,
            Call::Entries => Recovery::Listed,
            _ => self,
        }
    }
}

/// Reads the next directory; once all are read, everything is made durable, and the keystore's entries are listed.
fn read(table: &Table, count: u64, dirty: bool) -> Next
    ensures { result ≡ next_read (slice_get (map.keys table.now.places) count) dirty }
{
    match table.places().get(count as usize) {
        Some(place) => call(Call::Read(*place)),
        None if dirty => call(Call::Sync),
        None => call(Call::Entries),
    }
}

/// A call that makes no change.
fn call(call: Call) -> Next
    ensures { result ≡ CallNext call None }
{
    Next::Call { call, change: None }
}

/// Whose place it is.
fn user_of(place: Place) -> u32
    ensures { result ≡ user_of place }
{
    match place {
        Place::De(user) | Place::Ce(user, _) | Place::Temp(user) => user,
    }
}
