ghost use Rattle.std.specs.Prelude.{◌≡◌};
ghost use Rattle.vold_book.specs.Entries.{entry_of, made_entry};

use bench::Made;
use journal_model::Entry;
use task_turns::Call;
use user_world::LocalChange;

/// The entry of a call of the command of this number where it was done, if it has one; a call that failed has none.
pub fn entry_of(made: &Made, call: &Call, change: Option<LocalChange>, number: u64) -> Option<Entry>
    ensures { result ≡ made_entry made.now (entry_of number call.now change) }
{
    match made {
        Made::Heard(_) => done_entry(call, change, number),
        Made::Failed(_) => None,
    }
}

fn done_entry(call: &Call, change: Option<LocalChange>, number: u64) -> Option<Entry>
    ensures { result ≡ entry_of number call.now change }
{
    match call {
        Call::Op { user, .. } => match change {
            Some(change) => Some(Entry::Changed {
                number,
                change: change.change_of(*user),
            }),
            None => None,
        },
        Call::Sync => Some(Entry::Synced),
        Call::Add { user, class, .. } => Some(Entry::Installed {
            user: *user,
            class: *class,
        }),
        Call::Remove { user, class } => Some(Entry::Evicted {
            user: *user,
            class: *class,
        }),
        Call::Delete { item, .. } => Some(Entry::Swept { blob: item.blob }),
        _ => None,
    }
}
