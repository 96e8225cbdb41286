ghost use Rattle.std.specs.Prelude.{◌≡◌};
ghost use Rattle.vold_book.specs.Stands.{stands_after, stands_in};

use journal_model::{Entry, Reply};

/// Where a command stands.
#[derive(Clone, Copy, Debug, PartialEq, Eq)]
pub enum Standing {
    /// The number is not given out.
    Unknown,
    /// It waits for its actor.
    Queued,
    /// It began, and its reply is to come.
    Running,
    /// It got this reply.
    Answered(Reply),
    /// The machine stopped after it began and before its reply.
    Lost,
}

/// Where a command that was given its number stands by the journal.
pub fn stands_in(entries: &[Entry], number: u64) -> Standing
    ensures { result ≡ stands_in entries.now number }
{
    let mut standing = Standing::Queued;
    for entry in entries {
        standing = stands_after(standing, number, entry);
    }
    standing
}

/// Where it stands after one more entry.
fn stands_after(standing: Standing, number: u64, entry: &Entry) -> Standing
    ensures { result ≡ stands_after standing number entry.now }
{
    match standing {
        Standing::Queued => match entry {
            Entry::Began { number: begun, .. } if *begun == number => Standing::Running,
            _ => Standing::Queued,
        },
        Standing::Running => match entry {
            Entry::Replied {
                number: replied,
                reply,
            } if *replied == number => Standing::Answered(*reply),
            Entry::Stopped { .. } => Standing::Lost,
            _ => Standing::Running,
        },
        Standing::Unknown | Standing::Answered(_) | Standing::Lost => standing,
    }
}
