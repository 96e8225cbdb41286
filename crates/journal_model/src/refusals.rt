ghost use Rattle.std.specs.Prelude.{◌≡◌, ◌^◌, ◌||◌, max, nat_le};
ghost use Rattle.journal_model.specs.Refusals.{refusal_of, due};
ghost use Rattle.journal_model.specs.Users.{max_slots, after_slot};

use crate::commands::{Command, Reply};
use tree_model::Slot;

/// The most users that are there or being created.
pub const MAX_USERS: usize = 32;

/// The most slots that a user has.
pub const MAX_SLOTS: usize = 8;

/// What decides whether a command that begins is refused.
#[derive(Clone, Copy, Debug, PartialEq, Eq)]
pub struct Facts {
    /// The user whom the command is for is there.
    pub present: bool,
    /// As many users are there or being created as there may be.
    pub crowded: bool,
    /// The credential key of this user is in the key ring.
    pub installed: bool,
    /// No slot is left for a further secret of this user.
    pub full: bool,
    /// The machine takes every command.
    pub ready: bool,
}

/// The refusal that is due when a command begins: the first that holds in the order of trial.
pub fn refusal(command: &Command, facts: Facts) -> Option<Reply>
    ensures { result ≡ refusal_of command.now facts }
{
    match command {
        Command::Create { .. } => {
            due(facts.present, Reply::UserExists).or(due(facts.crowded, Reply::TooManyUsers))
        }
        Command::Unlock { .. } => due(!facts.present, Reply::NoUser),
        Command::Lock { .. } => {
            due(!facts.present, Reply::NoUser).or(due(!facts.installed, Reply::NotInstalled))
        }
        Command::Protect { .. } => {
            due(!facts.present, Reply::NoUser).or(due(facts.full, Reply::NoSlot))
        }
        Command::Fixate { .. } | Command::Destroy { .. } => due(!facts.present, Reply::NoUser),
        Command::Recover => due(facts.ready, Reply::Ready),
    }
}

/// The refusal, where it is due.
fn due(holds: bool, refusal: Reply) -> Option<Reply>
    ensures { result ≡ due holds refusal }
{
    if holds { Some(refusal) } else { None }
}

/// The number behind a further slot and those before it, from 0.
pub fn next_after(next: u64, slot: Slot) -> u64
    ensures { result ≡ max (after_slot slot) next }
{
    match slot {
        Slot::Current => next,
        Slot::Cx(number) => next.max(u64::from(number) + 1),
    }
}

/// Whether so many slots leave none for a further secret, where this is the number behind the greatest of them: they
/// are as many as there may be, or no slot has that number.
pub fn leaves_none(count: usize, next: u64) -> bool
    ensures { result ≡ (nat_le max_slots count || nat_le (2 ^ 32) next) }
{
    MAX_SLOTS <= count || u64::from(u32::MAX) < next
}
