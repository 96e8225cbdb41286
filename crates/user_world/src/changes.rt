ghost use Rattle.std.specs.Prelude.{◌≡◌};
ghost use Rattle.user_world.specs.Changes.{change_of};

use journal_model::{Birth, Change, Secret};
use tree_model::Slot;

/// A change of one user's record.
#[derive(Drop)]
pub enum LocalChange {
    /// The user is there from now on.
    Born(Birth),
    /// The user has a further slot from now on, under this secret.
    Added { slot: Slot, secret: Secret },
    /// The user no longer has the slot.
    Dropped { slot: Slot },
    /// The slot is the current one from now on.
    Settled { slot: Slot },
    /// The user is no longer there.
    Destroyed,
}

impl LocalChange {
    /// The change of the journal, for this user.
    pub fn change_of(self, user: u32) -> Change
        ensures { result ≡ change_of user self }
    {
        match self {
            LocalChange::Born(birth) => Change::Create { user, birth },
            LocalChange::Added { slot, secret } => Change::Add { user, slot, secret },
            LocalChange::Dropped { slot } => Change::Drop { user, slot },
            LocalChange::Settled { slot } => Change::Settle { user, slot },
            LocalChange::Destroyed => Change::Destroy { user },
        }
    }
}
