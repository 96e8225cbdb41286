ghost use Rattle.std.specs.Prelude.{◌≡◌, IfOk};

use crate::commands::{Actor, Command, Reply};
use crate::secrets::Secret;
use std::alloc::Global;
use tree_model::{Blob, Class, Cut, NoMemory, Slot};

/// When a user was created: the boot, and the number of commands that the user's actor had begun in it before.
#[derive(Clone, Copy, Debug, PartialEq, Eq)]
pub struct Birth {
    pub boot: u64,
    pub index: u32,
}

/// A change of the map of users.
#[derive(Drop)]
pub enum Change {
    /// The user is there from now on, with the current slot under the empty secret.
    Create {
        user: u32,
        birth: Birth,
    },
    /// The user has one more slot from now on, under this secret.
    Add {
        user: u32,
        slot: Slot,
        secret: Secret,
    },
    /// The user no longer has the slot.
    Drop {
        user: u32,
        slot: Slot,
    },
    /// The slot's secret is that of the current slot from now on, and the slot is gone.
    Settle {
        user: u32,
        slot: Slot,
    },
    /// The user is no longer there.
    Destroy {
        user: u32,
    },
}

impl Change {
    /// The same change in memory of its own.
    pub fn duplicate(&self, alloc: Global) -> Result<Change, NoMemory>
        ensures { IfOk result (λ copied. copied ≡ self.now) }
    {
        Ok(match self {
            Change::Create { user, birth } => Change::Create {
                user: *user,
                birth: *birth,
            },
            Change::Add { user, slot, secret } => Change::Add {
                user: *user,
                slot: *slot,
                secret: secret.duplicate(alloc)?,
            },
            Change::Drop { user, slot } => Change::Drop {
                user: *user,
                slot: *slot,
            },
            Change::Settle { user, slot } => Change::Settle {
                user: *user,
                slot: *slot,
            },
            Change::Destroy { user } => Change::Destroy { user: *user },
        })
    }
}

/// A line of the journal.
#[derive(Drop)]
pub enum Entry {
    /// The actor took the command of this number up.
    Began {
        number: u64,
        actor: Actor,
        command: Command,
    },
    /// The command of this number made a change.
    Changed {
        number: u64,
        change: Change,
    },
    /// The tree was synced: every change so far is durable.
    Synced,
    /// The user's key of this class is in the key ring.
    Installed {
        user: u32,
        class: Class,
    },
    /// The user's key of this class is no longer in the key ring.
    Evicted {
        user: u32,
        class: Class,
    },
    /// The blob's entry was deleted from the keystore.
    Swept {
        blob: Blob,
    },
    /// The machine stopped, and this number of changes survived.
    Stopped {
        kept: u64,
    },
    /// The machine started again, with this boot number, at this level.
    Restarted {
        boot: u64,
        level: u32,
    },
    /// The command of this number ended.
    Replied {
        number: u64,
        reply: Reply,
    },
}

/// A device of the machine, whose calls may fail.
#[derive(Clone, Copy, Debug, PartialEq, Eq)]
pub enum Device {
    Tree,
    Store,
    Ring,
}

/// What was given to the machine from outside the script's actors.
#[derive(Drop)]
pub enum Order {
    /// A stop, with what it kept.
    Stop(Cut),
}
