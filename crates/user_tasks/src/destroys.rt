ghost use Rattle.std.specs.Prelude.{◌≡◌, IfOk};
ghost use Rattle.task_turns.specs.Turns.{Asks, seen_of};
ghost use Rattle.user_tasks.specs.declared.tasks.UserTask.TheVariants.{Destroy as OfDestroy};
ghost use Rattle.user_tasks.specs.Destroy.{first_destroy, after, stage_from, removal_turn};
ghost use Rattle.user_tasks.specs.Tasks.{UserTurns, tasks};

use crate::looks::Looks;
use crate::turns::{ending, quiet, removing};
use journal_model::Reply;
use std::alloc::Global;
use std::marker::Model;
use task_turns::{Call, Next};
use tree_model::{Class, LocalOp, NoMemory, Site, Slot};
use user_world::LocalChange;

/// Where a destroy stands.
#[derive(Clone, Copy, Debug, PartialEq, Eq)]
pub enum DestroyStage {
    /// The credential key is being taken out of the ring.
    EvictingCe,
    /// The device key is.
    EvictingDe,
    /// What an earlier command left at the temporary place is being removed.
    Clearing,
    /// The device key's directory is being removed.
    Removing,
    /// It is gone, and the user is no longer there: the credential key's directories are being removed.
    Sweeping,
    /// All are gone, and that is durable: what was listed is being deleted.
    Ending,
}

/// A destroy on its way: a user's keys leave the ring, then the user's directories the tree, the device key's first,
/// and then the entries of what these named the keystore.
#[derive(Drop)]
pub struct Destroy {
    pub user: u32,
    pub stage: DestroyStage,
    /// Whether the device key is in the ring, and a temporary directory is there.
    pub has_de: bool,
    pub has_temp: bool,
    /// The slots whose directories are still to be removed, in their order.
    pub slots: Vec<Slot>,
}

impl Model for Destroy {
    ghost use Rattle.user_tasks.specs.Destroy.{Destroying};

    ghost Value = { Destroying };

    ghost view = { λ destroy. record {
      user = destroy.user;
      stage = destroy.stage;
      has_de = destroy.has_de;
      has_temp = destroy.has_temp;
      slots = destroy.slots.items;
    } };
}

impl Destroy {
    /// The user's destroy as it begins, by what is known of the user. It takes no memory.
    pub fn first(user: u32, slots: Vec<Slot>, has_ce: bool, has_de: bool, has_temp: bool) -> Destroy
        ensures { result ≡ first_destroy user slots.items has_ce has_de has_temp }
    {
        Destroy {
            user,
            stage: stage_from(has_ce, has_de, has_temp),
            has_de,
            has_temp,
            slots,
        }
    }

    /// The next turn.
    pub fn next(&self, looks: Looks) -> Next
        ensures turn { UserTurns (OfDestroy self.now) looks result }
        ensures asks { Asks (seen_of tasks (OfDestroy self.now)) result }
    {
        let user = self.user;
        match self.stage {
            DestroyStage::EvictingCe => quiet(Call::Remove {
                user,
                class: Class::Ce,
            }),
            DestroyStage::EvictingDe => quiet(Call::Remove {
                user,
                class: Class::De,
            }),
            DestroyStage::Clearing => removing(user, Site::Temp),
            DestroyStage::Removing => ends_user(user),
            DestroyStage::Sweeping => match self.slots.first() {
                Some(slot) => removing(user, Site::Ce(*slot)),
                None => quiet(Call::Sync),
            },
            DestroyStage::Ending => ending(looks.due, true, Reply::Gone),
        }
    }

    /// The destroy after its turn. It takes no memory.
    pub fn heard(&mut self)
        ensures after { self.new ≡ after self.old }
    {
        match self.stage {
            DestroyStage::EvictingCe => {
                self.stage = stage_from(false, self.has_de, self.has_temp);
            }
            DestroyStage::EvictingDe => self.stage = stage_from(false, false, self.has_temp),
            DestroyStage::Clearing => self.stage = DestroyStage::Removing,
            DestroyStage::Removing => self.stage = DestroyStage::Sweeping,
            DestroyStage::Sweeping => match self.slots.first().copied() {
                Some(slot) => self.slots.retain(|other| *other != slot),
                None => self.stage = DestroyStage::Ending,
            },
            DestroyStage::Ending => {}
        }
    }

    /// The same destroy in memory of its own.
    pub fn duplicate(&self, alloc: Global) -> Result<Destroy, NoMemory>
        ensures { IfOk result (λ copied. copied ≡ self.now) }
    {
        Ok(Destroy {
            user: self.user,
            stage: self.stage,
            has_de: self.has_de,
            has_temp: self.has_temp,
            slots: Vec::from_slice(alloc, self.slots.as_slice())?,
        })
    }
}

/// The first stage that there is something to do at: whether the credential key is in the ring, and the device key,
/// and whether a temporary directory is there.
fn stage_from(has_ce: bool, has_de: bool, has_temp: bool) -> DestroyStage
    ensures { result ≡ stage_from has_ce has_de has_temp }
{
    if has_ce {
        DestroyStage::EvictingCe
    } else if has_de {
        DestroyStage::EvictingDe
    } else if has_temp {
        DestroyStage::Clearing
    } else {
        DestroyStage::Removing
    }
}

/// The device key's directory is removed: the user is no longer there.
fn ends_user(user: u32) -> Next
    ensures { result ≡ removal_turn user }
{
    let op = LocalOp::RemoveDir(Site::De);
    Next::Call {
        call: Call::Op {
            user,
            op,
            names: None,
        },
        change: Some(LocalChange::Destroyed),
    }
}
