ghost use Rattle.std.specs.Prelude.{◌≡◌, IfOk};
ghost use Rattle.user_tasks.specs.Made.{IsMadeSpec, IsFurtherSpec, target_of};

use journal_model::{Birth, Secret, made_discardable, made_key, made_nonce};
use keystore_model::Tag;
use std::alloc::Global;
use store_task::StoreSpec;
use tree_model::{Class, NoMemory, Place, Slot};

/// What is stored of a new user's key of this class: the words of the command's stream that are its own.
pub fn made_spec(
    alloc: Global,
    boot_seed: &[u8; 32],
    user: u32,
    birth: Birth,
    class: Class,
) -> Result<StoreSpec, NoMemory>
    ensures made { IfOk result (IsMadeSpec user birth class boot_seed.now) }
{
    let index = birth.index;
    Ok(StoreSpec {
        target: target(user, class),
        tag: Tag { user, class },
        key: made_key(boot_seed, class, user, index),
        secret: Secret::empty(alloc),
        nonce: made_nonce(boot_seed, class, user, index),
        discard: made_discardable(alloc, boot_seed, class, user, index)?,
    })
}

/// What is stored of a user's credential key in a further slot under a fresh secret, but for the key, which is still
/// to be opened.
pub fn further_spec(
    alloc: Global,
    boot_seed: &[u8; 32],
    user: u32,
    made: Birth,
    slot: Slot,
    fresh: Secret,
) -> Result<StoreSpec, NoMemory>
    ensures made { IfOk result (IsFurtherSpec user made slot fresh boot_seed.now) }
{
    let class = Class::Ce;
    Ok(StoreSpec {
        target: Place::Ce(user, slot),
        tag: Tag { user, class },
        key: [0; 64],
        secret: fresh,
        nonce: made_nonce(boot_seed, class, user, made.index),
        discard: made_discardable(alloc, boot_seed, class, user, made.index)?,
    })
}

/// The place of a new user's key of this class.
fn target(user: u32, class: Class) -> Place
    ensures { result ≡ target_of user class }
{
    match class {
        Class::Ce => Place::Ce(user, Slot::Current),
        Class::De => Place::De(user),
    }
}
