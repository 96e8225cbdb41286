//! A user's slots: those that a command with a secret has to try, and the one that a further secret comes into.

ghost use Rattle.std.specs.Prelude.{◌≡◌, length, IfOk, option_to_list};
ghost use Rattle.std.specs.FinMap as map;
ghost use Rattle.journal_model.specs.Users.{next_number};
ghost use Rattle.tree_model.specs.declared.places.Slot.TheVariants.{Current};
ghost use Rattle.bench.specs.Slots.{slot_of, slots_known};
ghost use Rattle.vold_book.specs.Slots.{slot_at, slots_in, slots_for, slots_of, last_slot, is_full};
ghost use Rattle.vold_book.specs.Slots.{slot_numbered, slot_next};

use journal_model::{Command, Secret, leaves_none, next_after};
use key_directory::fits_secret;
use std::alloc::Global;
use step_core::Table;
use tree_model::{NoMemory, Place, Slot};

/// The slots that the command has to try, the newest first: those of its user that may open with its secret.
pub fn slots_for(alloc: Global, table: &Table, command: &Command) -> Result<Vec<Slot>, NoMemory>
    ensures { IfOk result (λ slots. slots.items ≡ slots_for table.now.places command.now) }
{
    match command {
        Command::Unlock { user, secret } => slots_of(alloc, table, *user, secret),
        Command::Protect { user, known, .. } => slots_of(alloc, table, *user, known),
        _ => Ok(Vec::new(alloc)),
    }
}

fn slots_of(alloc: Global, table: &Table, user: u32, secret: &Secret) -> Result<Vec<Slot>, NoMemory>
    ensures { IfOk result (λ slots. slots.items
        ≡ slots_in table.now.places user secret.now (map.keys table.now.places)) }
{
    let mut slots = Vec::new(alloc);
    for place in table.places() {
        if let Some(slot) = slot_at(table, user, secret, *place) {
            slots.insert(0, slot)?;
        }
    }
    Ok(slots)
}

/// The slot of the place, where it is one of the user's that may open with the secret.
fn slot_at(table: &Table, user: u32, secret: &Secret, place: Place) -> Option<Slot>
    ensures { option_to_list result ≡ slot_at table.now.places user secret.now place }
{
    match place {
        Place::Ce(owner, slot)
            if owner == user && fits_secret(table.named(place), secret.as_slice()) => { Some(slot) }
        _ => None,
    }
}

/// Whether no slot is left for a further secret of the user, if there is one; one is left for a user who isn't there.
pub fn is_full(table: &Table, user: Option<u32>) -> bool
    ensures { result ≡ is_full table.now.places user }
{
    let Some(user) = user else {
        return false;
    };
    let (count, next) = numbering(table, user);
    table.has(Place::De(user)) && leaves_none(count, next)
}

/// The user's slots, in their order.
pub fn slots_known(alloc: Global, table: &Table, user: Option<u32>) -> Result<Vec<Slot>, NoMemory>
    ensures { IfOk result (λ slots. slots.items ≡ slots_of table.now.places user) }
{
    let mut slots = Vec::new(alloc);
    let Some(user) = user else {
        return Ok(slots);
    };
    for place in table.places() {
        if let Some(slot) = slot_of(user, *place) {
            slots.push(slot)?;
        }
    }
    Ok(slots)
}

/// The last of slots in their order; of none, the current one.
pub fn last_of(slots: &[Slot]) -> Slot
    ensures { result ≡ last_slot Current slots.now }
{
    slots.last().copied().unwrap_or(Slot::Current)
}

/// The slot that a further secret of the command's comes into, where one is left.
pub fn slot_next(table: &Table, command: &Command) -> Slot
    ensures { result ≡ slot_next table.now.places command.now }
{
    match command {
        Command::Protect { user, .. } => slot_numbered(numbering(table, *user).1),
        _ => Slot::Current,
    }
}

/// The slot of the number, where one has it.
fn slot_numbered(number: u64) -> Slot
    ensures { result ≡ slot_numbered number }
{
    match u32::try_from(number) {
        Ok(number) => Slot::Cx(number),
        Err(_) => Slot::Current,
    }
}

/// How many slots the user has, and the number behind the greatest of them, from 0.
fn numbering(table: &Table, user: u32) -> (usize, u64)
    ensures count { result.0 ≡ length (slots_known table.now.places user) }
    ensures next { result.1 ≡ next_number (slots_known table.now.places user) }
{
    let mut count = 0;
    let mut next = 0;
    for place in table.places() {
        if let Some(slot) = slot_of(user, *place) {
            count += 1;
            next = next_after(next, slot);
        }
    }
    (count, next)
}

/// The slot of the place, where it is one of the user's.
fn slot_of(user: u32, place: Place) -> Option<Slot>
    ensures { option_to_list result ≡ slot_of user place }
{
    match place {
        Place::Ce(owner, slot) if owner == user => Some(slot),
        _ => None,
    }
}
