//! How many users are there or being created.

ghost use Rattle.std.specs.Prelude.{◌≡◌, cond, length};
ghost use Rattle.docket.specs.Docket.{docket_of};
ghost use Rattle.journal_model.specs.Actor.{actor_cmp};
ghost use Rattle.vold_book.specs.Crowds.{users_in, users_coming, coming_of, is_crowded};

use crate::tasks::{Running, Task};
use docket::Docket;
use journal_model::{Actor, Command, MAX_USERS};
use step_core::Table;
use tree_model::Place;

/// Whether as many users are there or being created as there may be.
pub fn is_crowded(table: &Table, docket: &Docket<Actor, Command, Running>) -> bool
    ensures { result ≡ is_crowded table.now.places (docket_of actor_cmp docket.now) }
{
    MAX_USERS <= users_there(table).saturating_add(users_coming(table, docket))
}

/// How many users have a device key's directory.
fn users_there(table: &Table) -> usize
    ensures { result ≡ length (users_in table.now.places) }
{
    let mut count = 0;
    for place in table.places() {
        if matches!(place, Place::De(_)) {
            count += 1;
        }
    }
    count
}

/// How many users are being created who aren't there.
fn users_coming(table: &Table, docket: &Docket<Actor, Command, Running>) -> usize
    ensures { result ≡ length (users_coming table.now.places (docket_of actor_cmp docket.now)) }
{
    let mut count = 0;
    for it in docket.works() {
        if is_coming(table, docket, it) {
            count += 1;
        }
    }
    count
}

/// Whether the command that runs creates a user who isn't there, and wasn't refused.
fn is_coming(table: &Table, docket: &Docket<Actor, Command, Running>, it: &Running) -> bool
    ensures { length (coming_of table.now.places (docket_of actor_cmp docket.now).commands it.now) ≡ cond result 1 0 }
{
    if matches!(it.task, Task::Refusal(_)) {
        return false;
    }
    match docket.find(it.number) {
        Some(Command::Create { user }) => !table.has(Place::De(*user)),
        _ => false,
    }
}
