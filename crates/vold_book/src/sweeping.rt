//! What of the known places is in the way of a command or left half made.

ghost use Rattle.std.specs.Prelude.{◌↔◌, IsTrue, IsSome, MatchOption};
ghost use Rattle.std.specs.FinMap as map;
ghost use Rattle.vold_book.specs.Sweeping.{IsFirstInTheWay, IsNextSite, IsSlotOf, NoneBelow};
ghost use Rattle.vold_book.specs.Sweeping.{IsTemporary, IsDebris, IsFirstLeft, NoneLeft};

use step_core::Table;
use tree_model::{Place, Site, Slot};

/// The first place that a create of the user has to clear: the temporary one, then those of credential keys, in order.
pub fn in_the_way(table: &Table, user: u32) -> Option<Place>
    ensures { IsFirstInTheWay table.now.places user result }
{
    let temp = Place::Temp(user);
    let current = Place::Ce(user, Slot::Current);
    if table.has(temp) {
        return Some(temp);
    }
    if table.has(current) {
        return Some(current);
    }
    let next = table.next_place(current)?;
    if is_slot_of(next, user) {
        Some(next)
    } else {
        None
    }
}

/// The first of the user's sites that a create has to clear.
pub fn site_in_the_way(table: &Table, user: u32) -> Option<Site>
    ensures { IsNextSite table.now.places user result }
{
    match in_the_way(table, user) {
        Some(place) => Some(Site::of(place)),
        None => None,
    }
}

/// Whether the place is one of the user's credential keys.
fn is_slot_of(place: Place, user: u32) -> bool
    ensures { IsTrue result ↔ IsSlotOf user place }
{
    match place {
        Place::Ce(owner, _) => owner == user,
        Place::De(_) | Place::Temp(_) => false,
    }
}

/// The first place that a recovery removes: the temporary ones, then those of credential keys whose users aren't
/// there, each in order.
pub fn first_left(table: &Table) -> Option<Place>
    ensures { IsFirstLeft table.now.places result }
{
    match first_temporary(table) {
        Some(place) => Some(place),
        None => first_debris(table),
    }
}

/// The first temporary place.
fn first_temporary(table: &Table) -> Option<Place>
    ensures { MatchOption result (NoneLeft table.now.places IsTemporary)
        (λ place. IsTemporary place × IsSome (map.get table.now.places place)
        × NoneBelow table.now.places IsTemporary place) }
{
    for place in table.places() {
        if is_temporary(*place) {
            return Some(*place);
        }
    }
    None
}

fn is_temporary(place: Place) -> bool
    ensures { IsTrue result ↔ IsTemporary place }
{
    match place {
        Place::Temp(_) => true,
        Place::De(_) | Place::Ce(_, _) => false,
    }
}

/// The first place of a credential key whose user isn't there.
fn first_debris(table: &Table) -> Option<Place>
    ensures { MatchOption result (NoneLeft table.now.places (IsDebris table.now.places))
        (λ place. IsDebris table.now.places place × IsSome (map.get table.now.places place)
        × NoneBelow table.now.places (IsDebris table.now.places) place) }
{
    for place in table.places() {
        if is_debris(table, *place) {
            return Some(*place);
        }
    }
    None
}

fn is_debris(table: &Table, place: Place) -> bool
    ensures { IsTrue result ↔ IsDebris table.now.places place }
{
    match place {
        Place::Ce(user, _) => !table.has(Place::De(user)),
        Place::De(_) | Place::Temp(_) => false,
    }
}
