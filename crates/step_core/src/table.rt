ghost use Rattle.std.specs.Prelude.{◌≡◌, ◌<◌, ◌⊎◌, ◌↔◌, IsTrue, IsSome, OnOk, OnErr, max};
ghost use Rattle.std.specs.FinMap as map;
ghost use Rattle.std.specs.FinSet as set;
ghost use Rattle.sorted_map.specs.Maps.{held, IsNextKey};
ghost use Rattle.tree_model.specs.Order.{place_cmp};
ghost use Rattle.tree_model.specs.declared.places.Place.TheVariants.{De};
ghost use Rattle.step_core.specs.Known.{Unmarks};
ghost use Rattle.step_core.specs.Table.{empty_table, with_place, without_place, without_places, named_by};

use sorted_map::SortedMap;
use std::alloc::Global;
use std::marker::Model;
use tree_model::{Blob, NoMemory, Place};

/// What is known of a place that is there.
#[derive(Clone, Copy)]
struct Known {
    named: Option<Blob>,
    marked: bool,
}

/// What the program knows of the tree without a call of its device: the places that are there, the blob that the
/// directory of each names, and a mark on the `De` places of some users. It also keeps a flag, dirty. Only `reserve`
/// takes memory.
#[derive(Drop)]
pub struct Table {
    rows: SortedMap<Place, Known>,
    room: u64,
    dirty: bool,
}

impl Model for Table {
    ghost use Rattle.std.specs.Prelude.{◌≤◌};
    ghost use Rattle.sorted_map.specs.Maps.{held};
    ghost use Rattle.tree_model.specs.Order.{place_cmp};
    ghost use Rattle.step_core.specs.Table.{TableState, table_code};
    ghost use Rattle.step_core.specs.Known.{places_of, marks_of};

    ghost Value = { TableState };

    ghost coded = { table_code };

    ghost view = { λ table. record {
      places = places_of (held place_cmp table.rows);
      marks = marks_of (held place_cmp table.rows);
      dirty = table.dirty;
      room = table.room;
    } };

    ghost invariant = { λ table. table.room ≤ table.rows.room };
}

impl Table {
    /// A table of no place, which isn't dirty.
    pub fn new(alloc: Global) -> Table
        ensures { result ≡ empty_table }
    {
        Table {
            rows: SortedMap::new(alloc),
            room: 0,
            dirty: false,
        }
    }

    /// Promises room for at least this many further places.
    pub fn reserve(&mut self, n: u64) -> Result<(), NoMemory>
        ensures promised { OnOk result (self.new ≡ record self.old { room = max self.old.room n }) }
        ensures refused { OnErr result (self.new ≡ self.old) }
    {
        self.rows.reserve(n as usize)?;
        self.room = self.room.max(n);
        Ok(())
    }

    /// The place is there and names this blob, or none. Where it was there it keeps its mark, and else it uses room
    /// that was promised.
    pub fn put(&mut self, place: Place, named: Option<Blob>)
        requires room { IsSome (map.get self.old.places place) ⊎ (0 < self.old.room) }
        ensures { self.new ≡ with_place self.old place named }
    {
        match self.rows.get(place).copied() {
            Some(Known { marked, .. }) => {
                self.rows.replace(place, Known { named, marked });
            }
            None => {
                let marked = false;
                self.rows.insert(place, Known { named, marked }).unwrap();
                self.room -= 1;
            }
        }
    }

    /// The place isn't there, nor its mark, whether or not it was.
    pub fn forget(&mut self, place: Place)
        ensures { self.new ≡ without_place self.old place }
    {
        self.rows.remove(place);
    }

    /// No place is there.
    pub fn clear(&mut self)
        ensures { self.new ≡ without_places self.old }
    {
        self.rows.clear();
    }

    /// Marks the `De` place of a user, which is there.
    pub fn mark(&mut self, user: u32)
        requires there { IsSome (map.get self.old.places (De user)) }
        ensures { self.new ≡ record self.old { marks = set.insert self.old.marks user } }
    {
        let place = Place::De(user);
        match self.rows.get(place).copied() {
            Some(Known { named, .. }) => {
                let marked = true;
                self.rows.replace(place, Known { named, marked });
            }
            None => unreachable!(),
        }
    }

    /// No place is marked.
    pub fn unmark_all(&mut self)
        ensures { self.new ≡ record self.old { marks = set.empty } }
    {
        for i in 0..self.rows.len() {
            let place = self.rows.keys()[i];
            unmark(&mut self.rows, place);
        }
    }

    /// Sets the flag.
    pub fn set_dirty(&mut self, dirty: bool)
        ensures { self.new ≡ record self.old { dirty = dirty } }
    {
        self.dirty = dirty;
    }

    /// The flag.
    pub fn dirty(&self) -> bool
        ensures { result ≡ self.now.dirty }
    {
        self.dirty
    }

    /// Whether the place is there.
    pub fn has(&self, place: Place) -> bool
        ensures { IsTrue result ↔ IsSome (map.get self.now.places place) }
    {
        self.rows.contains_key(place)
    }

    /// The blob that the place names; None where it isn't there or names none.
    pub fn named(&self, place: Place) -> Option<Blob>
        ensures { result ≡ named_by (map.get self.now.places place) }
    {
        match self.rows.get(place) {
            Some(known) => known.named,
            None => None,
        }
    }

    /// Whether the user's `De` place is marked.
    pub fn marked(&self, user: u32) -> bool
        ensures { result ≡ set.contains self.now.marks user }
    {
        match self.rows.get(Place::De(user)) {
            Some(known) => known.marked,
            None => false,
        }
    }

    /// The first place above another; None where there is none.
    pub fn next_place(&self, after: Place) -> Option<Place>
        ensures { IsNextKey self.now.places (Some after) result }
    {
        self.rows.next_key(Some(after))
    }

    /// The places, in order.
    pub fn places(&self) -> &[Place]
        ensures { result.now ≡ map.keys self.now.places }
    {
        self.rows.keys()
    }
}

/// Takes the mark from a place that is there.
fn unmark(rows: &mut SortedMap<Place, Known>, place: Place)
    requires there { IsSome (map.get (held place_cmp rows.old) place) }
    ensures unmarked { Unmarks (held place_cmp rows.old) (held place_cmp rows.new) place }
    ensures room { rows.new.room ≡ rows.old.room }
{
    match rows.get(place).copied() {
        Some(Known { named, .. }) => {
            let marked = false;
            rows.replace(place, Known { named, marked });
        }
        None => unreachable!(),
    }
}
