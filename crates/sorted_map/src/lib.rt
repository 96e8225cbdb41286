//! A map kept as a vector in the order of its keys. Unlike a tree it takes memory only for a key beyond the room that
//! was promised, and lends its keys as a slice.
#![tactic(auto)]

ghost use Rattle.std.specs.Prelude.{◌≡◌, ◌+◌, ◌^◌, ◌<◌, ◌≤◌, ◌↔◌, length, IsTrue, IsSome, IfSome, IfNone, IsOk};
ghost use Rattle.std.specs.Prelude.{IfOk, OnOk, OnErr, IfErr, Some, slice_get, option_copied};
ghost use Rattle.std.specs.FinMap as map;
ghost use Rattle.std.specs.List.{zip, find as first_that};
ghost use Rattle.std.specs.List.Sorted.{IsStrictlySortedBy};
ghost use Rattle.sorted_map.specs.Maps.{held, IsNextKey};
ghost use Rattle.sorted_map.specs.Rows.{IsAligned, is_after, StandsAt, BelongsAt};

mod exact;

pub use exact::ExactOrd;
use std::alloc::Global;
use std::marker::Model;
use std::mem;
use tree_model::NoMemory;

/// A map from keys to values.
#[derive(Drop)]
pub struct SortedMap<K: Ord + ExactOrd + Copy, V> {
    keys: Vec<K>,
    values: Vec<V>,
}

impl<K: Ord + ExactOrd + Copy, V> Model for SortedMap<K, V> {
    ghost use Rattle.std.specs.Prelude.{◌-◌, min, vec_len};
    ghost use Rattle.std.specs.Vec.{vec_capacity};
    ghost use Rattle.std.specs.List.{zip};
    ghost use Rattle.sorted_map.specs.Maps.{Stored, stored_code};
    ghost use Rattle.sorted_map.specs.Rows.{IsAligned};

    ghost Value = { Stored K V };

    ghost coded = { stored_code K.code V.code };

    ghost view = { λ map. record {
      rows = zip map.keys.items map.values.items;
      room = min (vec_capacity map.keys - vec_len map.keys) (vec_capacity map.values - vec_len map.values);
    } };

    ghost invariant = { λ map. IsAligned K.cmp map.keys.items map.values.items };
}

impl<K: Ord + ExactOrd + Copy, V> SortedMap<K, V> {
    /// An empty map, which takes no memory.
    pub fn new(alloc: Global) -> SortedMap<K, V>
        ensures { held K.cmp result ≡ map.empty }
    {
        SortedMap {
            keys: Vec::new(alloc),
            values: Vec::new(alloc),
        }
    }

    /// The map of keys that strictly rise, each with its value.
    pub fn from_vectors(keys: Vec<K>, values: Vec<V>) -> SortedMap<K, V>
        requires { IsAligned K.cmp keys.items values.items }
        ensures { held K.cmp result ≡ map.from_sorted (zip keys.items values.items) }
    {
        SortedMap { keys, values }
    }

    /// Takes every key out, and keeps the room.
    pub fn clear(&mut self)
    where
        V: Drop,
        ensures held { held K.cmp self.new ≡ map.empty }
        ensures room { self.old.room ≤ self.new.room }
    {
        self.keys.clear();
        self.values.clear();
    }

    /// The number of keys.
    pub fn len(&self) -> usize
        ensures { result ≡ map.len (held K.cmp self.now) }
    {
        self.keys.len()
    }

    /// Whether there is no key.
    pub fn is_empty(&self) -> bool
        ensures { IsTrue result ↔ (held K.cmp self.now ≡ map.empty) }
    {
        self.keys.is_empty()
    }

    /// The keys, in order.
    pub fn keys(&self) -> &[K]
        ensures { result.now ≡ map.keys (held K.cmp self.now) }
    {
        self.keys.as_slice()
    }

    /// The values, in the order of their keys.
    pub fn values(&self) -> &[V]
        ensures { result.now ≡ map.values (held K.cmp self.now) }
    {
        self.values.as_slice()
    }

    /// Makes room for this many further keys.
    pub fn reserve(&mut self, further: usize) -> Result<(), NoMemory>
        ensures held { held K.cmp self.new ≡ held K.cmp self.old }
        ensures room { OnOk result (further ≤ self.new.room) }
        ensures kept { self.old.room ≤ self.new.room }
        ensures succeeds { further ≤ self.old.room → IsOk result }
    {
        self.keys.reserve(further)?;
        self.values.reserve(further)?;
        Ok(())
    }

    /// The value of a key; None where it isn't there.
    pub fn get(&self, key: K) -> Option<&V>
        ensures { option_copied result ≡ map.get (held K.cmp self.now) key }
    {
        match place(self.keys.as_slice(), key) {
            Ok(at) => Some(&self.values[at]),
            Err(_) => None,
        }
    }

    /// Whether the key is there.
    pub fn contains_key(&self, key: K) -> bool
        ensures { IsTrue result ↔ IsSome (map.get (held K.cmp self.now) key) }
    {
        place(self.keys.as_slice(), key).is_ok()
    }

    /// The key has the value from now on, and the value that it had comes back. Only a key that is new takes room, and
    /// memory only where no room is left.
    pub fn insert(&mut self, key: K, value: V) -> Result<Option<V>, NoMemory>
    where
        V: Drop,
        ensures held { OnOk result (held K.cmp self.new ≡ map.insert (held K.cmp self.old) key value) }
        ensures before { IfOk result (λ before. before ≡ map.get (held K.cmp self.old) key) }
        ensures room { self.old.room ≤ self.new.room + 1 }
        ensures kept { IsSome (map.get (held K.cmp self.old) key) → self.new.room ≡ self.old.room }
        ensures succeeds { 0 < self.old.room → IsOk result }
        ensures there { IsSome (map.get (held K.cmp self.old) key) → IsOk result }
        ensures refused { OnErr result (self.new ≡ self.old) }
    {
        match place(self.keys.as_slice(), key) {
            Ok(at) => Ok(Some(mem::replace(&mut self.values[at], value))),
            Err(at) => {
                self.keys.reserve(1)?;
                self.values.reserve(1)?;
                self.keys.insert(at, key).unwrap();
                self.values.insert(at, value).unwrap();
                Ok(None)
            }
        }
    }

    /// Takes the key out with its value; None where it isn't there.
    pub fn remove(&mut self, key: K) -> Option<V>
        ensures value { result ≡ map.get (held K.cmp self.old) key }
        ensures held { held K.cmp self.new ≡ map.remove (held K.cmp self.old) key }
        ensures room { IfSome result (λ _. self.new.room ≡ self.old.room + 1) }
        ensures kept { IfNone result (self.new.room ≡ self.old.room) }
    {
        match place(self.keys.as_slice(), key) {
            Ok(at) => {
                self.keys.remove(at);
                Some(self.values.remove(at))
            }
            Err(_) => None,
        }
    }

    /// The key, which is there, has this value in place of the one that comes back.
    pub fn replace(&mut self, key: K, value: V) -> V
        requires { IsSome (map.get (held K.cmp self.old) key) }
        ensures value { map.get (held K.cmp self.old) key ≡ Some result }
        ensures held { held K.cmp self.new ≡ map.insert (held K.cmp self.old) key value }
        ensures room { self.new.room ≡ self.old.room }
    {
        match place(self.keys.as_slice(), key) {
            Ok(at) => mem::replace(&mut self.values[at], value),
            Err(_) => unreachable!(),
        }
    }

    /// The first key above another, or the first of all; None where there is none.
    pub fn next_key(&self, after: Option<K>) -> Option<K>
        ensures { IsNextKey (held K.cmp self.now) after result }
    {
        let keys = self.keys.as_slice();
        let at = place_after(keys, after);
        if at < keys.len() {
            Some(keys[at])
        } else {
            None
        }
    }
}

/// Where the key stands, or where it belongs.
fn place<K: Ord + ExactOrd + Copy>(keys: &[K], key: K) -> Result<usize, usize>
    requires { IsStrictlySortedBy K.cmp keys.now }
    ensures there { IfOk result (StandsAt K.cmp key keys.now) }
    ensures absent { IfErr result (BelongsAt K.cmp key keys.now) }
{
    keys.binary_search(&key)
}

/// The place of the first key above another, or of the first of all, and else the number of keys.
fn place_after<K: Ord + ExactOrd + Copy>(keys: &[K], after: Option<K>) -> usize
    requires rising { IsStrictlySortedBy K.cmp keys.now }
    requires few { length keys.now < 2 ^ 64 }
    ensures { slice_get keys.now result ≡ first_that (is_after K.cmp after) keys.now }
{
    match after {
        None => 0,
        Some(key) => match place(keys, key) {
            Ok(at) => at + 1,
            Err(at) => at,
        },
    }
}

#[cfg(test)]
mod tests {
    use super::*;
    use std::test::Fail;
    use tree_model::{Place, Slot};

    #[test]
    fn keeps_numbers_in_order(rt: HostRuntime) -> Result<(), Fail> {
        let mut map = SortedMap::new(rt.alloc());
        assert!(rt; map.is_empty());
        map.reserve(2)?;
        for (key, value, before) in [
            (7u32, 70u8, None),
            (3, 30, None),
            (9, 90, None),
            (3, 31, Some(30)),
        ] {
            assert_eq!(rt; map.insert(key, value)?, before, "at {key}");
        }
        assert_eq!(rt; map.keys(), [3, 7, 9].as_slice());
        assert_eq!(rt; map.values(), [31, 70, 90].as_slice());
        assert_eq!(rt; map.get(9).copied(), Some(90));
        assert!(rt; map.contains_key(7));
        assert_eq!(rt; map.replace(7, 71), 70);
        assert_eq!(rt; map.remove(3), Some(31));
        assert_eq!(rt; map.remove(4), None);
        assert_eq!(rt; map.len(), 2);
        for (after, next) in [
            (None, Some(7)),
            (Some(6), Some(7)),
            (Some(7), Some(9)),
            (Some(9), None),
        ] {
            assert_eq!(rt; map.next_key(after), next, "after {after:?}");
        }
        Ok(())
    }

    #[test]
    fn keeps_places_in_order(rt: HostRuntime) -> Result<(), Fail> {
        let mut map = SortedMap::new(rt.alloc());
        for place in [
            Place::Temp(1),
            Place::Ce(2, Slot::Cx(4)),
            Place::De(5),
            Place::Ce(2, Slot::Current),
        ] {
            map.insert(place, ())?;
        }
        let order = [
            Place::De(5),
            Place::Ce(2, Slot::Current),
            Place::Ce(2, Slot::Cx(4)),
            Place::Temp(1),
        ];
        assert_eq!(rt; map.keys(), order.as_slice());
        Ok(())
    }
}
