ghost use Rattle.std.specs.Prelude.{◌≡◌, ◌<◌, [], IsOk, OnOk, length, slice_get, option_copied};
ghost use Rattle.key_ring.specs.Kept.{class_of};
ghost use Rattle.key_ring.specs.Ring.{IsRing, installed, removed, key_of, owners};

use indexmap::IndexMap;
use std::alloc::Global;
use std::marker::Model;
use tree_model::{Class, NoMemory};

/// Keys by their users and classes, in the order of their installation. A class, which has no hash, is whether it is
/// that of the credential key.
#[derive(Drop)]
pub struct Keys {
    rows: IndexMap<(u32, bool), [u8; 64]>,
}

impl Model for Keys {
    ghost use Rattle.indexmap.specs.IndexMap.{spare};
    ghost use Rattle.key_ring.specs.Kept.{Shelf, ring_of};
    ghost use Rattle.key_ring.specs.Ring.{IsRing};

    ghost Value = { Shelf };

    ghost view = { λ keys. record { ring = ring_of keys.rows.entries; room = spare keys.rows } };

    ghost invariant = { λ keys. IsRing (ring_of keys.rows.entries) };
}

impl Keys {
    /// No key. It takes no memory.
    pub fn new(alloc: Global) -> Keys
        ensures ring { result.ring ≡ [] }
        ensures whole { IsRing result.ring }
    {
        Keys {
            rows: IndexMap::new(alloc),
        }
    }

    /// The number of keys.
    pub fn len(&self) -> usize
        ensures { result ≡ length self.now.ring }
    {
        self.rows.len()
    }

    /// The key of a user and class; None where there is none.
    pub fn get(&self, user: u32, class: Class) -> Option<&[u8; 64]>
        ensures { option_copied result ≡ key_of self.now.ring user class }
    {
        self.rows.get(&(user, is_credential(class)))
    }

    /// The user and class of the key at a place; None past the end.
    pub fn at(&self, place: usize) -> Option<(u32, Class)>
        ensures { result ≡ slice_get (owners self.now.ring) place }
    {
        match self.rows.get_index(place) {
            Some((owner, _)) => Some((owner.0, class_of(owner.1))),
            None => None,
        }
    }

    /// Makes room for a further key.
    pub fn reserve(&mut self) -> Result<(), NoMemory>
        ensures ring { self.new.ring ≡ self.old.ring }
        ensures whole { IsRing self.new.ring }
        ensures room { OnOk result (0 < self.new.room) }
        ensures succeeds { 0 < self.old.room → IsOk result }
    {
        self.rows.reserve(1)?;
        Ok(())
    }

    /// Installs a key. It takes no memory, since there is room.
    pub fn add(&mut self, user: u32, class: Class, key: &[u8; 64])
        requires { 0 < self.old.room }
        ensures added { self.new.ring ≡ installed self.old.ring user class key.now }
        ensures whole { IsRing self.new.ring }
    {
        let owner = (user, is_credential(class));
        self.rows.insert(owner, *key).unwrap();
    }

    /// Takes the key of a user and class out, where there is one.
    pub fn remove(&mut self, user: u32, class: Class)
        ensures removed { self.new.ring ≡ removed self.old.ring user class }
        ensures whole { IsRing self.new.ring }
    {
        self.rows.shift_remove(&(user, is_credential(class)));
    }

    /// Takes all keys out.
    pub fn clear(&mut self)
        ensures ring { self.new.ring ≡ [] }
        ensures whole { IsRing self.new.ring }
    {
        self.rows.clear();
    }
}

/// Whether the class is that of the credential key.
fn is_credential(class: Class) -> bool
    ensures { class_of result ≡ class }
{
    match class {
        Class::De => false,
        Class::Ce => true,
    }
}

/// The class of the credential key, or else that of the device key.
fn class_of(credential: bool) -> Class
    ensures { result ≡ class_of credential }
{
    if credential { Class::Ce } else { Class::De }
}
