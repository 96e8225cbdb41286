ghost use Rattle.std.specs.Prelude.{◌≡◌, ◌+◌, ◌<◌, ◌≤◌, ◌↔◌, [], length, Some};
ghost use Rattle.std.specs.Prelude.{IsTrue, IsSome, IfSome, IfNone, IsOk, IfOk, OnOk, OnSome, option_copied};
ghost use Rattle.std.specs.FinMap as map;
ghost use Rattle.tree_model.specs.Tree.{at_dir, renamed_file, renamed_dir, after_op};
ghost use Rattle.tree_model.specs.Disk.{filled, image};

use sorted_map::SortedMap;
use std::alloc::Global;
use std::marker::Model;
use tree_model::{Bytes, Dir, FileName, Fill, NoMemory, Op, Place};

/// The directories of a tree, in the order of their places.
#[derive(Drop)]
pub struct Folders {
    dirs: SortedMap<Place, Dir>,
}

impl Model for Folders {
    ghost use Rattle.sorted_map.specs.Maps.{held};
    ghost use Rattle.tree_model.specs.Order.{place_cmp};
    ghost use Rattle.tree_memory.specs.Shelf.{Shelf, shelf_code};

    ghost Value = { Shelf };

    ghost coded = { shelf_code };

    ghost view = { λ folders. record { tree = held place_cmp folders.dirs; room = folders.dirs.room } };
}

impl Folders {
    /// No directory.
    pub fn new(alloc: Global) -> Folders
        ensures { result.tree ≡ map.empty }
    {
        Folders {
            dirs: SortedMap::new(alloc),
        }
    }

    /// The same directories in memory of their own.
    pub fn duplicate(&self, alloc: Global) -> Result<Folders, NoMemory>
        ensures { IfOk result (λ copied. copied.tree ≡ self.now.tree) }
    {
        let places = Vec::from_slice(alloc, self.dirs.keys())?;
        let mut dirs = Vec::new(alloc);
        for dir in self.dirs.values() {
            dirs.push(dir.duplicate(alloc)?)?;
        }
        Ok(Folders {
            dirs: SortedMap::from_vectors(places, dirs),
        })
    }

    /// Makes room for this many further places.
    pub fn reserve(&mut self, further: usize) -> Result<(), NoMemory>
        ensures tree { self.new.tree ≡ self.old.tree }
        ensures room { OnOk result (further ≤ self.new.room) }
        ensures kept { self.old.room ≤ self.new.room }
    {
        self.dirs.reserve(further)
    }

    /// The places, in order.
    pub fn places(&self) -> &[Place]
        ensures { result.now ≡ map.keys self.now.tree }
    {
        self.dirs.keys()
    }

    /// The number of places.
    pub fn len(&self) -> usize
        ensures { result ≡ map.len self.now.tree }
    {
        self.dirs.len()
    }

    /// Whether the place is there.
    pub fn has(&self, place: Place) -> bool
        ensures { IsTrue result ↔ IsSome (map.get self.now.tree place) }
    {
        self.dirs.contains_key(place)
    }

    /// The directory at a place; None where there is none.
    pub fn get(&self, place: Place) -> Option<&Dir>
        ensures { option_copied result ≡ map.get self.now.tree place }
    {
        self.dirs.get(place)
    }

    /// Applies an operation. It takes no memory, since there is room for a further place.
    pub fn apply(&mut self, op: Op)
        requires { 0 < self.old.room }
        ensures tree { self.new.tree ≡ after_op self.old.tree op }
        ensures room { self.old.room ≤ self.new.room + 1 }
    {
        match op {
            Op::MakeDir(place) => self.make_dir(place),
            Op::Write(place, file, bytes) => self.write(place, file, bytes),
            Op::RenameFile(place, from, to) => self.rename_file(place, from, to),
            Op::RenameDir(from, to) => self.rename_dir(from, to),
            Op::RemoveFile(place, file) => self.remove_file(place, file),
            Op::RemoveDir(place) => self.remove_dir(place),
        }
    }

    /// Applies the operations in order, each write with the bytes of its fill, and leaves neither. It takes no memory,
    /// since there is room for a further place for each.
    pub fn replay(&mut self, ops: &mut Vec<Op>, fills: &mut Vec<Fill>)
        requires { length ops.old.items ≤ self.old.room }
        ensures tree { self.new.tree ≡ image self.old.tree ops.old.items fills.old.items }
        ensures done { ops.new.items ≡ [] }
    {
        ops.reverse();
        fills.reverse();
        while let Some(op) = ops.pop() {
            match fills.pop() {
                Some(fill) => self.apply(fill_op(fill, op)),
                None => self.apply(op),
            }
        }
    }

    fn make_dir(&mut self, place: Place)
        requires { 0 < self.old.room }
        ensures tree { self.new.tree ≡ map.insert self.old.tree place map.empty }
        ensures room { self.old.room ≤ self.new.room + 1 }
    {
        self.dirs.insert(place, Dir::new()).unwrap();
    }

    fn write(&mut self, place: Place, file: FileName, bytes: Bytes)
        ensures tree { self.new.tree ≡ at_dir self.old.tree place (λ files. map.insert files file bytes) }
        ensures room { self.new.room ≡ self.old.room }
    {
        if let Some(mut dir) = self.take_dir(place) {
            dir.put(file, bytes).unwrap();
            self.put_dir(place, dir);
        }
    }

    fn rename_file(&mut self, place: Place, from: FileName, to: FileName)
        ensures tree { self.new.tree ≡ at_dir self.old.tree place (λ files. renamed_file files from to) }
        ensures room { self.new.room ≡ self.old.room }
    {
        if let Some(mut dir) = self.take_dir(place) {
            rename_within(&mut dir, from, to);
            self.put_dir(place, dir);
        }
    }

    fn remove_file(&mut self, place: Place, file: FileName)
        ensures tree { self.new.tree ≡ at_dir self.old.tree place (λ files. map.remove files file) }
        ensures room { self.new.room ≡ self.old.room }
    {
        if let Some(mut dir) = self.take_dir(place) {
            let _bytes = dir.take(file);
            self.put_dir(place, dir);
        }
    }

    fn rename_dir(&mut self, from: Place, to: Place)
        ensures tree { self.new.tree ≡ renamed_dir self.old.tree from to }
        ensures room { self.old.room ≤ self.new.room + 1 }
    {
        if let Some(dir) = self.dirs.remove(from) {
            let _before = self.dirs.insert(to, dir).unwrap();
        }
    }

    fn remove_dir(&mut self, place: Place)
        ensures tree { self.new.tree ≡ map.remove self.old.tree place }
        ensures room { self.old.room ≤ self.new.room + 1 }
    {
        let _dir = self.dirs.remove(place);
    }

    /// Takes the directory at a place, where one is there, and leaves an empty one for it.
    fn take_dir(&mut self, place: Place) -> Option<Dir>
        ensures taken { result ≡ map.get self.old.tree place }
        ensures left { OnSome result (self.new.tree ≡ map.insert self.old.tree place map.empty) }
        ensures none { IfNone result (self.new.tree ≡ self.old.tree) }
        ensures room { self.new.room ≡ self.old.room }
    {
        if self.dirs.contains_key(place) {
            Some(self.dirs.replace(place, Dir::new()))
        } else {
            None
        }
    }

    /// Puts a directory at a place in place of the one that is there.
    fn put_dir(&mut self, place: Place, dir: Dir)
        requires { IsSome (map.get self.old.tree place) }
        ensures tree { self.new.tree ≡ map.insert self.old.tree place dir }
        ensures room { self.new.room ≡ self.old.room }
    {
        let _before = self.dirs.replace(place, dir);
    }
}

/// Gives a file another name, where it is there.
fn rename_within(dir: &mut Dir, from: FileName, to: FileName)
    ensures { dir.new ≡ renamed_file dir.old from to }
{
    if let Some(bytes) = dir.take(from) {
        dir.put(to, bytes).unwrap();
    }
}

/// The operation as a stop leaves it.
fn fill_op(fill: Fill, op: Op) -> Op
    ensures { result ≡ filled fill op }
{
    let Fill::Bytes(other) = fill else {
        return op;
    };
    match op {
        Op::Write(place, file, _) => Op::Write(place, file, other),
        _ => op,
    }
}
