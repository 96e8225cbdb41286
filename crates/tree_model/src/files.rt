ghost use Rattle.std.proofs.Common.{refl, rules};
ghost use Rattle.std.specs.Prelude.{◌≡◌, ◌≤◌, length, take, IsOk, IfOk, option_copied};
ghost use Rattle.std.specs.FinMap as map;
ghost use Rattle.std.specs.Cmp.{partial_order_from_own_ties, po};
ghost use Rattle.std.specs.Cmp.Rules.{comparing};
ghost use Rattle.std.specs.Ordering.{as_partial_cmp};
ghost use Rattle.tree_model.specs.Dir.{files_of};
ghost use Rattle.tree_model.specs.Files.{file_cmp, file_key, file_total};

use crate::bytes::Bytes;
use crate::memory::NoMemory;
use std::alloc::Global;
use std::cmp::Ordering;
use std::marker::Model;

/// A file of a key directory.
#[derive(Clone, Copy, Debug, PartialEq, Eq)]
pub enum FileName {
    /// The version of the directory's format.
    Version,
    /// The sealed key.
    EncryptedKey,
    /// The keystore's blob that seals the key.
    Blob,
    /// The blob that takes its place once no checkpoint stands.
    BlobUpgraded,
    /// A blob on its way to `BlobUpgraded`.
    BlobNew,
    /// Bytes whose loss makes the key unreadable.
    Discard,
    /// A file of old directories, never used here.
    Stretching,
    /// A file of old directories, never used here.
    Salt,
}

/// The order in which the variants stand.
impl Ord for FileName {
    ghost cmp = { file_cmp };

    ghost total = { file_total };

    ghost matches_partial_cmp = { Prim.search (comparing, rules) };

    ghost matches_eq = { Prim.search (comparing, rules) };

    fn cmp(&self, other: &FileName) -> Ordering {
        index(*self).cmp(&index(*other))
    }
}

impl PartialOrd for FileName {
    ghost partial_cmp = { as_partial_cmp file_cmp };

    ghost laws = { partial_order_from_own_ties (po file_total (λ x y. refl)) (Prim.search (comparing, rules)) };

    fn partial_cmp(&self, other: &FileName) -> Option<Ordering> {
        Some(self.cmp(other))
    }
}

/// The place of a file name among the variants.
fn index(file: FileName) -> usize
    ensures { result ≡ file_key file }
{
    file as usize
}

/// Every file name, in order.
const EVERY: [FileName; 8] = [
    FileName::Version,
    FileName::EncryptedKey,
    FileName::Blob,
    FileName::BlobUpgraded,
    FileName::BlobNew,
    FileName::Discard,
    FileName::Stretching,
    FileName::Salt,
];

/// A key directory: a map from file names to bytes.
#[derive(Drop)]
pub struct Dir {
    slots: [Option<Bytes>; 8],
    order: [FileName; 8],
    count: usize,
}

impl Model for Dir {
    ghost use Rattle.tree_model.specs.Dir.{Files, files_code};

    ghost Value = { Files };

    ghost coded = { files_code };

    ghost use Rattle.tree_model.specs.Dir.{files_of, IsDir};

    ghost view = { λ dir. files_of dir.slots };

    ghost invariant = { λ dir. IsDir dir.slots dir.order dir.count };
}

impl Dir {
    /// A directory with no file.
    pub fn new() -> Dir
        ensures { result ≡ map.empty }
    {
        Dir {
            slots: [None, None, None, None, None, None, None, None],
            order: EVERY,
            count: 0,
        }
    }

    /// The file holds these bytes, whether or not it was there. It takes no memory, since each directory has room for
    /// every file name.
    pub fn put(&mut self, file: FileName, bytes: Bytes) -> Result<(), NoMemory>
        ensures succeeds { IsOk result }
        ensures put { self.new ≡ map.insert self.old file bytes }
    {
        self.slots[index(file)] = Some(bytes);
        self.count = list_names(&self.slots, &mut self.order);
        Ok(())
    }

    /// Takes the file out; None where there was none.
    pub fn take(&mut self, file: FileName) -> Option<Bytes>
        ensures taken { result ≡ map.get self.old file }
        ensures rest { self.new ≡ map.remove self.old file }
    {
        let bytes = self.slots[index(file)].take();
        self.count = list_names(&self.slots, &mut self.order);
        bytes
    }

    /// What the file holds; None where there is no such file.
    pub fn get(&self, file: FileName) -> Option<&Bytes>
        ensures { option_copied result ≡ map.get self.now file }
    {
        self.slots[index(file)].as_ref()
    }

    /// The names of the files, in order.
    pub fn names(&self) -> &[FileName]
        ensures { result.now ≡ map.keys self.now }
    {
        &self.order[..self.count]
    }

    /// The same directory in memory of its own.
    pub fn duplicate(&self, alloc: Global) -> Result<Dir, NoMemory>
        ensures { IfOk result (λ copied. copied ≡ self.now) }
    {
        let mut slots = [None, None, None, None, None, None, None, None];
        for i in 0..8 {
            slots[i] = copy_file(alloc, &self.slots[i])?;
        }
        Ok(Dir {
            slots,
            order: self.order,
            count: self.count,
        })
    }
}

fn copy_file(alloc: Global, file: &Option<Bytes>) -> Result<Option<Bytes>, NoMemory>
    ensures { IfOk result (λ copied. copied ≡ file.now) }
{
    match file {
        Some(bytes) => Ok(Some(Bytes::copy(alloc, bytes.as_slice())?)),
        None => Ok(None),
    }
}

/// Lists the names of the files that are there in order at the front of `order`, and counts them.
fn list_names(slots: &[Option<Bytes>; 8], order: &mut [FileName; 8]) -> usize
    requires slot_count { length slots.now ≡ 8 }
    requires order_count { length order.old ≡ 8 }
    ensures few { result ≤ 8 }
    ensures order_count { length order.new ≡ 8 }
    ensures listed { take result order.new ≡ map.keys (files_of slots.now) }
{
    let mut count = 0;
    for file in EVERY {
        if slots[index(file)].is_some() {
            order[count] = file;
            count += 1;
        }
    }
    count
}
