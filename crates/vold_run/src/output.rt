ghost use Rattle.std.specs.Prelude.{◌≡◌, ◌<◌, [], ◌∷◌, ◌++◌, Some, IfOk, OnOk, IsErrOf, length, map, slice_get};
ghost use Rattle.std.specs.FinMap as finite;
ghost use Rattle.tree_model.specs.Disk.{view};
ghost use Rattle.keystore_model.specs.Store.{listed as listed_of, IsStore};
ghost use Rattle.script_text.specs.Keystore.{row_of, store_section};
ghost use Rattle.script_text.specs.Ring.{key_row, ring_text};
ghost use Rattle.vold_book.specs.State.{seen, senses};
ghost use Rattle.vold_book.specs.Whole.{IsWhole};
ghost use Rattle.vold_book.specs.Stands.{IsLooked};
ghost use Rattle.vold_run.specs.Shown.{FailsToRead, ReadsTree, Shows, ShowsDevices, ShowsStore};

use key_ring::{KeyRing, key_ref};
use keystore_model::{Keystore, Tag};
use script_text::{EntryRow, KeyRow, print_journal, print_keystore, print_ring, print_tree};
use std::alloc::Global;
use tree_model::{Blob, Bytes, DevFault, Dir, NoMemory, Place, TreeDisk};
use vold_book::Book;

/// The last line where the tree was not read.
const UNREAD_TREE: &[u8] = b"unread tree\n";

/// The last line where the keystore was not read.
const UNREAD_STORE: &[u8] = b"unread store\n";

/// The text that a run shows of a Book in the end: its journal, its tree, its keystore and its ring; from the first
/// device on that was not read, one line tells it.
pub fn show<T: TreeDisk, B: Keystore, G: KeyRing>(
    alloc: Global,
    book: &mut Book<T, B, G>,
) -> Result<Bytes, NoMemory>
    ensures shown { IfOk result (Shows (seen (senses T.disk T.counts B.store B.counts G.ring G.counts) book.old)
        (seen (senses T.disk T.counts B.store B.counts G.ring G.counts) book.new)) }
    ensures looked { IsLooked (senses T.disk T.counts B.store B.counts G.ring G.counts) book.old book.new }
    ensures whole { IsWhole (senses T.disk T.counts B.store B.counts G.ring G.counts) book.new }
{
    let journal = print_journal(alloc, book.journal().as_slice())?;
    let devices = devices_text(alloc, book)?;
    joined(alloc, journal.as_slice(), devices.as_slice())
}

/// One text after another.
fn joined(alloc: Global, first: &[u8], second: &[u8]) -> Result<Bytes, NoMemory>
    ensures { IfOk result (λ text. text ≡ first.now ++ second.now) }
{
    let mut text = Vec::new(alloc);
    text.extend_from_slice(first)?;
    text.extend_from_slice(second)?;
    Ok(Bytes::from_vec(text))
}

/// The tree and then the keystore and the ring as text; from the first on that was not read, one line tells it.
fn devices_text<T: TreeDisk, B: Keystore, G: KeyRing>(
    alloc: Global,
    book: &mut Book<T, B, G>,
) -> Result<Bytes, NoMemory>
    ensures shown { IfOk result (ShowsDevices
        (seen (senses T.disk T.counts B.store B.counts G.ring G.counts) book.old).bench
        (seen (senses T.disk T.counts B.store B.counts G.ring G.counts) book.new).bench) }
    ensures looked { IsLooked (senses T.disk T.counts B.store B.counts G.ring G.counts) book.old book.new }
    ensures whole { IsWhole (senses T.disk T.counts B.store B.counts G.ring G.counts) book.new }
{
    match read_dirs(alloc, book) {
        Ok(dirs) => {
            let tree = print_tree(alloc, b"tree", dirs.as_slice(), None)?;
            let store = store_text(alloc, book)?;
            joined(alloc, tree.as_slice(), store.as_slice())
        }
        Err(DevFault::Failed) => Bytes::copy(alloc, UNREAD_TREE),
        Err(DevFault::NoMemory) => Err(NoMemory),
    }
}

/// Every directory of the view, in the order of the places.
fn read_dirs<T: TreeDisk, B: Keystore, G: KeyRing>(
    alloc: Global,
    book: &mut Book<T, B, G>,
) -> Result<Vec<(Place, Dir)>, DevFault>
    ensures read { IfOk result (λ dirs. dirs.items ≡ finite.entries (view (T.disk book.old.bench.tree))) }
    ensures answered { OnOk result (ReadsTree (view (T.disk book.old.bench.tree)) (T.counts book.old.bench.tree)
        (T.counts book.new.bench.tree)) }
    ensures failed { IsErrOf result DevFault.Failed → FailsToRead (view (T.disk book.old.bench.tree))
        (T.counts book.old.bench.tree) (T.counts book.new.bench.tree) }
    ensures looked { IsLooked (senses T.disk T.counts B.store B.counts G.ring G.counts) book.old book.new }
    ensures store { book.new.bench.store ≡ book.old.bench.store }
    ensures ring { book.new.bench.ring ≡ book.old.bench.ring }
    ensures whole { IsWhole (senses T.disk T.counts B.store B.counts G.ring G.counts) book.new }
{
    let places = book.places()?;
    let mut dirs = Vec::new(alloc);
    for place in places.as_slice() {
        let dir = book.read_place(*place)?;
        push_dir(&mut dirs, *place, dir)?;
    }
    Ok(dirs)
}

/// Adds a directory at the end.
fn push_dir(dirs: &mut Vec<(Place, Dir)>, place: Place, dir: Dir) -> Result<(), NoMemory>
    ensures { OnOk result (dirs.new.items ≡ dirs.old.items ++ (place, dir) ∷ []) }
{
    dirs.push((place, dir))?;
    Ok(())
}

/// The keystore and the ring as text, or the line that says that the keystore was not read.
fn store_text<T: TreeDisk, B: Keystore, G: KeyRing>(
    alloc: Global,
    book: &mut Book<T, B, G>,
) -> Result<Bytes, NoMemory>
    ensures shown { IfOk result (ShowsStore (B.store book.old.bench.store) (G.ring book.old.bench.ring)
        (B.counts book.old.bench.store) (B.counts book.new.bench.store)) }
    ensures tree { book.new.bench.tree ≡ book.old.bench.tree }
    ensures ring { book.new.bench.ring ≡ book.old.bench.ring }
    ensures looked { IsLooked (senses T.disk T.counts B.store B.counts G.ring G.counts) book.old book.new }
    ensures whole { IsWhole (senses T.disk T.counts B.store B.counts G.ring G.counts) book.new }
{
    match book.blobs() {
        Ok(entries) => keys_text(alloc, book.store(), entries.as_slice(), book.ring()),
        Err(DevFault::Failed) => Bytes::copy(alloc, UNREAD_STORE),
        Err(DevFault::NoMemory) => Err(NoMemory),
    }
}

/// The keystore with these entries, and then the ring, as text.
fn keys_text<B: Keystore, G: KeyRing>(
    alloc: Global,
    store: &B,
    entries: &[(Blob, Tag)],
    ring: &G,
) -> Result<Bytes, NoMemory>
    requires whole { IsStore (B.store store.now) }
    requires listed { entries.now ≡ listed_of (B.store store.now) }
    ensures { IfOk result (λ text. text ≡ store_section (B.store store.now) ++ ring_text (G.ring ring.now)) }
{
    let store = section_of(alloc, store, entries)?;
    let ring = ring_section(alloc, ring)?;
    joined(alloc, store.as_slice(), ring.as_slice())
}

/// The keystore with these entries as text.
fn section_of<B: Keystore>(
    alloc: Global,
    store: &B,
    entries: &[(Blob, Tag)],
) -> Result<Bytes, NoMemory>
    requires whole { IsStore (B.store store.now) }
    requires listed { entries.now ≡ listed_of (B.store store.now) }
    ensures { IfOk result (λ text. text ≡ store_section (B.store store.now)) }
{
    let rows = rows_of(alloc, store, entries)?;
    print_keystore(alloc, store.level(), rows.as_slice())
}

/// What is printed of each of the entries.
fn rows_of<B: Keystore>(
    alloc: Global,
    store: &B,
    entries: &[(Blob, Tag)],
) -> Result<Vec<EntryRow>, NoMemory>
    requires whole { IsStore (B.store store.now) }
    requires listed { entries.now ≡ listed_of (B.store store.now) }
    ensures { IfOk result (λ rows. rows.items ≡ map row_of (B.store store.now).entries) }
{
    let mut rows = Vec::new(alloc);
    for (blob, tag) in entries {
        let Some(level) = store.level_of(*blob) else {
            unreachable!()
        };
        rows.push(EntryRow {
            blob: *blob,
            level,
            tag: *tag,
        })?;
    }
    Ok(rows)
}

/// The ring as text.
fn ring_section<G: KeyRing>(alloc: Global, ring: &G) -> Result<Bytes, NoMemory>
    ensures { IfOk result (λ text. text ≡ ring_text (G.ring ring.now)) }
{
    let rows = key_rows(alloc, ring)?;
    print_ring(alloc, rows.as_slice())
}

/// What is printed of each of the keys, in the order of their installation.
fn key_rows<G: KeyRing>(alloc: Global, ring: &G) -> Result<Vec<KeyRow>, NoMemory>
    ensures { IfOk result (λ rows. rows.items ≡ map key_row (G.ring ring.now)) }
{
    let mut rows = Vec::new(alloc);
    for place in 0..ring.len() {
        rows.push(row_at(ring, place))?;
    }
    Ok(rows)
}

/// What is printed of the key at a place of the ring.
fn row_at<G: KeyRing>(ring: &G, place: usize) -> KeyRow
    requires { place < length (G.ring ring.now) }
    ensures { slice_get (map key_row (G.ring ring.now)) place ≡ Some result }
{
    let Some((user, class)) = ring.at(place) else {
        unreachable!()
    };
    let Some(key) = ring.get(user, class) else {
        unreachable!()
    };
    KeyRow {
        user,
        class,
        reference: key_ref(key),
    }
}
