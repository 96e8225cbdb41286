ghost use Rattle.std.specs.Prelude.{◌≡◌, ◌≤◌, ◌++◌, false, length, IfOk, OnOk};
ghost use Rattle.bench.specs.Bench.{dropped, dropped_at, names_of_user, named_here, is_kept_of};
ghost use Rattle.blob_custody.specs.Steps.{pushed_all};

use deferred_delete::Deferred;
use std::alloc::Global;
use step_core::Table;
use tree_model::{Blob, LocalOp, NoMemory, Place, Site};

/// The blobs that no standing directory names any more once the operation on the user's places was done, as far as the
/// table knows.
pub fn dropped_blobs(
    alloc: Global,
    table: &Table,
    user: u32,
    op: &LocalOp,
) -> Result<Vec<Blob>, NoMemory>
    ensures { IfOk result (λ found. found.items ≡ dropped table.now.places user op.now) }
{
    match op {
        LocalOp::RemoveDir(site) => dropped_at(alloc, table, user, *site),
        LocalOp::MakeDir(_)
        | LocalOp::Write(_, _, _)
        | LocalOp::RenameFile(_, _, _)
        | LocalOp::RenameDir(_, _)
        | LocalOp::RemoveFile(_, _) => Ok(Vec::new(alloc)),
    }
}

/// Lists the blobs, of which none is synced, at places that were promised.
pub fn list_dropped(list: &mut Deferred, blobs: &[Blob])
    requires promised { length blobs.now ≤ list.old.promised }
    ensures { list.new ≡ pushed_all list.old blobs.now false }
{
    for blob in blobs {
        list.push(*blob, false);
    }
}

/// Those of the user's directory that is removed.
fn dropped_at(alloc: Global, table: &Table, user: u32, site: Site) -> Result<Vec<Blob>, NoMemory>
    ensures { IfOk result (λ found. found.items ≡ dropped_at table.now.places user site) }
{
    match site {
        Site::De => names_of_user(alloc, table, user),
        Site::Ce(slot) => {
            let mut found = Vec::new(alloc);
            if table.has(Place::De(user)) {
                push_named(&mut found, table, Place::Ce(user, slot))?;
            }
            Ok(found)
        }
        Site::Temp => Ok(Vec::new(alloc)),
    }
}

/// The blobs that the user's directories are known to name, the device key's first and then by slots.
fn names_of_user(alloc: Global, table: &Table, user: u32) -> Result<Vec<Blob>, NoMemory>
    ensures { IfOk result (λ found. found.items ≡ names_of_user table.now.places user) }
{
    let mut found = Vec::new(alloc);
    for place in table.places() {
        if is_kept_of(user, *place) {
            push_named(&mut found, table, *place)?;
        }
    }
    Ok(found)
}

/// The blob that the place is known to name, if any, comes last.
fn push_named(found: &mut Vec<Blob>, table: &Table, place: Place) -> Result<(), NoMemory>
    ensures { OnOk result (found.new.items ≡ found.old.items ++ named_here table.now.places place) }
{
    if let Some(blob) = table.named(place) {
        found.push(blob)?;
    }
    Ok(())
}

/// Whether the place is one of the user's but for the temporary one.
fn is_kept_of(user: u32, place: Place) -> bool
    ensures { result ≡ is_kept_of user place }
{
    match place {
        Place::De(owner) | Place::Ce(owner, _) => owner == user,
        Place::Temp(_) => false,
    }
}
