ghost use Rattle.std.specs.Prelude.{◌≡◌, ◌<◌, ◌≤◌, length};
ghost use Rattle.bench.specs.Bench.{moved_name};
ghost use Rattle.bench.specs.Steps.{Follows, Lists};

use step_core::Table;
use tree_model::{Blob, LocalOp, Place, Site};

/// Follows an operation on the user's places that the device did, in room that was promised. A temporary directory
/// that it renames names this blob, or none.
pub fn follow(table: &mut Table, user: u32, op: &LocalOp, names: Option<Blob>)
    requires room { 0 < table.old.room }
    ensures { Follows table.old table.new user op.now names }
{
    match op {
        LocalOp::MakeDir(site) => table.put(site.place_of(user), None),
        LocalOp::RenameDir(from, to) => {
            let named = moved_name(table, user, *from, names);
            table.forget(from.place_of(user));
            table.put(to.place_of(user), named);
        }
        LocalOp::RemoveDir(site) => table.forget(site.place_of(user)),
        LocalOp::Write(_, _, _) | LocalOp::RenameFile(_, _, _) | LocalOp::RemoveFile(_, _) => {}
    }
}

/// What a directory names that is renamed: a temporary one this, and another what it is known to name.
fn moved_name(table: &Table, user: u32, site: Site, names: Option<Blob>) -> Option<Blob>
    ensures { result ≡ moved_name table.now.places user site names }
{
    match site {
        Site::Temp => names,
        Site::De | Site::Ce(_) => table.named(site.place_of(user)),
    }
}

/// These are the places from now on, in room that was promised; of none a blob is known.
#[tactic(auto, using(crate::proofs::Listing::none_in_empty))]
pub fn list_anew(table: &mut Table, places: &[Place])
    requires room { length places.now ≤ table.old.room }
    ensures { Lists table.old table.new places.now }
{
    table.clear();
    for place in places {
        table.put(*place, None);
    }
}
