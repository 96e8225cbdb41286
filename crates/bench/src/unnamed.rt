ghost use Rattle.std.specs.Prelude.{◌≡◌, ◌≤◌, length, IfOk};
ghost use Rattle.std.specs.List.Sorted.{IsSorted};
ghost use Rattle.bench.specs.Steps.{AreNamed, is_among, with_rows};
ghost use Rattle.tree_model.specs.Blobs.{blob_cmp};

use deferred_delete::Deferred;
use keystore_model::Tag;
use std::alloc::Global;
use step_core::Table;
use tree_model::{Blob, NoMemory};

/// The blobs that the places of the table are known to name, in order.
pub fn named_blobs(alloc: Global, table: &Table) -> Result<Vec<Blob>, NoMemory>
    ensures { IfOk result (λ named. AreNamed table.now.places named.items) }
{
    let mut named = Vec::new(alloc);
    for place in table.places() {
        if let Some(blob) = table.named(*place) {
            named.push(blob)?;
        }
    }
    named.sort_unstable();
    Ok(named)
}

/// Lists the blobs of the rows that aren't named, in order and as synced, at places that were promised: one for each
/// row, and those that it doesn't need are given back.
pub fn list_unnamed(list: &mut Deferred, named: &[Blob], rows: &[(Blob, Tag)])
    requires sorted { IsSorted blob_cmp named.now }
    requires promised { length rows.now ≤ list.old.promised }
    ensures { list.new ≡ with_rows list.old named.now rows.now }
{
    for (blob, _) in rows {
        if is_named(named, *blob) {
            list.give_back(1);
        } else {
            list.push(*blob, true);
        }
    }
}

/// Whether the blob is one of those that are named.
fn is_named(named: &[Blob], blob: Blob) -> bool
    requires { IsSorted blob_cmp named.now }
    ensures { result ≡ is_among named.now blob }
{
    named.binary_search(&blob).is_ok()
}
