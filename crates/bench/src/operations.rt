ghost use Rattle.std.specs.Prelude.{◌≡◌};
ghost use Rattle.bench.specs.Steps.{failure_of, IsOperated, IsWhole};
ghost use Rattle.tree_model.specs.Counted.{IsCounted};
ghost use Rattle.tree_model.specs.Disk.{view};
ghost use Rattle.tree_model.specs.Parts.{part_of, LocalFits};

use crate::made::Made;
use journal_model::Device;
use tree_model::{Blob, DevFault, LocalOp, NoMemory, TreeDisk};

/// Makes the operation on the user's places.
pub fn operate<T: TreeDisk>(tree: &mut T, user: u32, op: &LocalOp) -> Result<(), DevFault>
    requires fits { LocalFits (part_of (view (T.disk tree.old)) user) op.now }
    ensures operated { IsOperated (T.disk tree.old) (T.disk tree.new) user op.now result }
    ensures counted { IsCounted (T.counts tree.old) (T.counts tree.new) result }
{
    match op {
        LocalOp::MakeDir(site) => tree.make_dir(site.place_of(user)),
        LocalOp::Write(site, file, bytes) => {
            tree.write(site.place_of(user), *file, bytes.as_slice())
        }
        LocalOp::RenameDir(from, to) => tree.rename_dir(from.place_of(user), to.place_of(user)),
        LocalOp::RemoveDir(site) => tree.remove_dir(site.place_of(user)),
        LocalOp::RenameFile(_, _, _) | LocalOp::RemoveFile(_, _) => unreachable!(),
    }
}

/// The answer of a call whose device didn't do it.
pub fn failure(device: Device, fault: DevFault) -> Result<Made, NoMemory>
    ensures { result ≡ failure_of device fault }
{
    match fault {
        DevFault::Failed => Ok(Made::Failed(device)),
        DevFault::NoMemory => Err(NoMemory),
    }
}

/// Reads the blob, where there is one, so that it is known to have its 32 bytes.
pub fn read_blob(named: &Option<Blob>)
    ensures { IsWhole named.now }
{
    if let Some(blob) = named {
        let _bytes = blob.bytes();
    }
}
