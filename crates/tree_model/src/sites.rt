ghost use Rattle.std.specs.Prelude.{◌≡◌};
ghost use Rattle.tree_model.specs.Sites.{place_of, op_of, site_of};

use crate::bytes::Bytes;
use crate::files::FileName;
use crate::ops::Op;
use crate::places::{Place, Slot};

/// Which of a user's places.
#[derive(Clone, Copy, Debug, PartialEq, Eq)]
pub enum Site {
    /// The device key's.
    De,
    /// The credential key's in this slot.
    Ce(Slot),
    /// The temporary one.
    Temp,
}

/// An operation on one user's places.
#[derive(Drop)]
pub enum LocalOp {
    MakeDir(Site),
    Write(Site, FileName, Bytes),
    RenameFile(Site, FileName, FileName),
    RenameDir(Site, Site),
    RemoveFile(Site, FileName),
    RemoveDir(Site),
}

impl Site {
    /// Which of its user's places a place is.
    pub fn of(place: Place) -> Site
        ensures { result ≡ site_of place }
    {
        match place {
            Place::De(_) => Site::De,
            Place::Ce(_, slot) => Site::Ce(slot),
            Place::Temp(_) => Site::Temp,
        }
    }

    /// The place at this site of a user.
    pub fn place_of(self, user: u32) -> Place
        ensures { result ≡ place_of user self }
    {
        match self {
            Site::De => Place::De(user),
            Site::Ce(slot) => Place::Ce(user, slot),
            Site::Temp => Place::Temp(user),
        }
    }
}

impl LocalOp {
    /// The operation on the places of this user.
    pub fn op_of(self, user: u32) -> Op
        ensures { result ≡ op_of user self }
    {
        match self {
            LocalOp::MakeDir(site) => Op::MakeDir(site.place_of(user)),
            LocalOp::Write(site, file, bytes) => Op::Write(site.place_of(user), file, bytes),
            LocalOp::RenameFile(site, from, to) => Op::RenameFile(site.place_of(user), from, to),
            LocalOp::RenameDir(from, to) => Op::RenameDir(from.place_of(user), to.place_of(user)),
            LocalOp::RemoveFile(site, file) => Op::RemoveFile(site.place_of(user), file),
            LocalOp::RemoveDir(site) => Op::RemoveDir(site.place_of(user)),
        }
    }
}
