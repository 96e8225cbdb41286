//! The tree of key directories on userdata: places, files, directories, the operations that change a tree, and the
//! device that keeps one through stops.
#![tactic(auto)]

pub mod blobs;
pub mod bytes;
pub mod device;
pub mod files;
pub mod laws;
pub mod memory;
pub mod ops;
pub mod places;
pub mod sites;

pub use blobs::Blob;
pub use bytes::Bytes;
pub use device::{Boot, DevFault, TreeDisk};
pub use files::{Dir, FileName};
pub use memory::NoMemory;
pub use ops::{Cut, Fill, Fills, Op};
pub use places::{Class, Place, Slot};
pub use sites::{LocalOp, Site};

#[cfg(test)]
mod tests;
