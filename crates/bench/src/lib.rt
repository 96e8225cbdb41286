//! The devices that commands work on, with what the program knows of them without a call, and the one function that
//! makes a task's call.
#![tactic(auto)]

pub mod bench;
pub mod drops;
mod follow;
pub mod laws;
pub mod made;
mod operations;
mod unnamed;

pub use bench::Bench;
pub use drops::dropped_blobs;
pub use made::Made;
