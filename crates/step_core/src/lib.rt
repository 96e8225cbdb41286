//! What a command's turns stand on: the jobs that a task hands out, and what the program knows of the tree without a
//! call of its device.
#![tactic(auto)]

pub mod jobs;
pub mod table;

pub use jobs::{Job, JobDone, JobInput, JobOutput};
pub use table::Table;

#[cfg(test)]
mod tests;
