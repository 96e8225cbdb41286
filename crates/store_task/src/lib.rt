//! The resumable task that stores a sealed key directory, as data: what it does next, and what it is after the answer.
//! It calls no device; each turn shows that the facts which the task rests on hold again after it.
#![tactic(auto)]

pub mod laws;
pub mod stages;
pub mod task;
pub mod turns;

pub use stages::{Progress, Stage};
pub use task::StoreTask;
pub use turns::{Doing, StoreSpec};

#[cfg(test)]
mod tests;
