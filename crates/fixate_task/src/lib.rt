//! The resumable task that leaves a user one slot, as the current one: what it does next, and what it is once that was
//! done, as data. It calls no device.
#![tactic(auto)]

pub mod task;

pub use task::{Doing, FixateTask};

#[cfg(test)]
mod tests;
