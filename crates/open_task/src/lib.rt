//! The resumable task that opens a user's credential key with a secret, slot by slot from the newest on, as data: what
//! it does next, and what it is after the answer. It calls no device.
#![tactic(auto)]

pub mod stages;
pub mod task;

pub use stages::{Doing, Stage};
pub use task::OpenTask;

#[cfg(test)]
mod tests;
