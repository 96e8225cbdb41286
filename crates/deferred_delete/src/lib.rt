//! The list of a keystore's blobs that wait for their deletion.
#![tactic(auto)]

pub mod deferred;
pub mod items;

pub use deferred::Deferred;
pub use items::Item;

#[cfg(test)]
mod tests;
