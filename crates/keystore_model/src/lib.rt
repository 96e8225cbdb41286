//! The keystore device that seals the keys of key directories: its entries, what each call leaves, and what it opens.
#![tactic(auto)]

pub mod entry;
pub mod keystore;
pub mod laws;

pub use entry::{Decrypted, StoreEntry, Tag};
pub use keystore::Keystore;
