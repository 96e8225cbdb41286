//! A keystore device in memory, whose calls fail where they were told to.
//!
//! Entries are numbered from 0 in the order in which they were made. A blob is its entry's number, and a key follows
//! from that number alone, so that neither is a secret.
#![tactic(auto)]

mod ciphers;
mod entries;
mod mem_keystore;
mod numbers;

pub use mem_keystore::MemKeystore;

#[cfg(test)]
mod tests;
