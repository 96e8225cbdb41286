//! The journal of the storage-key daemon: commands, replies and changes, the machine whose steps a journal is, and the
//! map of users that the surviving changes make.
#![tactic(auto)]

pub mod commands;
pub mod entries;
pub mod hashes;
pub mod journal;
pub mod laws;
pub mod made;
pub mod phase;
pub mod refusals;
pub mod secrets;
pub mod user_map;

pub use commands::{Actor, Command, EnqueueFault, Reply};
pub use entries::{Birth, Change, Device, Entry, Order};
pub use hashes::{app_id, prefixed_hash, wrap_key};
pub use journal::Journal;
pub use made::{boot_seed, made_bytes, made_discardable, made_key, made_nonce};
pub use phase::Phase;
pub use refusals::{Facts, MAX_SLOTS, MAX_USERS, leaves_none, next_after, refusal};
pub use secrets::Secret;
pub use user_map::{UserMap, defined_reply, fold};

#[cfg(test)]
mod tests;
