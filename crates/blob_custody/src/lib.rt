//! Which blobs of a keystore a standing directory names, a running command holds, or the list of waiting deletes has,
//! and how each kind of step keeps every live blob one of these.
#![tactic(auto)]

pub mod laws;
pub mod operations;
