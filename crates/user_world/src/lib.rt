//! A disk with its log of changes, seen user by user: each user's own world, what stands there whatever a stop
//! leaves, the facts that a command rests on between its turns, and what it has to show of each turn. A user's
//! command is proved over that user's own world alone; the laws here carry it to the whole.
#![tactic(auto)]

pub mod changes;
pub mod laws;

pub use changes::LocalChange;
