//! A user's task between two of its turns, as data: the calls that it names, the answers that it hears, and what it
//! has to show of each turn over its user's share of the tree and of the keystore.
#![tactic(auto)]

pub mod calls;
pub mod laws;
pub mod next;

pub use calls::{Answer, Call};
pub use next::Next;
