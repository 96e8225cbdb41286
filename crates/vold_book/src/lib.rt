//! A Book: the turns of commands over a tree device, each a beginning, one counted call, or a reply, with the journal
//! of what was done. In every call's contract the surviving tree stands for what the journal says. Commands are tasks
//! of the crates below; a Book knows of each what it has to show, and nothing else.
#![tactic(auto)]

pub mod book;
pub mod calls;
pub mod crowds;
pub mod entries;
pub mod ledger;
pub mod opened;
pub mod owed;
pub mod plans;
pub mod recovery;
pub mod run_end;
pub mod slots;
pub mod standings;
pub mod sweeping;
pub mod tasks;
pub mod tracker;
pub mod turns;

pub use book::{Book, MAX_COMMANDS};
pub use run_end::RunEnd;
pub use standings::Standing;
pub use turns::Turn;
