//! The commands of users: each names its turns one after another, over tasks that store its directories, and shows of
//! each turn what keeps the whole. A command is a file of code, one of what its stages rest on, and one of proofs.
#![tactic(auto)]

pub mod creates;
pub mod destroys;
pub mod fixates;
pub mod locks;
pub mod looks;
pub mod made;
pub mod protects;
pub mod stores;
pub mod tasks;
pub mod turns;
pub mod unlocks;
pub mod wrong_plans;

pub use creates::{Create, Stage};
pub use destroys::{Destroy, DestroyStage};
pub use fixates::Fixate;
pub use locks::{Lock, LockStage};
pub use looks::{Known, Looks};
pub use protects::{Protect, ProtectStage};
pub use tasks::{UserTask, first};
pub use unlocks::{Unlock, UnlockStage};

#[cfg(test)]
mod tests;
