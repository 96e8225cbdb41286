//! A tree device in memory, whose stops tear writes and whose calls fail where they were told to.
#![tactic(auto)]

mod folders;
mod layers;
mod mem_tree;

pub use mem_tree::MemTree;

#[cfg(test)]
mod tests;
