//! Counts the calls of a device and its faults, and makes planned calls fail.
#![tactic(auto)]

mod counter;

pub use counter::Counter;

#[cfg(test)]
mod tests;
