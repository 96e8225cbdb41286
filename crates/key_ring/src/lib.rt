//! The kernel's key ring as a device, one in memory whose calls fail where they were told to, and the names of keys.
#![tactic(auto)]

mod keys;
pub mod laws;
mod mem_ring;
mod reference;
pub mod ring;

pub use mem_ring::MemRing;
pub use reference::key_ref;
pub use ring::KeyRing;

#[cfg(test)]
mod tests;
