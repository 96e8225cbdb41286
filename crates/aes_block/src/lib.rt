//! AES-256 (FIPS 197), one block at a time by a table of the S-box, or sixteen over lanes with no table.
//!
//! Nothing here takes memory. No claim is made on time, or on what a cache shows of a key.
#![tactic(auto)]

mod blocks;
mod key;
mod lanes;
mod round;
mod s_box;

pub use key::Aes256;

#[cfg(test)]
mod tests;
