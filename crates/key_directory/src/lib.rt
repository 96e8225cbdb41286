//! Sealed directories: their shape, by their files, and what a tree of them stands for.
#![tactic(auto)]

pub mod laws;
pub mod shapes;

pub use shapes::{DirShape, ShapeFault, bytes_in, fits_secret, named, shape};

#[cfg(test)]
mod tests;
