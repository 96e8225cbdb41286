//! The texts of a run: the script that it reads, the journal, the tree, the keystore and the key ring that it prints,
//! and the status that it ends with.
#![tactic(auto)]

mod appending;
mod arguments;
pub mod byte_words;
mod fills;
mod forms;
pub mod journal_lines;
pub mod keystore_lines;
pub mod numbers;
mod reading;
pub mod ring_lines;
pub mod script;
pub mod script_lines;
mod shown;
mod slots;
pub mod status;
pub mod tree_lines;

pub use byte_words::bytes_of;
pub use journal_lines::print_journal;
pub use keystore_lines::{EntryRow, print_keystore};
pub use numbers::number_of;
pub use ring_lines::{KeyRow, print_ring};
pub use script::{Line, Script, one_reading, read_script};
pub use script_lines::print_script;
pub use status::Status;
pub use tree_lines::print_tree;

#[cfg(test)]
mod tests;
