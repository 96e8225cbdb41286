use crate::book::Book;
use key_ring::KeyRing;
use keystore_model::Keystore;
use script_text::Status;
use tree_model::TreeDisk;

/// How a run ended. The Book is there where a script was read whole and the Book was opened.
#[derive(Drop)]
pub struct RunEnd<T: TreeDisk, K: Keystore, G: KeyRing> {
    pub status: Status,
    pub book: Option<Book<T, K, G>>,
}
