use tree_model::{Blob, Bytes, Class};

/// Whose key an entry serves: one of the two keys of a user.
#[derive(Clone, Copy, Debug, PartialEq, Eq)]
pub struct Tag {
    /// The user's number.
    pub user: u32,
    /// Which of the user's keys.
    pub class: Class,
}

/// An entry of a keystore.
#[derive(Drop)]
pub struct StoreEntry {
    /// Its name.
    pub blob: Blob,
    /// The level of the keystore when the entry was made.
    pub level: u32,
    /// The bytes that each use of the entry must give.
    pub app_id: Bytes,
    /// The key, for AES-256-GCM, which never leaves the keystore.
    pub key: [u8; 32],
    /// Whose key it serves.
    pub tag: Tag,
}

/// What a keystore answers to a sealed text.
#[derive(Drop)]
pub enum Decrypted {
    /// The text.
    Key(Bytes),
    /// The entry's level is below the keystore's, and nothing was opened.
    NeedsUpgrade,
    /// There is no such entry, or it has another app id, or a level above the keystore's.
    Invalid,
    /// The sealed text has another tag than its ciphertext's.
    BadTag,
}
