use tree_model::Blob;

/// A blob whose deletion waits.
#[derive(Clone, Copy, PartialEq, Eq)]
pub struct Item {
    /// How many items were listed before it, from 0.
    pub number: u64,
    /// The blob that is to be deleted.
    pub blob: Blob,
    /// Whether a sync came since no directory of the view names the blob.
    pub synced: bool,
}
