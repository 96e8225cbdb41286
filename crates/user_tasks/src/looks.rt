use deferred_delete::Item;
use tree_model::{Site, Slot};

/// What a command's turn is told beside what it rests on.
#[derive(Clone, Copy)]
pub struct Looks {
    /// The first of the user's sites that is in the way of a new directory.
    pub in_the_way: Option<Site>,
    /// Whether every change of the user's is known to be durable.
    pub durable: bool,
    /// The first of the items that the command listed which is still to be deleted.
    pub due: Option<Item>,
}

/// What is known of a user as a command begins.
#[derive(Drop)]
pub struct Known {
    /// The user's slots, in their order.
    pub slots: Vec<Slot>,
    /// Those that the command has to try with its secret, the newest first.
    pub to_try: Vec<Slot>,
    /// The newest slot.
    pub newest: Slot,
    /// The slot that a further secret comes into.
    pub next: Slot,
    /// Whether the user's credential key is in the ring.
    pub has_ce: bool,
    /// Whether the user's device key is in the ring.
    pub has_de: bool,
    /// Whether a temporary directory is there.
    pub has_temp: bool,
}
