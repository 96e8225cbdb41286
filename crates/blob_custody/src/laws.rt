ghost use Rattle.blob_custody.specs.Laws.{LawOfGenerated, LawOfOperations, LawOfSync, LawOfReplies, LawOfDeletes};
ghost use Rattle.blob_custody.specs.Laws.{LawOfDueItems, LawOfStops, LawOfListing, LawOfReadiness};

/// A new entry is added, of a blob that had none: this blob is held.
pub fn law_of_generated()
    ensures { LawOfGenerated }
{}

/// An operation on one user's places is pending: the held blobs that it makes named are let go, and those that it
/// drops are listed, as not yet synced.
pub fn law_of_operations()
    ensures { LawOfOperations }
{}

/// A sync comes, and every item is synced, whatever the base is then.
pub fn law_of_sync()
    ensures { LawOfSync }
{}

/// A command fails: what it held is listed, as synced.
pub fn law_of_replies()
    ensures { LawOfReplies }
{}

/// The entry of an item's blob is deleted, and the item is taken out of the list.
pub fn law_of_deletes()
    ensures { LawOfDeletes }
{}

/// Where there is no base, the delete of a synced item's blob leaves the entry of each blob that some tree names that
/// a stop can leave, and of each that is held.
pub fn law_of_due_items()
    ensures { LawOfDueItems }
{}

/// The machine stops, or is rolled back: nothing is held or listed, and it isn't ready.
pub fn law_of_stops()
    ensures { LawOfStops }
{}

/// A recovery, with nothing pending, lists live blobs that nothing names, holds or lists.
pub fn law_of_listing()
    ensures { LawOfListing }
{}

/// The machine is ready, and nothing is held, once each live blob is named or listed.
pub fn law_of_readiness()
    ensures { LawOfReadiness }
{}
