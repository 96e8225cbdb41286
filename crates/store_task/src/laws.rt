ghost use Rattle.store_task.specs.Laws.{LawOfHeldBlobs, LawOfStoredDirectory};

/// A task holds the blobs that its facts speak of, so that the facts last between its turns.
pub fn law_of_held_blobs()
    ensures { LawOfHeldBlobs }
{}

/// Once a task's directory was synced, it opens with the secret to the key, whatever a stop leaves, and names a blob
/// of its own.
pub fn law_of_stored_directory()
    ensures { LawOfStoredDirectory }
{}
