ghost use Rattle.keystore_model.specs.Laws.{LawOfGenerated, LawOfDeleted, LawOfLevels, LawOfDecrypted, LawOfEncrypted};

/// A store with an entry of a blob that was not given is one; this blob is found with its entry, and each other blob
/// as before.
pub fn law_of_generated()
    ensures { LawOfGenerated }
{}

/// A store without the entry of a blob is one; this blob isn't found, and each other blob as before.
pub fn law_of_deleted()
    ensures { LawOfDeleted }
{}

/// An empty store is one, and a store stays one at another level.
pub fn law_of_levels()
    ensures { LawOfLevels }
{}

/// What a store answers to a sealed text, by the entry that it finds.
pub fn law_of_decrypted()
    ensures { LawOfDecrypted }
{}

/// What was encrypted is decrypted.
pub fn law_of_encrypted()
    ensures { LawOfEncrypted }
{}
