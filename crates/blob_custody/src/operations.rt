ghost use Rattle.blob_custody.specs.Operations.{LawOfQuietOperations, LawOfDebris, LawOfBirths, LawOfDrops};
ghost use Rattle.blob_custody.specs.Operations.{LawOfDistinctDrops, LawOfDestructions, LawOfAdditions};
ghost use Rattle.blob_custody.specs.Operations.{LawOfSettlings};

/// An operation that touches no standing directory, such as one in the temporary place, renames nothing.
pub fn law_of_quiet_operations()
    ensures { LawOfQuietOperations }
{}

/// Where the user has no device key's directory, in whatever tree the pending operations leave, an operation on the
/// credential directories and the temporary place renames nothing.
pub fn law_of_debris()
    ensures { LawOfDebris }
{}

/// The temporary directory becomes the device key's, of a user who has none: it and the current slot's directory then
/// name their blobs.
pub fn law_of_births()
    ensures { LawOfBirths }
{}

/// A slot's directory is removed: the user no longer names the blob that it named, if it named one.
pub fn law_of_drops()
    ensures { LawOfDrops }
{}

/// The blobs that the removal of a directory drops differ, since it names one at most.
pub fn law_of_distinct_drops()
    ensures { LawOfDistinctDrops }
{}

/// The device key's directory is removed: the user no longer names any blob.
pub fn law_of_destructions()
    ensures { LawOfDestructions }
{}

/// The temporary directory goes to a free slot: the user then names its blob too, if it names one.
pub fn law_of_additions()
    ensures { LawOfAdditions }
{}

/// A slot's directory goes to a free slot: the user names what was named.
pub fn law_of_settlings()
    ensures { LawOfSettlings }
{}
