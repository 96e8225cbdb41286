ghost use Rattle.key_directory.specs.Opened.{LawOfFitting, LawOfSlots, LawOfWrongSecrets, LawOfKeptOpening};
ghost use Rattle.key_directory.specs.Tried.{LawOfTried, LawOfOneSecret};
ghost use Rattle.key_directory.specs.VaultLaws.{StoredOpens, LawOfBirths, LawOfAdding, LawOfLater, LawOfNames};
ghost use Rattle.key_directory.specs.VaultLaws.{LawOfDropping, LawOfSettling};

/// A directory as it is stored opens with its secret to its key.
pub fn law_of_storing()
    ensures { StoredOpens }
{}

/// Every image goes on standing in a later vault that keeps the entries of the blobs which the images name.
pub fn law_of_later()
    ensures { LawOfLater }
{}

/// No two standing directories name one blob.
pub fn law_of_names()
    ensures { LawOfNames }
{}

/// Two directories that open with no secret to the keys of a birth, and name different blobs of the user's own, stand
/// for a new user.
pub fn law_of_births()
    ensures { LawOfBirths }
{}

/// A directory that opens with a secret to the user's key, renamed into a free slot, stands there under the secret.
pub fn law_of_adding()
    ensures { LawOfAdding }
{}

/// What a journal tells of secrets grows with its entries.
pub fn law_of_tried()
    ensures { LawOfTried }
{}

/// Where a journal names at most one secret of a user that isn't empty, no tag matched by chance.
pub fn law_of_one_secret()
    ensures { LawOfOneSecret }
{}

/// What a directory whose shape fits a secret opens to with it.
pub fn law_of_fitting()
    ensures { LawOfFitting }
{}

/// What a slot's directory tells of a user who is there.
pub fn law_of_slots()
    ensures { LawOfSlots }
{}

/// Where no directory opens with a secret, none of the user's slots is under it.
pub fn law_of_wrong_secrets()
    ensures { LawOfWrongSecrets }
{}

/// A directory goes on opening to what it opened to, or to nothing.
pub fn law_of_kept_opening()
    ensures { LawOfKeptOpening }
{}

/// Once a slot's directory is removed, the user stands without the slot.
pub fn law_of_dropping()
    ensures { LawOfDropping }
{}

/// Once a slot's directory is the current one, its secret is the current slot's.
pub fn law_of_settling()
    ensures { LawOfSettling }
{}
