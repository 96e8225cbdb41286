ghost use Rattle.bench.specs.Known.{LawOfKnownPlaces, LawOfKnownCalls};

/// An operation that was done keeps what the table knows of the tree.
pub fn law_of_known_places()
    ensures { LawOfKnownPlaces }
{}

/// Each call keeps it, done or failed, but that a list leaves the places alone known.
pub fn law_of_known_calls()
    ensures { LawOfKnownCalls }
{}
