ghost use Rattle.key_ring.specs.Laws.{LawOfInstalled, LawOfOwners};

/// After an addition the key is found, and every other as before; a new key is last, and else each keeps its place.
/// After a removal it isn't found, every other is found as before, and the others keep their order. A ring stays one.
pub fn law_of_installed()
    ensures { LawOfInstalled }
{}

/// The users and classes of a ring's keys tell who has a key in it, and where a key is after an addition.
pub fn law_of_owners()
    ensures { LawOfOwners }
{}
