ghost use Rattle.tree_model.specs.Parts.{LawOfParts};

/// What an operation on one user's places does, and which change it makes, shows in that user's part of the tree; it
/// leaves the part of every other user.
pub fn law_of_parts()
    ensures { LawOfParts }
{}
