ghost use Rattle.task_turns.specs.Laws.{LawOfLasting};

/// Where a task rests, it rests until its next turn, as long as the entries of the blobs that it holds stay.
pub fn law_of_lasting()
    ensures { LawOfLasting }
{}
