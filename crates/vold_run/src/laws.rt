ghost use Rattle.vold_run.specs.Calls.{LawOfPlans};

/// A device that tells its plan and has no call in it did each of the calls that a run counted, so that its count of
/// faults is what it was.
pub fn law_of_plans()
    ensures { LawOfPlans }
{}
