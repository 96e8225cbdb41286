ghost use Rattle.user_tasks.specs.WrongPlans.{RepliesBeforeSync, LeavesOutDevice, HidesChange, HidesBlob};
ghost use Rattle.user_tasks.specs.WrongPlans.{TouchesOther, RepliesBeforeKeys, InstallsOther};

/// Wrong plans of a create, each refuted by what a turn has to show, in a scene where it fails.
pub fn law_of_wrong_plans()
    ensures replied { RepliesBeforeSync }
    ensures left_out { LeavesOutDevice }
    ensures hidden { HidesChange }
    ensures unnamed { HidesBlob }
    ensures other { TouchesOther }
    ensures uninstalled { RepliesBeforeKeys }
    ensures other_key { InstallsOther }
{}
