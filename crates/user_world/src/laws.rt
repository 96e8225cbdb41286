ghost use Rattle.user_world.specs.ImageLaws.{LawOfLocality, LawByUsers, LawOfOperations, LawOfChanges};
ghost use Rattle.user_world.specs.ImageLaws.{LawOfSync, LawOfStop, LawOfView, LawOfMeaning};
ghost use Rattle.user_world.specs.Laws.{LawOfOneWorld, LawOfProduct, LawOfBase, LawOfFacts, LawOfStep};
ghost use Rattle.user_world.specs.Laws.{LawOfFailure, LawOfSettling, LawOfStopping, LawOfRollback};

/// What stands for a user depends on that user's places alone.
pub fn law_of_locality()
    ensures { LawOfLocality }
{}

/// A tree stands for a map of users exactly user by user, so an operation on one user's places asks only for that
/// user.
pub fn law_by_users()
    ensures { LawByUsers }
{}

/// An operation that is no change keeps every image.
pub fn law_of_operations()
    ensures { LawOfOperations }
{}

/// An operation that is a change keeps every image, with the change in the log.
pub fn law_of_changes()
    ensures { LawOfChanges }
{}

/// A sync takes all images but the view away.
pub fn law_of_sync()
    ensures { LawOfSync }
{}

/// A stop makes one image the stable tree, which stands for the changes up to its cut.
pub fn law_of_stop()
    ensures { LawOfStop }
{}

/// The view is one of the images, and stands for every change.
pub fn law_of_view()
    ensures { LawOfView }
{}

/// Where what "opens" means changes and the disk doesn't, every image goes on standing.
pub fn law_of_meaning()
    ensures { LawOfMeaning }
{}

/// A disk and its log of changes show one world, and each user's world is the user's part of both.
pub fn law_of_one_world()
    ensures { LawOfOneWorld }
{}

/// Every image stands exactly where each user's own world stands.
pub fn law_of_product()
    ensures { LawOfProduct }
{}

/// So it is of one tree.
pub fn law_of_base()
    ensures { LawOfBase }
{}

/// The facts that a command rests on last until its next turn, whatever others do.
pub fn law_of_facts()
    ensures { LawOfFacts }
{}

/// A user's step that shows what it has to keeps the whole, and leaves every other user's world or settles it.
pub fn law_of_step()
    ensures { LawOfStep }
{}

/// So does a step with no change that failed.
pub fn law_of_failure()
    ensures { LawOfFailure }
{}

/// A sync settles every user's world.
pub fn law_of_settling()
    ensures { LawOfSettling }
{}

/// A stop leaves a whole with the changes up to its cut.
pub fn law_of_stopping()
    ensures { LawOfStopping }
{}

/// A disk that is set back to a tree that stands is whole.
pub fn law_of_rollback()
    ensures { LawOfRollback }
{}
