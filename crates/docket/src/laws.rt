//! No number is lost: each that was given was taken by a beginning command or waits for its command's actor.

ghost use Rattle.std.specs.Prelude.{◌≡◌, ℕ, List, [], ◌∷◌, ◌++◌, Some};
ghost use Rattle.std.specs.FinMap as map;
ghost use Rattle.docket.specs.Docket.{DocketState, empty_docket, with_command, with_first_command, after_begin};
ghost use Rattle.docket.specs.Accounts.{Accounted};

use sorted_map::ExactOrd;

/// An empty docket is accounted for, and so is a docket after a command was given a number, first or last.
pub fn law_of_given<A: Ord + ExactOrd + Copy, C, R>()
    ensures empty { (actor_of : C → A) → Accounted {R = R} {cmp = A.cmp} actor_of [] empty_docket }
    ensures last { (actor_of : C → A) (taken : List ℕ) (docket : DocketState A.cmp C R) (command : C)
        → Accounted actor_of taken docket
        → Accounted actor_of taken (with_command docket (actor_of command) command) }
    ensures first { (actor_of : C → A) (taken : List ℕ) (docket : DocketState A.cmp C R) (command : C)
        → Accounted actor_of taken docket
        → Accounted actor_of taken (with_first_command docket (actor_of command) command) }
{}

/// A docket is accounted for after the first command of a queue began.
pub fn law_of_begun<A: Ord + ExactOrd + Copy, C, R>()
    ensures { (actor_of : C → A) (taken : List ℕ) (docket : DocketState A.cmp C R) (actor : A) (number : ℕ)
        (numbers : List ℕ) (work : R) → map.get docket.waiting actor ≡ Some (number ∷ numbers)
        → Accounted actor_of taken docket
        → Accounted actor_of (taken ++ number ∷ []) (after_begin docket actor numbers work) }
{}
