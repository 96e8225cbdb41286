//! Orders that tie equal keys alone.

ghost use Rattle.std.specs.FinMap.{IsAntisymmetric, nat_cmp-IsAntisymmetric};
ghost use Rattle.tree_model.specs.Order.{place_exact};

use tree_model::Place;

/// An order in which only equal keys tie, so that a map of such keys is known by its look-ups.
pub trait ExactOrd: Ord {
    ghost exact: { IsAntisymmetric Self.cmp };
}

impl ExactOrd for u32 {
    ghost exact = { nat_cmp-IsAntisymmetric };
}

impl ExactOrd for u64 {
    ghost exact = { nat_cmp-IsAntisymmetric };
}

impl ExactOrd for Place {
    ghost exact = { place_exact };
}
