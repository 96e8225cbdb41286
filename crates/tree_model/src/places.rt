ghost use Rattle.std.proofs.Common.{rules};
ghost use Rattle.std.specs.Cmp.{partial_order_from_own_ties};
ghost use Rattle.std.specs.Cmp.Rules.{comparing};
ghost use Rattle.std.specs.Ordering.{as_partial_cmp};
ghost use Rattle.tree_model.specs.Order.{slot_cmp, slot_total, place_cmp, place_total};

use std::cmp::Ordering;

/// Which of a user's two keys: the device key, usable after boot, or the credential key, usable after the secret was
/// given.
#[derive(Clone, Copy, Debug, PartialEq, Eq)]
pub enum Class {
    De,
    Ce,
}

/// A place for a credential key among those of its user.
#[derive(Clone, Copy, Debug, PartialEq, Eq)]
pub enum Slot {
    /// The one that stands when the user has a single secret.
    Current,
    /// A numbered one, for a further secret.
    Cx(u32),
}

/// A place for a directory: a user's device key, one of a user's credential keys, or the user's temporary place.
#[derive(Clone, Copy, Debug, PartialEq, Eq)]
pub enum Place {
    De(u32),
    Ce(u32, Slot),
    Temp(u32),
}

/// The order in which the variants stand, then that of their numbers.
impl Ord for Slot {
    ghost cmp = { slot_cmp };

    ghost total = { slot_total };

    ghost matches_partial_cmp = { Prim.search (comparing, rules) };

    ghost matches_eq = { Prim.search (comparing, rules) };

    fn cmp(&self, other: &Slot) -> Ordering {
        match (*self, *other) {
            (Slot::Current, Slot::Current) => Ordering::Equal,
            (Slot::Current, Slot::Cx(_)) => Ordering::Less,
            (Slot::Cx(_), Slot::Current) => Ordering::Greater,
            (Slot::Cx(a), Slot::Cx(b)) => a.cmp(&b),
        }
    }
}

impl PartialOrd for Slot {
    ghost partial_cmp = { as_partial_cmp slot_cmp };

    ghost laws = { partial_order_from_own_ties (Prim.search (comparing, rules)) (Prim.search (comparing, rules)) };

    fn partial_cmp(&self, other: &Slot) -> Option<Ordering> {
        Some(self.cmp(other))
    }
}

/// The order in which the variants stand, then that of their numbers.
impl Ord for Place {
    ghost cmp = { place_cmp };

    ghost total = { place_total };

    ghost matches_partial_cmp = { Prim.search (comparing, rules) };

    ghost matches_eq = { Prim.search (comparing, rules) };

    fn cmp(&self, other: &Place) -> Ordering {
        match (*self, *other) {
            (Place::De(a), Place::De(b)) => a.cmp(&b),
            (Place::De(_), _) => Ordering::Less,
            (_, Place::De(_)) => Ordering::Greater,
            (Place::Ce(a, s), Place::Ce(b, t)) => a.cmp(&b).then(s.cmp(&t)),
            (Place::Ce(_, _), Place::Temp(_)) => Ordering::Less,
            (Place::Temp(_), Place::Ce(_, _)) => Ordering::Greater,
            (Place::Temp(a), Place::Temp(b)) => a.cmp(&b),
        }
    }
}

impl PartialOrd for Place {
    ghost partial_cmp = { as_partial_cmp place_cmp };

    ghost laws = { partial_order_from_own_ties (Prim.search (comparing, rules)) (Prim.search (comparing, rules)) };

    fn partial_cmp(&self, other: &Place) -> Option<Ordering> {
        Some(self.cmp(other))
    }
}
