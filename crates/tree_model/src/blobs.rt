ghost use Rattle.std.proofs.Common.{rules};
ghost use Rattle.std.specs.Cmp.{partial_order_from_own_ties};
ghost use Rattle.std.specs.Cmp.Rules.{comparing};
ghost use Rattle.std.specs.Ordering.{as_partial_cmp};
ghost use Rattle.std.specs.Prelude.{◌≡◌};
ghost use Rattle.tree_model.specs.Blobs.{blob_cmp, blob_total};

use std::cmp::Ordering;
use std::marker::Model;

/// The name that a keystore gives an entry: 32 bytes.
#[derive(Clone, Copy, PartialEq, Eq)]
pub struct Blob {
    bytes: [u8; 32],
}

impl Model for Blob {
    ghost use Rattle.std.specs.Prelude.{◌≡◌, List, ℕ, length};

    ghost Value = { List ℕ };

    ghost view = { λ blob. blob.bytes };

    ghost invariant = { λ blob. length blob.bytes ≡ 32 };

    ghost inverse = { λ bytes. record { bytes = bytes } };
}

impl Blob {
    /// The blob of these bytes.
    pub fn new(bytes: [u8; 32]) -> Blob
        ensures { result ≡ bytes }
    {
        Blob { bytes }
    }

    /// Its bytes.
    pub fn bytes(&self) -> [u8; 32]
        ensures { result ≡ self.now }
    {
        self.bytes
    }
}

/// The order of their bytes, the first that differs deciding.
impl Ord for Blob {
    ghost cmp = { blob_cmp };

    ghost total = { blob_total };

    ghost matches_partial_cmp = { Prim.search (comparing, rules) };

    ghost matches_eq = { Prim.search (comparing, rules) };

    fn cmp(&self, other: &Blob) -> Ordering {
        self.bytes.cmp(&other.bytes)
    }
}

impl PartialOrd for Blob {
    ghost partial_cmp = { as_partial_cmp blob_cmp };

    ghost laws = { partial_order_from_own_ties (Prim.search (comparing, rules)) (Prim.search (comparing, rules)) };

    fn partial_cmp(&self, other: &Blob) -> Option<Ordering> {
        Some(self.cmp(other))
    }
}
