ghost use Rattle.std.proofs.Common.{rules};
ghost use Rattle.pol_types.specs.Exact.{exactness};

use pol_types::{Exact, Text};

/// A text under a key.
#[derive(Clone, Drop, PartialEq, Eq)]
pub struct Property {
    pub key: Text,
    pub value: Text,
}

impl Exact for Property {
    ghost clones_exactly = { Prim.search rules };

    ghost compares_exactly = { Prim.grind exactness };
}
