ghost use Rattle.std.proofs.Common.{rules};
ghost use Rattle.pol_types.specs.Exact.{exactness};

use pol_types::{Exact, Listed};

/// The ids of principal roles.
pub type RoleIds = Listed<u64>;

/// The principal roles that a session acts with: all of its principal's, or those of them that it names.
#[derive(Clone, Drop, PartialEq, Eq)]
pub enum Scope {
    All,
    Roles(RoleIds),
}

impl Exact for Scope {
    ghost clones_exactly = { Prim.search rules };

    ghost compares_exactly = { Prim.grind exactness };
}
