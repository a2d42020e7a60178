ghost use Rattle.std.specs.Coded.{Coded};

use pol_types::Exact;
use std::hash::Hash;

/// A fact, as a pair of ids, which a set holds once. Contracts tell facts apart by their code.
pub trait Fact: Exact + Hash + Drop {
    ghost coded: { Coded Self };
}
