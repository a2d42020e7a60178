ghost use Rattle.std.specs.Prelude.{Some, ◌∷◌, ◌++◌};
ghost use Rattle.std.proofs.Common.{rules};
ghost use Rattle.pol_types.specs.Exact.{exactness};
ghost use Rattle.pol_names.specs.Namespace.{dotted};

use crate::{Name, Namespace};
use pol_types::Exact;
use std::fmt;

/// The full name of a table or a view: its namespace and its name in it. It prints as `levels.name`, the levels
/// with dots between them.
#[derive(Clone, Drop, PartialEq, Eq, PartialOrd, Ord, Hash)]
pub struct Identifier {
    pub namespace: Namespace,
    pub name: Name,
}

impl Exact for Identifier {
    ghost clones_exactly = { Prim.search rules };

    ghost compares_exactly = { Prim.grind exactness };
}

impl fmt::Display for Identifier {
    ghost output = { λ identifier. Some (dotted identifier.namespace ++ 0x2E ∷ identifier.name) };

    fn fmt<W: fmt::Write>(&self, f: &mut fmt::Formatter<W>) -> fmt::Result {
        let namespace = &self.namespace;
        let name = &self.name;
        write!(f, "{namespace}.{name}")
    }
}
