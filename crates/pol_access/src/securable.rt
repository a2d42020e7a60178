ghost use Rattle.std.specs.Prelude.{◌≡◌};
ghost use Rattle.std.proofs.Common.{rules};
ghost use Rattle.pol_types.specs.Exact.{exactness};
ghost use Rattle.pol_access.specs.contracts.securable.Securable.{the_row};
ghost use Rattle.pol_tables.specs.Same.{same};
ghost use Rattle.pol_access.specs.Search.{is_in};
ghost use Rattle.pol_access.specs.Securable.{id_of, is_realm, kind_of};

use pol_types::Exact;

/// What privileges are used on: the realm, or a catalogue, a namespace, a table or a view by its id.
#[derive(Clone, Copy, PartialEq, Eq, PartialOrd, Ord, Hash)]
pub enum Securable {
    Realm,
    Catalog(u64),
    Namespace(u64),
    Table(u64),
    View(u64),
}

impl Securable {
    pub fn kind(self) -> SecurableKind
        ensures { result ≡ kind_of self }
    {
        match self {
            Securable::Realm => SecurableKind::Realm,
            Securable::Catalog(_) => SecurableKind::Catalog,
            Securable::Namespace(_) => SecurableKind::Namespace,
            Securable::Table(_) => SecurableKind::Table,
            Securable::View(_) => SecurableKind::View,
        }
    }

    pub(crate) fn is_realm(self) -> bool
        ensures { result ≡ is_realm self }
    {
        match self {
            Securable::Realm => true,
            Securable::Catalog(_)
            | Securable::Namespace(_)
            | Securable::Table(_)
            | Securable::View(_) => false,
        }
    }

    /// The id of what is below the realm.
    pub(crate) fn id(self) -> Option<u64>
        ensures { result ≡ id_of self }
    {
        match self {
            Securable::Realm => None,
            Securable::Catalog(id)
            | Securable::Namespace(id)
            | Securable::Table(id)
            | Securable::View(id) => Some(id),
        }
    }

    /// Whether it is the other one.
    pub(crate) fn is_same(self, other: Securable) -> bool
        ensures { result ≡ same the_row.coded self other }
    {
        self == other
    }

    /// Whether it is one of these.
    pub(crate) fn is_in(self, chain: &[Securable]) -> bool
        ensures { result ≡ is_in self chain.now }
    {
        chain.contains(&self)
    }
}

impl Exact for Securable {
    ghost clones_exactly = { Prim.search rules };

    ghost compares_exactly = { Prim.grind exactness };
}

/// The kinds of securables.
#[derive(Clone, Copy, PartialEq, Eq)]
pub enum SecurableKind {
    Realm,
    Catalog,
    Namespace,
    Table,
    View,
}
