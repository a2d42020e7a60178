ghost use Rattle.std.specs.Prelude.{◌≡◌, true};
ghost use Rattle.std.proofs.Common.{rules};
ghost use Rattle.std.specs.Cmp.{first_so, second_so};
ghost use Rattle.std.proofs.lemmas.Bool.{eqb-true};
ghost use Rattle.pol_types.specs.Exact.{exactness};
ghost use Rattle.pol_access.specs.Privilege.{privilege_is};
ghost use Rattle.pol_access.specs.declared.securable.Securable.{Securable};

use crate::{Privilege, Securable};
use pol_names::Plain;
use pol_tables::{Fact, Keyed};
use pol_tallies::Grouped;
use pol_types::{Exact, Text};

/// A principal: its name, the client id under which it opens sessions, and the SHA-256 digest of its secret.
#[derive(Clone, Drop, PartialEq, Eq)]
pub struct PrincipalRow {
    pub id: u64,
    pub name: Plain,
    pub client_id: Text,
    pub digest: [u8; 32],
}

impl Exact for PrincipalRow {
    ghost clones_exactly = { Prim.search rules };

    ghost compares_exactly = { Prim.grind exactness };
}

impl Keyed for PrincipalRow {
    ghost key = { λ row. row.id };

    fn key(&self) -> u64 {
        self.id
    }
}

/// A role of the realm, which principals are members of.
#[derive(Clone, Drop, PartialEq, Eq)]
pub struct PrincipalRoleRow {
    pub id: u64,
    pub name: Plain,
}

impl Exact for PrincipalRoleRow {
    ghost clones_exactly = { Prim.search rules };

    ghost compares_exactly = { Prim.grind exactness };
}

impl Keyed for PrincipalRoleRow {
    ghost key = { λ row. row.id };

    fn key(&self) -> u64 {
        self.id
    }
}

/// A role of a catalogue, known by the catalogue's id and its name.
#[derive(Clone, Drop, PartialEq, Eq)]
pub struct CatalogRoleRow {
    pub id: u64,
    pub catalog: u64,
    pub name: Plain,
}

impl Exact for CatalogRoleRow {
    ghost clones_exactly = { Prim.search rules };

    ghost compares_exactly = { Prim.grind exactness };
}

impl Keyed for CatalogRoleRow {
    ghost key = { λ row. row.id };

    fn key(&self) -> u64 {
        self.id
    }
}

/// That a principal is a member of a principal role, each named by its id.
#[derive(Clone, Copy, PartialEq, Eq, PartialOrd, Ord, Hash)]
pub struct MemberRow {
    pub principal: u64,
    pub role: u64,
}

impl Exact for MemberRow {
    ghost clones_exactly = { Prim.search rules };

    ghost compares_exactly = { Prim.grind exactness };
}

impl Fact for MemberRow {
    ghost use Rattle.pol_access.specs.contracts.rows.MemberRow.{the_row};

    ghost coded = { the_row.coded };
}

/// A member belongs to the ids of its principal and its role.
impl Grouped for MemberRow {
    ghost use Rattle.pol_access.specs.Groups.{member_groups};

    ghost groups = { member_groups };

    ghost MOST = { 2 };

    const MOST: usize = 2;

    fn group_count(&self) -> usize {
        2
    }

    fn group(&self, place: usize) -> u64 {
        if place == 0 {
            self.principal
        } else {
            self.role
        }
    }
}

/// That a principal role is joined to a catalogue role, each named by its id: its members have the catalogue role's
/// grants.
#[derive(Clone, Copy, PartialEq, Eq, PartialOrd, Ord, Hash)]
pub struct JoinRow {
    pub principal_role: u64,
    pub catalog_role: u64,
}

impl Exact for JoinRow {
    ghost clones_exactly = { Prim.search rules };

    ghost compares_exactly = { Prim.grind exactness };
}

impl Fact for JoinRow {
    ghost use Rattle.pol_access.specs.contracts.rows.JoinRow.{the_row};

    ghost coded = { the_row.coded };
}

/// A join belongs to the ids of both roles.
impl Grouped for JoinRow {
    ghost use Rattle.pol_access.specs.Groups.{join_groups};

    ghost groups = { join_groups };

    ghost MOST = { 2 };

    const MOST: usize = 2;

    fn group_count(&self) -> usize {
        2
    }

    fn group(&self, place: usize) -> u64 {
        if place == 0 {
            self.principal_role
        } else {
            self.catalog_role
        }
    }
}

/// That a catalogue role, named by its id, has a privilege on a securable and on all that it contains.
#[derive(Clone, Copy, PartialEq, Eq, PartialOrd, Ord, Hash)]
pub struct GrantRow {
    pub catalog_role: u64,
    pub privilege: Privilege,
    pub securable: Securable,
}

impl Exact for GrantRow {
    ghost clones_exactly = { Prim.search rules };

    ghost compares_exactly = { let securable_is : (left right : Securable)
        → ⟦<Securable as PartialEq>⟧.eq left right ≡ true → left ≡ right = Prim.grind exactness
        in
        λ left right same i. record {
          catalog_role = eqb-true left.catalog_role right.catalog_role (first_so _ _ same) i;
          privilege = privilege_is left.privilege right.privilege (first_so _ _ (second_so _ _ same)) i;
          securable = securable_is left.securable right.securable (second_so _ _ (second_so _ _ same)) i;
        } };
}

impl Fact for GrantRow {
    ghost use Rattle.pol_access.specs.contracts.rows.GrantRow.{the_row};

    ghost coded = { the_row.coded };
}

/// A grant belongs to the ids of its role and its securable, or of its role alone where it is on the realm.
impl Grouped for GrantRow {
    ghost use Rattle.pol_access.specs.Groups.{grant_groups};

    ghost groups = { grant_groups };

    ghost MOST = { 2 };

    const MOST: usize = 2;

    fn group_count(&self) -> usize {
        match self.securable.id() {
            Some(_) => 2,
            None => 1,
        }
    }

    fn group(&self, place: usize) -> u64 {
        match self.securable.id() {
            Some(id) if place == 1 => id,
            _ => self.catalog_role,
        }
    }
}
