ghost use Rattle.std.specs.Prelude.{◌≡◌};
ghost use Rattle.pol_access.specs.Referent.{grant_names, is_role_of, join_names, member_names};

use crate::{Access, GrantRow, JoinRow, MemberRow, Securable};

/// What members, joins and grants name: a principal, a principal role or a catalogue role by its id, a catalogue by
/// its id where they name one of its roles, or a securable.
#[derive(Clone, Copy)]
pub enum Referent {
    Principal(u64),
    PrincipalRole(u64),
    CatalogRole(u64),
    RoleOfCatalog(u64),
    Securable(Securable),
}

impl Referent {
    /// Whether the member names this.
    pub fn is_named_by_member(self, row: &MemberRow) -> bool
        ensures { result ≡ member_names self row.now }
    {
        match self {
            Referent::Principal(id) => row.principal == id,
            Referent::PrincipalRole(id) => row.role == id,
            Referent::CatalogRole(_) | Referent::RoleOfCatalog(_) | Referent::Securable(_) => false,
        }
    }

    /// Whether the join, one of these rows, names this.
    pub fn is_named_by_join(self, access: &Access, row: &JoinRow) -> bool
        ensures { result ≡ join_names access.now.rows.catalog_roles self row.now }
    {
        match self {
            Referent::PrincipalRole(id) => row.principal_role == id,
            Referent::CatalogRole(id) => row.catalog_role == id,
            Referent::RoleOfCatalog(id) => is_role_of(access, id, row.catalog_role),
            Referent::Principal(_) | Referent::Securable(_) => false,
        }
    }

    /// Whether the grant, one of these rows, names this.
    pub fn is_named_by_grant(self, access: &Access, row: &GrantRow) -> bool
        ensures { result ≡ grant_names access.now.rows.catalog_roles self row.now }
    {
        match self {
            Referent::CatalogRole(id) => row.catalog_role == id,
            Referent::RoleOfCatalog(id) => is_role_of(access, id, row.catalog_role),
            Referent::Securable(securable) => row.securable.is_same(securable),
            Referent::Principal(_) | Referent::PrincipalRole(_) => false,
        }
    }
}

/// Whether the role of this id is the catalogue's.
fn is_role_of(access: &Access, catalog: u64, role: u64) -> bool
    ensures { result ≡ is_role_of access.now.rows.catalog_roles catalog role }
{
    match access.catalog_role(role) {
        Some(row) => row.catalog == catalog,
        None => false,
    }
}
