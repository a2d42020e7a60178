//! Whether ids are those of rows.
ghost use Rattle.std.specs.Prelude.{◌≡◌};
ghost use Rattle.pol_access.specs.Access.{catalog_role_id, principal_id, principal_role_id};
ghost use Rattle.pol_tables.specs.Table.{knows};

use pol_access::Access;

#[tactic(auto, using(crate::proofs::FoundLemmas::known_row))]
pub fn knows_principal(access: &Access, id: u64) -> bool
    ensures { result ≡ knows principal_id id access.now.rows.principals }
{
    access.principal(id).is_some()
}

#[tactic(auto, using(crate::proofs::FoundLemmas::known_row))]
pub fn knows_principal_role(access: &Access, id: u64) -> bool
    ensures { result ≡ knows principal_role_id id access.now.rows.principal_roles }
{
    access.principal_role(id).is_some()
}

#[tactic(auto, using(crate::proofs::FoundLemmas::known_row))]
pub fn knows_catalog_role(access: &Access, id: u64) -> bool
    ensures { result ≡ knows catalog_role_id id access.now.rows.catalog_roles }
{
    access.catalog_role(id).is_some()
}
