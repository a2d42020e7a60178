ghost use Rattle.std.specs.Prelude.{◌≡◌, ◌<◌, Some, true};
ghost use Rattle.std.specs.Bool.{⊤};
ghost use Rattle.pol_access.specs.Access.{catalog_role_id, is_joined, is_member, principal_id, principal_role_id};
ghost use Rattle.pol_access.specs.Names.{catalog_role_named, principal_named, principal_role_named, principal_of_client};
ghost use Rattle.pol_access.specs.contracts.rows.GrantRow as grant_row;
ghost use Rattle.pol_tables.specs.Facts.{holds};
ghost use Rattle.pol_tables.specs.Table.{row_of};
ghost use Rattle.pol_rules.specs.AccessRules.{is_first, no_catalog_role, no_grant, no_join, no_member, no_principal, no_principal_role, no_securable, reserved, reserved_grant, reserved_join, reserved_member, securable_in};
ghost use Rattle.pol_rules.specs.Judged.{Judges, Tells};
ghost use Rattle.pol_rules.specs.Rules.{name_taken};
ghost use Rattle.pol_state.specs.Sound.{IsSound};

use crate::catalog_rules::CATALOG_ADMIN;
use crate::namespace_rules::namespace_there;
use crate::rules::{Asked, Undone};
use crate::table_rules::table_there;
use crate::view_rules::view_there;
use pol_access::{
    CatalogRoleRow, GrantRow, JoinRow, MemberRow, PrincipalRoleRow, PrincipalRow, Privilege,
    Securable,
};
use pol_commands::{Grant, GrantedOn, Refusal};
use pol_content::CatalogRow;
use pol_names::Plain;
use pol_state::texts::text;
use std::alloc::Global;

/// The principal that always has access to everything.
pub const ROOT: &str = "root";

/// The principal role that manages the realm, of which `root` is always a member.
pub const SERVICE_ADMIN: &str = "service_admin";

/// The principal of the name.
#[tactic(auto, unfolding(crate::specs::AccessRules::no_principal))]
pub fn principal_there<'a>(asked: &Asked<'a>, name: &Plain) -> Result<&'a PrincipalRow, Undone>
    requires { IsSound asked.now.state.now.rows }
    ensures { let s = asked.now.state.now.rows in
        Tells (no_principal s name.now)
        (λ row. (principal_named name.now s.access ≡ Some row.now)
        × (row_of principal_id row.now.id s.access.principals ≡ Some row.now)) result }
{
    let Some(row) = asked.state.access().principal_named(name.as_str()) else {
        return Err(Undone::Refused(Refusal::NoSuchRole {
            name: text(asked.alloc, name.as_str())?,
        }));
    };
    Ok(row)
}

/// The principal role of the name.
#[tactic(auto, unfolding(crate::specs::AccessRules::no_principal_role))]
pub fn principal_role_there<'a>(
    asked: &Asked<'a>,
    name: &Plain,
) -> Result<&'a PrincipalRoleRow, Undone>
    requires { IsSound asked.now.state.now.rows }
    ensures { let s = asked.now.state.now.rows in
        Tells (no_principal_role s name.now)
        (λ row. (principal_role_named name.now s.access ≡ Some row.now)
        × (row_of principal_role_id row.now.id s.access.principal_roles ≡ Some row.now)) result }
{
    let Some(row) = asked.state.access().principal_role_named(name.as_str()) else {
        return Err(Undone::Refused(Refusal::NoSuchRole {
            name: text(asked.alloc, name.as_str())?,
        }));
    };
    Ok(row)
}

/// The role of the name in the catalogue.
#[tactic(auto, unfolding(crate::specs::AccessRules::no_catalog_role))]
pub fn catalog_role_there<'a>(
    asked: &Asked<'a>,
    catalog: &CatalogRow,
    name: &Plain,
) -> Result<&'a CatalogRoleRow, Undone>
    requires { IsSound asked.now.state.now.rows }
    ensures { let s = asked.now.state.now.rows in
        Tells (no_catalog_role s name.now catalog.now)
        (λ row. (catalog_role_named catalog.now.id name.now s.access ≡ Some row.now)
        × (row_of catalog_role_id row.now.id s.access.catalog_roles ≡ Some row.now)) result }
{
    let access = asked.state.access();
    let Some(row) = access.catalog_role_named(catalog.id, name.as_str()) else {
        return Err(Undone::Refused(Refusal::NoSuchRole {
            name: text(asked.alloc, name.as_str())?,
        }));
    };
    Ok(row)
}

/// No principal has the name.
#[tactic(auto, unfolding(crate::specs::Rules::name_taken))]
pub fn principal_free(asked: &Asked<'_>, name: &Plain) -> Result<(), Undone>
    requires { IsSound asked.now.state.now.rows }
    ensures { let s = asked.now.state.now.rows in
        Tells (name_taken (principal_named name.now s.access) name.now) (λ _. ⊤) result }
{
    let access = asked.state.access();
    if access.principal_named(name.as_str()).is_some() {
        return Err(Undone::Refused(Refusal::NameTaken {
            name: text(asked.alloc, name.as_str())?,
        }));
    }
    Ok(())
}

/// No principal has the client id.
#[tactic(auto, unfolding(crate::specs::Rules::name_taken))]
pub fn client_free(asked: &Asked<'_>, client_id: &str) -> Result<(), Undone>
    requires { IsSound asked.now.state.now.rows }
    ensures { let s = asked.now.state.now.rows in
        Tells (name_taken (principal_of_client client_id.now s.access) client_id.now) (λ _. ⊤) result }
{
    let access = asked.state.access();
    if access.principal_of_client(client_id).is_some() {
        return Err(Undone::Refused(Refusal::NameTaken {
            name: text(asked.alloc, client_id)?,
        }));
    }
    Ok(())
}

/// No principal role has the name.
#[tactic(auto, unfolding(crate::specs::Rules::name_taken))]
pub fn principal_role_free(asked: &Asked<'_>, name: &Plain) -> Result<(), Undone>
    requires { IsSound asked.now.state.now.rows }
    ensures { let s = asked.now.state.now.rows in
        Tells (name_taken (principal_role_named name.now s.access) name.now) (λ _. ⊤) result }
{
    let access = asked.state.access();
    if access.principal_role_named(name.as_str()).is_some() {
        return Err(Undone::Refused(Refusal::NameTaken {
            name: text(asked.alloc, name.as_str())?,
        }));
    }
    Ok(())
}

/// No role of the catalogue has the name.
#[tactic(auto, unfolding(crate::specs::Rules::name_taken))]
pub fn catalog_role_free(
    asked: &Asked<'_>,
    catalog: &CatalogRow,
    name: &Plain,
) -> Result<(), Undone>
    requires { IsSound asked.now.state.now.rows }
    ensures { let s = asked.now.state.now.rows in
        Tells (name_taken (catalog_role_named catalog.now.id name.now s.access) name.now) (λ _. ⊤) result }
{
    let access = asked.state.access();
    let found = access.catalog_role_named(catalog.id, name.as_str());
    if found.is_some() {
        return Err(Undone::Refused(Refusal::NameTaken {
            name: text(asked.alloc, name.as_str())?,
        }));
    }
    Ok(())
}

/// What a grant names in the catalogue.
pub fn securable_there(
    asked: &Asked<'_>,
    catalog: &CatalogRow,
    on: &GrantedOn,
) -> Result<Securable, Undone>
    requires { IsSound asked.now.state.now.rows }
    ensures { let s = asked.now.state.now.rows in
        Judges (no_securable s on.now catalog.now)
        (λ securable. securable_in s on.now catalog.now ≡ Some securable) result }
{
    match on {
        GrantedOn::Catalog => Ok(Securable::Catalog(catalog.id)),
        GrantedOn::Namespace(levels) => {
            let row = namespace_there(asked, catalog.id, levels)?;
            Ok(Securable::Namespace(row.id))
        }
        GrantedOn::Table(identifier) => {
            namespace_there(asked, catalog.id, &identifier.namespace)?;
            let row = table_there(asked, catalog, identifier)?;
            Ok(Securable::Table(row.id))
        }
        GrantedOn::View(identifier) => {
            namespace_there(asked, catalog.id, &identifier.namespace)?;
            let row = view_there(asked, catalog, identifier)?;
            Ok(Securable::View(row.id))
        }
    }
}

/// The membership is there. The role, to which it would lead, has this name.
#[tactic(auto, unfolding(crate::specs::AccessRules::no_member))]
pub fn member_there(asked: &Asked<'_>, role: &Plain, row: &MemberRow) -> Result<(), Undone>
    ensures { let s = asked.now.state.now.rows in
        Tells (no_member s role.now row.now)
        (λ _. is_member row.now.principal row.now.role s.access ≡ true) result }
{
    if !asked.state.access().is_member(row.principal, row.role) {
        return Err(Undone::Refused(Refusal::NoSuchRole {
            name: text(asked.alloc, role.as_str())?,
        }));
    }
    Ok(())
}

/// The join is there. The catalogue role, to which it would lead, has this name.
#[tactic(auto, unfolding(crate::specs::AccessRules::no_join))]
pub fn join_there(asked: &Asked<'_>, catalog_role: &Plain, row: &JoinRow) -> Result<(), Undone>
    ensures { let s = asked.now.state.now.rows in
        Tells (no_join s catalog_role.now row.now)
        (λ _. is_joined row.now.principal_role row.now.catalog_role s.access ≡ true) result }
{
    let access = asked.state.access();
    if !access.is_joined(row.principal_role, row.catalog_role) {
        return Err(Undone::Refused(Refusal::NoSuchRole {
            name: text(asked.alloc, catalog_role.as_str())?,
        }));
    }
    Ok(())
}

/// The grant is there.
#[tactic(auto, unfolding(crate::specs::AccessRules::no_grant))]
pub fn grant_there(asked: &Asked<'_>, row: &GrantRow) -> Result<(), Undone>
    ensures { let s = asked.now.state.now.rows in
        Tells (no_grant s row.now)
        (λ _. holds grant_row.the_row.coded row.now s.access.grants ≡ true) result }
{
    if !asked.state.access().has_grant(row) {
        return Err(Undone::Refused(Refusal::NoSuchRole {
            name: text(asked.alloc, row.privilege.as_str())?,
        }));
    }
    Ok(())
}

/// The name isn't that of what is kept.
#[tactic(auto, unfolding(crate::specs::AccessRules::reserved))]
pub fn unreserved(alloc: Global, kept: &str, name: &Plain) -> Result<(), Undone>
    ensures { Tells (reserved kept.now name.now) (λ _. ⊤) result }
{
    if name.as_str() == kept {
        return Err(Undone::Refused(Refusal::Reserved {
            name: text(alloc, kept)?,
        }));
    }
    Ok(())
}

/// The membership, by the names of its principal and its role, may end.
#[tactic(auto, unfolding(crate::specs::AccessRules::reserved_member))]
pub fn member_may_end(alloc: Global, principal: &Plain, role: &Plain) -> Result<(), Undone>
    ensures { Tells (reserved_member principal.now role.now) (λ _. ⊤) result }
{
    if principal.as_str() == ROOT && role.as_str() == SERVICE_ADMIN {
        return Err(Undone::Refused(Refusal::Reserved {
            name: text(alloc, ROOT)?,
        }));
    }
    Ok(())
}

/// The join, by the names of its roles, may end.
#[tactic(auto, unfolding(crate::specs::AccessRules::reserved_join))]
pub fn join_may_end(alloc: Global, role: &Plain, catalog_role: &Plain) -> Result<(), Undone>
    ensures { Tells (reserved_join role.now catalog_role.now) (λ _. ⊤) result }
{
    if role.as_str() == SERVICE_ADMIN && catalog_role.as_str() == CATALOG_ADMIN {
        return Err(Undone::Refused(Refusal::Reserved {
            name: text(alloc, CATALOG_ADMIN)?,
        }));
    }
    Ok(())
}

/// The grant to the catalogue role of this name may be revoked.
#[tactic(auto, unfolding(crate::specs::AccessRules::reserved_grant))]
pub fn grant_may_end(alloc: Global, role: &Plain, grant: &Grant) -> Result<(), Undone>
    ensures { Tells (reserved_grant role.now grant.now) (λ _. ⊤) result }
{
    if role.as_str() == CATALOG_ADMIN && is_first(grant) {
        return Err(Undone::Refused(Refusal::Reserved {
            name: text(alloc, CATALOG_ADMIN)?,
        }));
    }
    Ok(())
}

/// Whether a `catalog_admin` has the grant from the start.
fn is_first(grant: &Grant) -> bool
    ensures { result ≡ is_first grant.now }
{
    match &grant.on {
        GrantedOn::Catalog => {
            grant.privilege == Privilege::CatalogManageAccess
                || grant.privilege == Privilege::CatalogManageContent
        }
        GrantedOn::Namespace(_) | GrantedOn::Table(_) | GrantedOn::View(_) => false,
    }
}
