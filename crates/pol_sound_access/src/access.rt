//! Whether principals, roles, members, joins and grants are sound.
ghost use Rattle.std.specs.Prelude.{◌≡◌, codes, option_copied, Decides, IfOk};
ghost use Rattle.std.specs.List.{list_all};
ghost use Rattle.pol_access.specs.Names.{principal_named, principal_role_named, same_role_name};
ghost use Rattle.pol_access.specs.Sound.{IsSoundAccess};
ghost use Rattle.pol_access.specs.contracts.rows.GrantRow as grant;
ghost use Rattle.pol_access.specs.contracts.rows.JoinRow as join;
ghost use Rattle.pol_access.specs.contracts.rows.MemberRow as member;
ghost use Rattle.pol_sound_access.specs.Judged.{access_known, access_named, access_numbered, all_differ, facts_differ, has_root_chain, is_catalog_role, is_grant_there, is_join_there, is_member_there, is_no_role, is_securable_given, is_sound_access, same_client, same_name, same_principal_role};
ghost use Rattle.pol_tables.specs.Same.{same};

use crate::differ::{fact_keys_differ, keys_differ};
use crate::keys::{ClientKey, NameKey};
use crate::known::{knows_catalog_role, knows_principal, knows_principal_role};
use crate::rising::{is_given, rises};
use pol_access::{
    Access, CatalogRoleRow, GrantRow, JoinRow, MemberRow, PrincipalRoleRow, PrincipalRow,
    Securable, grantable,
};
use pol_types::OutOfMemory;
use std::alloc::Global;

/// Whether principals, roles, members, joins and grants are sound. It takes memory for their keys, and goes over all of
/// them.
pub fn is_sound_access(alloc: Global, access: &Access, next_id: u64) -> Result<bool, OutOfMemory>
    ensures test { IfOk result (λ sound. sound ≡ is_sound_access next_id access.now.rows) }
    ensures sound { IfOk result (λ sound. Decides sound (IsSoundAccess next_id access.now.rows)) }
{
    passes(alloc, access, next_id)
}

/// Whether the test is passed.
#[tactic(auto, unfolding(crate::specs::Judged::is_sound_access))]
fn passes(alloc: Global, access: &Access, next_id: u64) -> Result<bool, OutOfMemory>
    ensures { IfOk result (λ sound. sound ≡ is_sound_access next_id access.now.rows) }
{
    if !are_numbered(access, next_id) {
        return Ok(false);
    }
    if !are_known(access, next_id) {
        return Ok(false);
    }
    if !has_root_chain(access) {
        return Ok(false);
    }
    if !are_named(alloc, access)? {
        return Ok(false);
    }
    facts_differ(alloc, access)
}

/// Whether ids rise and were given out.
fn are_numbered(access: &Access, next_id: u64) -> bool
    ensures { result ≡ access_numbered next_id access.now.rows }
{
    rises(access.principals(), 1, next_id)
        && rises(access.principal_roles(), 1, next_id)
        && rises(access.catalog_roles(), 1, next_id)
}

/// Whether names and client ids differ.
fn are_named(alloc: Global, access: &Access) -> Result<bool, OutOfMemory>
    ensures { IfOk result (λ named. named ≡ access_named access.now.rows) }
{
    if !principals_named(alloc, access)? {
        return Ok(false);
    }
    if !clients_differ(alloc, access)? {
        return Ok(false);
    }
    if !principal_roles_named(alloc, access)? {
        return Ok(false);
    }
    catalog_roles_named(alloc, access)
}

fn principals_named(alloc: Global, access: &Access) -> Result<bool, OutOfMemory>
    ensures { IfOk result (λ named. named ≡ all_differ same_name access.now.rows.principals) }
{
    keys_differ::<PrincipalRow, NameKey>(alloc, access.principals())
}

fn clients_differ(alloc: Global, access: &Access) -> Result<bool, OutOfMemory>
    ensures { IfOk result (λ named. named ≡ all_differ same_client access.now.rows.principals) }
{
    keys_differ::<PrincipalRow, ClientKey>(alloc, access.principals())
}

fn principal_roles_named(alloc: Global, access: &Access) -> Result<bool, OutOfMemory>
    ensures { IfOk result (λ named. named ≡ all_differ same_principal_role access.now.rows.principal_roles) }
{
    keys_differ::<PrincipalRoleRow, NameKey>(alloc, access.principal_roles())
}

fn catalog_roles_named(alloc: Global, access: &Access) -> Result<bool, OutOfMemory>
    ensures { IfOk result (λ named. named ≡ all_differ same_role_name access.now.rows.catalog_roles) }
{
    keys_differ::<CatalogRoleRow, NameKey>(alloc, access.catalog_roles())
}

/// Whether each member, join and grant stands once.
fn facts_differ(alloc: Global, access: &Access) -> Result<bool, OutOfMemory>
    ensures { IfOk result (λ apart. apart ≡ facts_differ access.now.rows) }
{
    if !members_differ(alloc, access)? {
        return Ok(false);
    }
    if !joins_differ(alloc, access)? {
        return Ok(false);
    }
    grants_differ(alloc, access)
}

fn members_differ(alloc: Global, access: &Access) -> Result<bool, OutOfMemory>
    ensures { IfOk result (λ apart. apart ≡ all_differ (same member.the_row.coded) access.now.rows.members) }
{
    fact_keys_differ::<MemberRow, MemberRow>(alloc, access.members())
}

fn joins_differ(alloc: Global, access: &Access) -> Result<bool, OutOfMemory>
    ensures { IfOk result (λ apart. apart ≡ all_differ (same join.the_row.coded) access.now.rows.joins) }
{
    fact_keys_differ::<JoinRow, JoinRow>(alloc, access.joins())
}

fn grants_differ(alloc: Global, access: &Access) -> Result<bool, OutOfMemory>
    ensures { IfOk result (λ apart. apart ≡ all_differ (same grant.the_row.coded) access.now.rows.grants) }
{
    fact_keys_differ::<GrantRow, GrantRow>(alloc, access.grants())
}

/// Whether what rows name is there, or was given out.
fn are_known(access: &Access, next_id: u64) -> bool
    ensures { result ≡ access_known next_id access.now.rows }
{
    principals_apart(access)
        && catalog_roles_known(access, next_id)
        && members_known(access)
        && joins_known(access)
        && grants_known(access, next_id)
}

fn principals_apart(access: &Access) -> bool
    ensures { result ≡ list_all (is_no_role access.now.rows) access.now.rows.principals }
{
    access.principals().all(|row| is_no_role(access, row))
}

fn is_no_role(access: &Access, row: &PrincipalRow) -> bool
    ensures { result ≡ is_no_role access.now.rows row.now }
{
    !knows_principal_role(access, row.id)
}

fn catalog_roles_known(access: &Access, next_id: u64) -> bool
    ensures { result ≡ list_all (is_catalog_role next_id access.now.rows) access.now.rows.catalog_roles }
{
    access
        .catalog_roles()
        .all(|row| is_catalog_role(access, next_id, row))
}

fn is_catalog_role(access: &Access, next_id: u64, row: &CatalogRoleRow) -> bool
    ensures { result ≡ is_catalog_role next_id access.now.rows row.now }
{
    !knows_principal(access, row.id)
        && !knows_principal_role(access, row.id)
        && is_given(next_id, row.catalog)
}

fn members_known(access: &Access) -> bool
    ensures { result ≡ list_all (is_member_there access.now.rows) access.now.rows.members }
{
    access.members().all(|row| is_member_there(access, row))
}

/// Whether the principal and the principal role of a member are there.
pub fn is_member_there(access: &Access, row: &MemberRow) -> bool
    ensures { result ≡ is_member_there access.now.rows row.now }
{
    knows_principal(access, row.principal) && knows_principal_role(access, row.role)
}

fn joins_known(access: &Access) -> bool
    ensures { result ≡ list_all (is_join_there access.now.rows) access.now.rows.joins }
{
    access.joins().all(|row| is_join_there(access, row))
}

/// Whether both roles of a join are there.
pub fn is_join_there(access: &Access, row: &JoinRow) -> bool
    ensures { result ≡ is_join_there access.now.rows row.now }
{
    knows_principal_role(access, row.principal_role) && knows_catalog_role(access, row.catalog_role)
}

fn grants_known(access: &Access, next_id: u64) -> bool
    ensures { result ≡ list_all (is_grant_there next_id access.now.rows) access.now.rows.grants }
{
    access
        .grants()
        .all(|row| is_grant_there(access, next_id, row))
}

/// Whether the role of a grant is there, and its privilege may be granted on its securable, whose id was given out.
pub fn is_grant_there(access: &Access, next_id: u64, row: &GrantRow) -> bool
    ensures { result ≡ is_grant_there next_id access.now.rows row.now }
{
    knows_catalog_role(access, row.catalog_role)
        && is_securable_given(next_id, row.securable)
        && grantable(row.privilege, row.securable.kind())
}

fn is_securable_given(next_id: u64, securable: Securable) -> bool
    ensures { result ≡ is_securable_given next_id securable }
{
    match securable {
        Securable::Realm => true,
        Securable::Catalog(id)
        | Securable::Namespace(id)
        | Securable::Table(id)
        | Securable::View(id) => is_given(next_id, id),
    }
}

/// Whether principal `root` is a member of principal role `service_admin`.
#[tactic(auto, unfolding(crate::specs::Judged::has_root_chain))]
fn has_root_chain(access: &Access) -> bool
    ensures { result ≡ has_root_chain access.now.rows }
{
    let Some(root) = root(access) else {
        return false;
    };
    match service_admin(access) {
        Some(admin) => access.is_member(root.id, admin.id),
        None => false,
    }
}

/// Principal `root`. It goes over the principals.
fn root(access: &Access) -> Option<&PrincipalRow>
    ensures { option_copied result ≡ principal_named (codes "root") access.now.rows }
{
    access.principals().find(|row| "root" == row.name.as_str())
}

/// Principal role `service_admin`. It goes over the principal roles.
pub fn service_admin(access: &Access) -> Option<&PrincipalRoleRow>
    ensures { option_copied result ≡ principal_role_named (codes "service_admin") access.now.rows }
{
    access
        .principal_roles()
        .find(|row| "service_admin" == row.name.as_str())
}
