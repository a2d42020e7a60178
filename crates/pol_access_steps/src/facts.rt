//! Members, joins and grants that are put or dropped.
ghost use Rattle.std.specs.Prelude.{◌≡◌, true, codes, option_copied};
ghost use Rattle.pol_access.specs.Names.{has_name, has_role_name};
ghost use Rattle.pol_access.specs.contracts.rows.GrantRow as grant;
ghost use Rattle.pol_access.specs.contracts.rows.JoinRow as join;
ghost use Rattle.pol_access.specs.contracts.rows.MemberRow as member;
ghost use Rattle.pol_access.specs.declared.securable.Securable.TheVariants as securable;
ghost use Rattle.pol_commands.specs.declared.reply.Quantity.TheVariants as quantity;
ghost use Rattle.pol_sound_access.specs.Judged.{is_grant_there, is_join_there, is_member_there};
ghost use Rattle.pol_access_steps.specs.Facts.{has_place, is_catalog_admin, is_managing, is_other_grant, is_other_join, is_other_member, may_drop_grant, may_drop_join, may_drop_member, may_put_grant, may_put_join, may_put_member};
ghost use Rattle.pol_access_steps.specs.Counters.{counted, may_follow};
ghost use Rattle.pol_soundness.specs.Judged.{is_within};
ghost use Rattle.pol_state.specs.Applied.{changed};
ghost use Rattle.pol_state.specs.Sound.{IsSound};

use crate::counters::Counters;
use pol_access::{
    Access, CatalogRoleRow, GrantRow, JoinRow, MemberRow, PrincipalRoleRow, PrincipalRow,
    Privilege, Securable, grantable,
};
use pol_commands::Quantity;
use pol_content::Change;
use pol_rules::rules::bound_of;
use pol_sound_access::{is_grant_there, is_join_there, is_member_there};
use pol_soundness::is_within;
use pol_state::State;

/// Whether the change puts or drops a member, a join or a grant, and may do so.
pub fn is_sound_fact(state: &State, counters: Counters, change: &Change) -> bool
    requires sound { IsSound state.now.rows }
    requires follows { may_follow state.now.rows counters ≡ true }
    ensures { result ≡ true → IsSound (changed (counted state.now.rows counters) change.now) }
{
    match change {
        Change::PutMember(row) => may_put_member(state, row),
        Change::DropMember(row) => may_drop_member(state, row),
        Change::PutJoin(row) => may_put_join(state, row),
        Change::DropJoin(row) => may_drop_join(state, row),
        Change::PutGrant(row) => may_put_grant(state, counters, row),
        Change::DropGrant(row) => may_drop_grant(state, row),
        _ => false,
    }
}

/// Whether the member's principal and role are there, and there may be one more, where it isn't there yet.
fn may_put_member(state: &State, row: &MemberRow) -> bool
    ensures { result ≡ may_put_member state.now.rows row.now }
{
    is_member_there(state.access(), row) && has_place_as_member(state.access(), row)
}

fn has_place_as_member(access: &Access, row: &MemberRow) -> bool
    ensures { result ≡ has_place member.the_row.coded quantity.Members row.now access.now.rows.members }
{
    access.is_member(row.principal, row.role)
        || (access.members().len() as u64) < bound_of(Quantity::Members)
}

/// Whether the join's roles are there, and there may be one more, where it isn't there yet.
fn may_put_join(state: &State, row: &JoinRow) -> bool
    ensures { result ≡ may_put_join state.now.rows row.now }
{
    is_join_there(state.access(), row) && has_place_as_join(state.access(), row)
}

fn has_place_as_join(access: &Access, row: &JoinRow) -> bool
    ensures { result ≡ has_place join.the_row.coded quantity.Joins row.now access.now.rows.joins }
{
    access.is_joined(row.principal_role, row.catalog_role)
        || (access.joins().len() as u64) < bound_of(Quantity::Joins)
}

/// Whether the grant's role is there, its privilege may be granted on its securable, which lies in the role's
/// catalogue, and there may be one more, where it isn't there yet.
fn may_put_grant(state: &State, counters: Counters, row: &GrantRow) -> bool
    ensures { result ≡ may_put_grant state.now.rows counters row.now }
{
    is_grant_there(state.access(), counters.next_id, row)
        && is_within(state.access(), state.content(), row)
        && has_place_as_grant(state.access(), row)
}

fn has_place_as_grant(access: &Access, row: &GrantRow) -> bool
    ensures { result ≡ has_place grant.the_row.coded quantity.Grants row.now access.now.rows.grants }
{
    access.has_grant(row) || (access.grants().len() as u64) < bound_of(Quantity::Grants)
}

/// Whether the member's principal and role are there, and it isn't `root` in `service_admin`.
fn may_drop_member(state: &State, row: &MemberRow) -> bool
    ensures { result ≡ may_drop_member state.now.rows row.now }
{
    let access = state.access();
    is_other_member(
        access.principal(row.principal),
        access.principal_role(row.role),
    )
}

fn is_other_member(principal: Option<&PrincipalRow>, role: Option<&PrincipalRoleRow>) -> bool
    ensures { result ≡ is_other_member (option_copied principal.entry) (option_copied role.entry) }
{
    let Some(principal) = principal else {
        return false;
    };
    match role {
        Some(role) => !(is_root(principal) && is_service_admin(role)),
        None => false,
    }
}

fn is_root(row: &PrincipalRow) -> bool
    ensures { result ≡ has_name (codes "root") row.now }
{
    "root" == row.name.as_str()
}

fn is_service_admin(row: &PrincipalRoleRow) -> bool
    ensures { result ≡ has_role_name (codes "service_admin") row.now }
{
    "service_admin" == row.name.as_str()
}

/// Whether the join's roles are there, and they aren't `service_admin` and a `catalog_admin`.
fn may_drop_join(state: &State, row: &JoinRow) -> bool
    ensures { result ≡ may_drop_join state.now.rows row.now }
{
    let access = state.access();
    is_other_join(
        access.principal_role(row.principal_role),
        access.catalog_role(row.catalog_role),
    )
}

fn is_other_join(role: Option<&PrincipalRoleRow>, catalog_role: Option<&CatalogRoleRow>) -> bool
    ensures { result ≡ is_other_join (option_copied role.entry) (option_copied catalog_role.entry) }
{
    let Some(role) = role else {
        return false;
    };
    match catalog_role {
        Some(catalog_role) => !(is_service_admin(role) && is_catalog_admin(catalog_role)),
        None => false,
    }
}

fn is_catalog_admin(row: &CatalogRoleRow) -> bool
    ensures { result ≡ is_catalog_admin row.now }
{
    "catalog_admin" == row.name.as_str()
}

/// Whether the grant's role is there, and it isn't one of the two privileges that a `catalog_admin` has of its
/// catalogue.
fn may_drop_grant(state: &State, row: &GrantRow) -> bool
    ensures { result ≡ may_drop_grant state.now.rows row.now }
{
    let access = state.access();
    is_other_grant(row.privilege, access.catalog_role(row.catalog_role))
}

fn is_other_grant(privilege: Privilege, role: Option<&CatalogRoleRow>) -> bool
    ensures { result ≡ is_other_grant privilege (option_copied role.entry) }
{
    match role {
        Some(role) => !(is_catalog_admin(role) && is_managing(privilege)),
        None => false,
    }
}

fn is_managing(privilege: Privilege) -> bool
    ensures { result ≡ is_managing privilege }
{
    privilege == Privilege::CatalogManageAccess || privilege == Privilege::CatalogManageContent
}
