//! Principals and roles: new ones, and ones in the place of their own rows.
ghost use Rattle.std.specs.Prelude.{◌≡◌, true, is_none, length, nat_lt};
ghost use Rattle.pol_access.specs.Names.{catalog_role_named, principal_named, principal_of_client, principal_role_named};
ghost use Rattle.pol_commands.specs.declared.reply.Quantity.TheVariants as quantity;
ghost use Rattle.pol_access_steps.specs.Holders.{is_catalog_role_new, is_principal_new, is_role_new, keeps_catalog, keeps_names, may_put_catalog_role, may_put_principal, may_put_role};
ghost use Rattle.pol_access_steps.specs.Counters.{counted, may_follow};
ghost use Rattle.pol_state.specs.Applied.{changed};
ghost use Rattle.pol_state.specs.Bounds.{bound_of};
ghost use Rattle.pol_state.specs.Sound.{IsSound};

use crate::counters::{Counters, is_new_id};
use pol_access::{Access, CatalogRoleRow, PrincipalRoleRow, PrincipalRow};
use pol_commands::Quantity;
use pol_content::Change;
use pol_rules::rules::bound_of;
use pol_sound_content::knows_catalog;
use pol_state::State;

/// Whether the change puts a principal or a role, new or in the place of its own row, which the state stays sound with.
pub fn is_sound_holder(state: &State, counters: Counters, change: &Change) -> bool
    requires sound { IsSound state.now.rows }
    requires follows { may_follow state.now.rows counters ≡ true }
    ensures { result ≡ true → IsSound (changed (counted state.now.rows counters) change.now) }
{
    match change {
        Change::PutPrincipal(row) => may_put_principal(state, counters, row.row()),
        Change::PutPrincipalRole(row) => may_put_role(state, counters, row),
        Change::PutCatalogRole(row) => may_put_catalog_role(state, counters, row),
        _ => false,
    }
}

/// Whether the principal may be put, beside the others or in the place of its own row. It scans no rows.
fn may_put_principal(state: &State, counters: Counters, row: &PrincipalRow) -> bool
    requires { IsSound state.now.rows }
    ensures { result ≡ may_put_principal state.now.rows counters row.now }
{
    match state.access().principal(row.id) {
        Some(old) => keeps_names(old, row),
        None => is_principal_new(state, counters, row),
    }
}

fn keeps_names(old: &PrincipalRow, row: &PrincipalRow) -> bool
    ensures { result ≡ keeps_names old.now row.now }
{
    row.name == old.name && row.client_id == old.client_id
}

fn is_principal_new(state: &State, counters: Counters, row: &PrincipalRow) -> bool
    requires { IsSound state.now.rows }
    ensures { result ≡ is_principal_new state.now.rows counters row.now }
{
    is_new_id(state, counters, row.id)
        && lacks_principal(state, row)
        && lacks_client(state, row)
        && may_have_principal(state.access())
}

/// Whether no principal has the name.
fn lacks_principal(state: &State, row: &PrincipalRow) -> bool
    requires { IsSound state.now.rows }
    ensures { result ≡ is_none (principal_named row.now.name state.now.rows.access) }
{
    state.access().principal_named(row.name.as_str()).is_none()
}

/// Whether no principal has the client id.
fn lacks_client(state: &State, row: &PrincipalRow) -> bool
    requires { IsSound state.now.rows }
    ensures { result ≡ is_none (principal_of_client row.now.client_id state.now.rows.access) }
{
    state
        .access()
        .principal_of_client(row.client_id.as_str())
        .is_none()
}

/// Whether there may be one more principal.
fn may_have_principal(access: &Access) -> bool
    ensures { result ≡ nat_lt (length access.now.rows.principals) (bound_of quantity.Principals) }
{
    (access.principals().len() as u64) < bound_of(Quantity::Principals)
}

/// Whether the principal role may be put, beside the others or in the place of its own row. It scans no rows.
fn may_put_role(state: &State, counters: Counters, row: &PrincipalRoleRow) -> bool
    requires { IsSound state.now.rows }
    ensures { result ≡ may_put_role state.now.rows counters row.now }
{
    match state.access().principal_role(row.id) {
        Some(old) => row.name == old.name,
        None => is_role_new(state, counters, row),
    }
}

fn is_role_new(state: &State, counters: Counters, row: &PrincipalRoleRow) -> bool
    requires { IsSound state.now.rows }
    ensures { result ≡ is_role_new state.now.rows counters row.now }
{
    is_new_id(state, counters, row.id) && lacks_role(state, row) && may_have_role(state.access())
}

/// Whether no principal role has the name.
fn lacks_role(state: &State, row: &PrincipalRoleRow) -> bool
    requires { IsSound state.now.rows }
    ensures { result ≡ is_none (principal_role_named row.now.name state.now.rows.access) }
{
    state
        .access()
        .principal_role_named(row.name.as_str())
        .is_none()
}

/// Whether there may be one more principal role.
fn may_have_role(access: &Access) -> bool
    ensures { result ≡ nat_lt (length access.now.rows.principal_roles)
        (bound_of quantity.PrincipalRoles) }
{
    (access.principal_roles().len() as u64) < bound_of(Quantity::PrincipalRoles)
}

/// Whether the catalogue role may be put, beside the others or in the place of its own row. It scans no rows.
fn may_put_catalog_role(state: &State, counters: Counters, row: &CatalogRoleRow) -> bool
    requires { IsSound state.now.rows }
    ensures { result ≡ may_put_catalog_role state.now.rows counters row.now }
{
    match state.access().catalog_role(row.id) {
        Some(old) => keeps_catalog(old, row),
        None => is_catalog_role_new(state, counters, row),
    }
}

fn keeps_catalog(old: &CatalogRoleRow, row: &CatalogRoleRow) -> bool
    ensures { result ≡ keeps_catalog old.now row.now }
{
    row.catalog == old.catalog && row.name == old.name
}

fn is_catalog_role_new(state: &State, counters: Counters, row: &CatalogRoleRow) -> bool
    requires { IsSound state.now.rows }
    ensures { result ≡ is_catalog_role_new state.now.rows counters row.now }
{
    is_new_id(state, counters, row.id)
        && knows_catalog(state.content(), row.catalog)
        && lacks_catalog_role(state, row)
        && may_have_catalog_role(state.access())
}

/// Whether the catalogue has no role of the name.
fn lacks_catalog_role(state: &State, row: &CatalogRoleRow) -> bool
    requires { IsSound state.now.rows }
    ensures { result ≡ is_none (catalog_role_named row.now.catalog row.now.name state.now.rows.access) }
{
    state
        .access()
        .catalog_role_named(row.catalog, row.name.as_str())
        .is_none()
}

/// Whether there may be one more catalogue role.
pub fn may_have_catalog_role(access: &Access) -> bool
    ensures { result ≡ nat_lt (length access.now.rows.catalog_roles)
        (bound_of quantity.CatalogRoles) }
{
    (access.catalog_roles().len() as u64) < bound_of(Quantity::CatalogRoles)
}
