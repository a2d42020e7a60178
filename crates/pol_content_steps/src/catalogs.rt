//! New catalogues, each with its role `catalog_admin`.
ghost use Rattle.std.specs.Prelude.{◌≡◌, ◌+◌, true, codes, is_none, length, nat_lt};
ghost use Rattle.std.specs.List.{fold};
ghost use Rattle.pol_access.specs.Names.{principal_role_named};
ghost use Rattle.pol_access_steps.specs.Counters.{counted, may_follow};
ghost use Rattle.pol_commands.specs.declared.reply.Quantity.TheVariants as quantity;
ghost use Rattle.pol_content.specs.Content.{catalog_named};
ghost use Rattle.pol_content_steps.specs.Catalogs.{are_grants_new, is_admin, is_admin_new, is_catalog_new, is_join_new, is_join_of, is_next, is_own_grant, may_create_catalog};
ghost use Rattle.pol_state.specs.Applied.{changed};
ghost use Rattle.pol_state.specs.Bounds.{bound_of};
ghost use Rattle.pol_state.specs.Sound.{IsSound};

use crate::taken::is_same;
use pol_access::{
    Access, CatalogRoleRow, GrantRow, JoinRow, PrincipalRoleRow, Privilege, Securable,
};
use pol_access_steps::{Counters, is_new_id, may_have_catalog_role};
use pol_commands::Quantity;
use pol_content::{CatalogRow, Change, Content};
use pol_names::Plain;
use pol_rules::catalog_rules::service_admin;
use pol_rules::rules::bound_of;
use pol_sound_bounds::catalog_fits;
use pol_state::State;

/// Whether the changes put a new catalogue, its role `catalog_admin`, the join of this to `service_admin`, and its two
/// grants, in this order. It scans no rows.
pub fn is_sound_catalog(state: &State, counters: Counters, changes: &[Change]) -> bool
    requires sound { IsSound state.now.rows }
    requires follows { may_follow state.now.rows counters ≡ true }
    ensures { result ≡ true → IsSound (fold changed (counted state.now.rows counters) changes.now) }
{
    match changes {
        [catalog, role, join, first, second] => {
            is_created(state, counters, catalog, role, join, first, second)
        }
        _ => false,
    }
}

fn is_created(
    state: &State,
    counters: Counters,
    catalog: &Change,
    role: &Change,
    join: &Change,
    first: &Change,
    second: &Change,
) -> bool
    requires sound { IsSound state.now.rows }
    requires follows { may_follow state.now.rows counters ≡ true }
    ensures { result ≡ true → IsSound (changed (changed (changed (changed (changed
        (counted state.now.rows counters) catalog.now) role.now) join.now) first.now) second.now) }
{
    let (
        Change::PutCatalog(catalog),
        Change::PutCatalogRole(role),
        Change::PutJoin(join),
        Change::PutGrant(first),
        Change::PutGrant(second),
    ) = (catalog, role, join, first, second) else {
        return false;
    };
    may_create_catalog(state, counters, catalog.row(), role, join, first, second)
}

/// Whether the catalogue may be put, with its `catalog_admin`, the join and the grants of this.
fn may_create_catalog(
    state: &State,
    counters: Counters,
    row: &CatalogRow,
    role: &CatalogRoleRow,
    join: &JoinRow,
    first: &GrantRow,
    second: &GrantRow,
) -> bool
    requires { IsSound state.now.rows }
    ensures { result
        ≡ may_create_catalog state.now.rows counters row.now role.now join.now first.now second.now }
{
    is_catalog_new(state, counters, row)
        && is_admin_new(state, counters, row.id, role)
        && is_join_new(state, role.id, join)
        && are_grants_new(state, role, first, second)
}

/// Whether the catalogue has a new id and a free name, and there may be one more. It scans no rows.
fn is_catalog_new(state: &State, counters: Counters, row: &CatalogRow) -> bool
    requires { IsSound state.now.rows }
    ensures { result ≡ is_catalog_new state.now.rows counters row.now }
{
    is_new_id(state, counters, row.id)
        && lacks_catalog(state, &row.name)
        && may_have_catalog(state.content())
        && catalog_fits(row)
}

/// Whether no catalogue has the name.
fn lacks_catalog(state: &State, name: &Plain) -> bool
    requires { IsSound state.now.rows }
    ensures { result ≡ is_none (catalog_named name.now state.now.rows.content) }
{
    state.content().catalogue(name).is_none()
}

/// Whether there may be one more catalogue.
fn may_have_catalog(content: &Content) -> bool
    ensures { result ≡ nat_lt (length content.now.rows.catalogs) (bound_of quantity.Catalogs) }
{
    (content.catalogs().len() as u64) < bound_of(Quantity::Catalogs)
}

/// Whether the role is the catalogue's `catalog_admin` and has a new id, and there may be one more.
fn is_admin_new(state: &State, counters: Counters, catalog: u64, role: &CatalogRoleRow) -> bool
    ensures { result ≡ is_admin_new state.now.rows counters catalog role.now }
{
    is_new_id(state, counters, role.id)
        && is_admin(catalog, role)
        && may_have_catalog_role(state.access())
}

fn is_admin(catalog: u64, role: &CatalogRoleRow) -> bool
    ensures { result ≡ is_admin catalog role.now }
{
    is_next(catalog, role.id) && role.catalog == catalog && "catalog_admin" == role.name.as_str()
}

/// Whether the second id is the one after the first.
fn is_next(id: u64, next: u64) -> bool
    ensures { result ≡ is_next id next }
{
    id < next && next - id == 1
}

/// Whether the join is that of `service_admin` to the catalogue role, and there may be one more.
fn is_join_new(state: &State, role: u64, row: &JoinRow) -> bool
    requires { IsSound state.now.rows }
    ensures { result ≡ is_join_new state.now.rows role row.now }
{
    joins_service(state, role, row) && may_have_join(state.access())
}

fn joins_service(state: &State, role: u64, row: &JoinRow) -> bool
    requires { IsSound state.now.rows }
    ensures { result
        ≡ is_join_of (principal_role_named (codes "service_admin") state.now.rows.access) role row.now }
{
    let service: &PrincipalRoleRow = service_admin(state);
    row.principal_role == service.id && row.catalog_role == role
}

/// Whether there may be one more join.
fn may_have_join(access: &Access) -> bool
    ensures { result ≡ nat_lt (length access.now.rows.joins) (bound_of quantity.Joins) }
{
    (access.joins().len() as u64) < bound_of(Quantity::Joins)
}

/// Whether the grants are those of a `catalog_admin` on its catalogue, and there may be two more.
fn are_grants_new(state: &State, role: &CatalogRoleRow, first: &GrantRow, second: &GrantRow) -> bool
    ensures { result ≡ are_grants_new state.now.rows role.now first.now second.now }
{
    is_own_grant(Privilege::CatalogManageAccess, role, first)
        && is_own_grant(Privilege::CatalogManageContent, role, second)
        && may_have_grants(state.access())
}

/// Whether the grant is that of the privilege on its own catalogue to the role.
fn is_own_grant(privilege: Privilege, role: &CatalogRoleRow, row: &GrantRow) -> bool
    ensures { result ≡ is_own_grant privilege role.now row.now }
{
    let own = GrantRow {
        catalog_role: role.id,
        privilege,
        securable: Securable::Catalog(role.catalog),
    };
    is_same(row, &own)
}

/// Whether there may be two more grants.
fn may_have_grants(access: &Access) -> bool
    ensures { result ≡ nat_lt (length access.now.rows.grants + 1) (bound_of quantity.Grants) }
{
    (access.grants().len() as u64) < bound_of(Quantity::Grants) - 1
}
