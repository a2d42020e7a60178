//! Rows that changes take away, with what names them.
ghost use Rattle.std.specs.Prelude.{◌≡◌, true, codes};
ghost use Rattle.std.specs.List.{fold, list_all};
ghost use Rattle.std.specs.Option.{option_map};
ghost use Rattle.pol_access.specs.Access.{catalog_role_id, catalog_role_name, principal_id, principal_name, principal_role_id, principal_role_name};
ghost use Rattle.pol_content_steps.specs.Drops.{has_other_name, is_alone, may_drop_catalog, may_drop_catalog_role, may_drop_namespace, may_drop_principal, may_drop_principal_role, may_drop_table, may_drop_view};
ghost use Rattle.pol_access_steps.specs.Counters.{counted, may_follow};
ghost use Rattle.pol_content.specs.declared.change.Change.TheVariants.{DropCatalog};
ghost use Rattle.pol_state.specs.Applied.{changed};
ghost use Rattle.pol_state.specs.Sound.{IsSound};
ghost use Rattle.pol_tables.specs.Table.{row_of};

use crate::taken::takes_along;
use pol_access::{Access, CatalogRoleRow, Referent, Securable};
use pol_access_steps::Counters;
use pol_content::Change;
use pol_state::State;

/// The most changes that are judged as a drop. Each is compared with all behind it, and where that is not enough each
/// fact that names the row is sought among them, so that for more it is as well to judge the whole state.
const MOST_CHANGES: usize = 256;

/// Whether the first change takes a row away, and the others, which are few, the members, joins and grants that name
/// it.
pub fn is_sound_drop(state: &State, counters: Counters, changes: &[Change]) -> bool
    requires sound { IsSound state.now.rows }
    requires follows { may_follow state.now.rows counters ≡ true }
    ensures { result ≡ true → IsSound (fold changed (counted state.now.rows counters) changes.now) }
{
    if changes.len() > MOST_CHANGES {
        return false;
    }
    match changes.split_first() {
        Some((first, rest)) => may_drop(state, counters, first, rest),
        None => false,
    }
}

fn may_drop(state: &State, counters: Counters, first: &Change, rest: &[Change]) -> bool
    requires sound { IsSound state.now.rows }
    requires follows { may_follow state.now.rows counters ≡ true }
    ensures { result ≡ true
        → IsSound (fold changed (changed (counted state.now.rows counters) first.now) rest.now) }
{
    match first {
        Change::DropTable(id) => may_drop_table(state, *id, rest),
        Change::DropView(id) => may_drop_view(state, *id, rest),
        Change::DropNamespace(id) => may_drop_namespace(state, *id, rest),
        Change::DropPrincipal(id) => may_drop_principal(state, *id, rest),
        Change::DropPrincipalRole(id) => may_drop_principal_role(state, *id, rest),
        Change::DropCatalogRole(id) => may_drop_catalog_role(state, *id, rest),
        Change::DropCatalog(id) => may_drop_catalog(state, counters, *id, rest),
        _ => false,
    }
}

/// Whether the changes drop what names the table.
fn may_drop_table(state: &State, id: u64, rest: &[Change]) -> bool
    ensures { result ≡ may_drop_table state.now.rows id rest.now }
{
    takes_along(
        state.access(),
        Referent::Securable(Securable::Table(id)),
        rest,
    )
}

/// Whether the changes drop what names the view.
fn may_drop_view(state: &State, id: u64, rest: &[Change]) -> bool
    ensures { result ≡ may_drop_view state.now.rows id rest.now }
{
    takes_along(
        state.access(),
        Referent::Securable(Securable::View(id)),
        rest,
    )
}

/// Whether the namespace holds nothing, and the changes drop what names it.
fn may_drop_namespace(state: &State, id: u64, rest: &[Change]) -> bool
    ensures { result ≡ may_drop_namespace state.now.rows id rest.now }
{
    state.content().is_empty(id)
        && takes_along(
            state.access(),
            Referent::Securable(Securable::Namespace(id)),
            rest,
        )
}

/// Whether the principal is there, isn't `root`, and the changes drop what names it.
fn may_drop_principal(state: &State, id: u64, rest: &[Change]) -> bool
    ensures { result ≡ may_drop_principal state.now.rows id rest.now }
{
    is_other_than_root(state.access(), id)
        && takes_along(state.access(), Referent::Principal(id), rest)
}

/// Whether the principal role is there, isn't `service_admin`, and the changes drop what names it.
fn may_drop_principal_role(state: &State, id: u64, rest: &[Change]) -> bool
    ensures { result ≡ may_drop_principal_role state.now.rows id rest.now }
{
    is_other_than_service_admin(state.access(), id)
        && takes_along(state.access(), Referent::PrincipalRole(id), rest)
}

/// Whether the catalogue role is there, isn't a `catalog_admin`, and the changes drop what names it.
fn may_drop_catalog_role(state: &State, id: u64, rest: &[Change]) -> bool
    ensures { result ≡ may_drop_catalog_role state.now.rows id rest.now }
{
    is_other_than_catalog_admin(state.access(), id)
        && takes_along(state.access(), Referent::CatalogRole(id), rest)
}

/// Whether the changes drop the one role of the catalogue, which holds nothing, and then what names the role.
fn may_drop_catalog(state: &State, counters: Counters, id: u64, rest: &[Change]) -> bool
    requires sound { IsSound state.now.rows }
    requires follows { may_follow state.now.rows counters ≡ true }
    ensures { result ≡ true
        → IsSound (fold changed (changed (counted state.now.rows counters) (DropCatalog id)) rest.now) }
{
    let Some((first, rest)) = rest.split_first() else {
        return false;
    };
    match first {
        Change::DropCatalogRole(only) => may_drop_with_role(state, id, *only, rest),
        _ => false,
    }
}

/// Whether the catalogue holds nothing, the role is its only one, and the changes drop what names the role. It goes
/// over namespaces and catalogue roles.
fn may_drop_with_role(state: &State, id: u64, only: u64, rest: &[Change]) -> bool
    ensures { result ≡ may_drop_catalog state.now.rows id only rest.now }
{
    state.content().catalog_is_empty(id)
        && has_one_role(state.access(), id, only)
        && takes_along(state.access(), Referent::RoleOfCatalog(id), rest)
}

/// Whether the catalogue has the role of this id, and no other.
fn has_one_role(access: &Access, catalog: u64, only: u64) -> bool
    ensures { result ≡ list_all (is_alone catalog only) access.now.rows.catalog_roles }
{
    access
        .catalog_roles()
        .all(|role| is_alone(catalog, only, role))
}

fn is_alone(catalog: u64, only: u64, role: &CatalogRoleRow) -> bool
    ensures { result ≡ is_alone catalog only role.now }
{
    if only == role.id {
        role.catalog == catalog
    } else {
        role.catalog != catalog
    }
}

/// Whether there is a principal of this id, which isn't `root`.
fn is_other_than_root(access: &Access, id: u64) -> bool
    ensures { result ≡ has_other_name (codes "root")
        (option_map principal_name (row_of principal_id id access.now.rows.principals)) }
{
    match access.principal(id) {
        Some(row) => "root" != row.name.as_str(),
        None => false,
    }
}

/// Whether there is a principal role of this id, which isn't `service_admin`.
fn is_other_than_service_admin(access: &Access, id: u64) -> bool
    ensures { result ≡ has_other_name (codes "service_admin")
        (option_map principal_role_name (row_of principal_role_id id access.now.rows.principal_roles)) }
{
    match access.principal_role(id) {
        Some(row) => "service_admin" != row.name.as_str(),
        None => false,
    }
}

/// Whether there is a catalogue role of this id, which isn't a `catalog_admin`.
fn is_other_than_catalog_admin(access: &Access, id: u64) -> bool
    ensures { result ≡ has_other_name (codes "catalog_admin")
        (option_map catalog_role_name (row_of catalog_role_id id access.now.rows.catalog_roles)) }
{
    match access.catalog_role(id) {
        Some(row) => "catalog_admin" != row.name.as_str(),
        None => false,
    }
}
