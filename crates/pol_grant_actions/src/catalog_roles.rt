ghost use Rattle.std.specs.Prelude.{◌≡◌, ◌≤◌, ◌^◌, map, Some, IfOk};
ghost use Rattle.pol_access.specs.Access.{catalog_role_id};
ghost use Rattle.pol_tables.specs.Table.{row_of};
ghost use Rattle.pol_grant_actions.specs.CatalogRoles.{create_catalog_role, drop_catalog_role, get_catalog_role, list_catalog_roles, roles_in, with_catalog_role, without_catalog_role};
ghost use Rattle.pol_rules.specs.Judged.{Acts, changes_to};
ghost use Rattle.pol_state.specs.Sound.{IsSound};
ghost use Rattle.pol_commands.specs.declared.reply.Answer.TheVariants.{RoleCreated, RoleDropped};

use pol_access::{CatalogRoleRow, Referent};
use pol_commands::Answer;
use pol_content::{CatalogRow, Change};
use pol_names::Plain;
use pol_rules::access_rules::{catalog_role_free, catalog_role_there, unreserved};
use pol_rules::catalog_rules::CATALOG_ADMIN;
use pol_rules::changes::under_next_id;
use pol_rules::drops::{push_grants, push_joins};
use pol_rules::prologues::in_catalog;
use pol_rules::rules::{Acted, Asked, Undone, time_of, unchanged};
use pol_types::{Listed, OutOfMemory};
use std::alloc::Global;

/// Lists the roles of a catalogue.
#[tactic(auto, using(pol_rules::proofs::ProloguesLemmas::in_catalog_stops, pol_rules::proofs::LeadsLemmas::no_changes))]
pub fn list_catalog_roles(asked: &Asked<'_>, catalog: &Plain) -> Result<Acted, Undone>
    requires { IsSound asked.now.state.now.rows }
    ensures { Acts asked.now (λ s command. list_catalog_roles s command catalog.now) result }
{
    let row = in_catalog(asked, catalog)?;
    let roles = roles_in(asked, row)?;
    Ok(unchanged(asked.alloc, Answer::RolesListed(roles)))
}

/// The names of a catalogue's roles, in byte order.
#[tactic(auto, using(crate::proofs::NamesLemmas::catalog_role_names_shown))]
fn roles_in(asked: &Asked<'_>, catalog: &CatalogRow) -> Result<Listed<Plain>, OutOfMemory>
    ensures { IfOk result (λ roles. roles ≡ roles_in asked.now.state.now.rows catalog.now) }
{
    let access = asked.state.access();
    let rows = access.roles_of_catalog(asked.alloc, catalog.id)?;
    names_of(asked.alloc, rows.as_slice())
}

/// The names of catalogue roles, in their order.
pub(crate) fn names_of(
    alloc: Global,
    rows: &[&CatalogRoleRow],
) -> Result<Listed<Plain>, OutOfMemory>
    ensures { IfOk result (λ names. names ≡ map (λ row. row.now.name) rows.now) }
{
    let mut names = Vec::new(alloc);
    for row in rows {
        names.push(row.name.clone()?)?;
    }
    Ok(Listed::from(names))
}

/// Creates a role of a catalogue.
#[tactic(auto, using(pol_rules::proofs::ProloguesLemmas::in_catalog_stops, pol_state::proofs::BoundsLemmas::next_id_bound))]
pub fn create_catalog_role(
    asked: &Asked<'_>,
    catalog: &Plain,
    name: &Plain,
) -> Result<Acted, Undone>
    requires { IsSound asked.now.state.now.rows }
    ensures { Acts asked.now (λ s command. create_catalog_role s command catalog.now name.now) result }
{
    let owner = in_catalog(asked, catalog)?;
    catalog_role_free(asked, owner, name)?;
    let row = CatalogRoleRow {
        id: asked.state.next_id(),
        catalog: owner.id,
        name: name.clone()?,
    };
    Ok(created(asked, row)?)
}

/// The catalogue role is put, and an id is taken.
#[tactic(auto, using(crate::proofs::ChangesLemmas::catalog_role_changes))]
fn created(asked: &Asked<'_>, row: CatalogRoleRow) -> Result<Acted, OutOfMemory>
    requires sound { IsSound asked.now.state.now.rows }
    requires id { row.id ≡ asked.now.state.now.rows.next_id }
    requires within { asked.now.state.now.rows.next_id ≤ 2 ^ 62 }
    ensures answer { IfOk result (λ acted. acted.answer ≡ RoleCreated) }
    ensures changes { IfOk result (λ acted. acted.changes ≡ changes_to asked.now (λ s. with_catalog_role s row)) }
{
    let changes = under_next_id(asked, Change::PutCatalogRole(row))?;
    Ok(Acted {
        answer: Answer::RoleCreated,
        changes,
    })
}

/// Shows a role of a catalogue.
#[tactic(auto, using(pol_rules::proofs::ProloguesLemmas::in_catalog_stops, pol_rules::proofs::LeadsLemmas::no_changes))]
pub fn get_catalog_role(asked: &Asked<'_>, catalog: &Plain, name: &Plain) -> Result<Acted, Undone>
    requires { IsSound asked.now.state.now.rows }
    ensures { Acts asked.now (λ s command. get_catalog_role s command catalog.now name.now) result }
{
    let owner = in_catalog(asked, catalog)?;
    catalog_role_there(asked, owner, name)?;
    let name = name.clone()?;
    Ok(unchanged(asked.alloc, Answer::RoleLoaded { name }))
}

/// Drops a role of a catalogue.
#[tactic(auto, using(pol_rules::proofs::ProloguesLemmas::in_catalog_stops))]
pub fn drop_catalog_role(asked: &Asked<'_>, catalog: &Plain, name: &Plain) -> Result<Acted, Undone>
    requires { IsSound asked.now.state.now.rows }
    ensures { Acts asked.now (λ s command. drop_catalog_role s command catalog.now name.now) result }
{
    let owner = in_catalog(asked, catalog)?;
    let row = catalog_role_there(asked, owner, name)?;
    unreserved(asked.alloc, CATALOG_ADMIN, name)?;
    Ok(dropped(asked, row)?)
}

/// The catalogue role is taken away, with its joins and its grants.
fn dropped(asked: &Asked<'_>, row: &CatalogRoleRow) -> Result<Acted, OutOfMemory>
    requires sound { IsSound asked.now.state.now.rows }
    requires there { row_of catalog_role_id row.now.id asked.now.state.now.rows.access.catalog_roles ≡ Some row.now }
    ensures answer { IfOk result (λ acted. acted.answer ≡ RoleDropped) }
    ensures changes { IfOk result (λ acted. acted.changes
        ≡ changes_to asked.now (λ s. without_catalog_role s row.now)) }
{
    let mut changes = vec![in asked.alloc;
        Change::Time(time_of(asked)),
        Change::DropCatalogRole(row.id),
    ]?;
    push_joins(asked, Referent::CatalogRole(row.id), &mut changes)?;
    push_grants(asked, Referent::CatalogRole(row.id), &mut changes)?;
    Ok(Acted {
        answer: Answer::RoleDropped,
        changes: Listed::from(changes),
    })
}
