ghost use Rattle.std.specs.Prelude.{◌≡◌, IfOk};
ghost use Rattle.pol_grant_actions.specs.Joins.{add_join, end_join, list_joins, roles_joined, with_join};
ghost use Rattle.pol_rules.specs.Judged.{Acts, changes_to};
ghost use Rattle.pol_state.specs.Sound.{IsSound};

use crate::catalog_roles::names_of;
use pol_access::{JoinRow, PrincipalRoleRow};
use pol_commands::Answer;
use pol_content::{CatalogRow, Change};
use pol_names::Plain;
use pol_rules::access_rules::{catalog_role_there, join_may_end, join_there, principal_role_there};
use pol_rules::changes::{no_changes, one_change};
use pol_rules::prologues::in_catalog;
use pol_rules::rules::{Acted, Asked, Undone, unchanged};
use pol_types::{Listed, OutOfMemory};

/// Lists the roles of a catalogue to which a principal role is joined.
#[tactic(auto, using(pol_rules::proofs::ProloguesLemmas::in_catalog_stops, pol_rules::proofs::LeadsLemmas::no_changes))]
pub fn list_joins(asked: &Asked<'_>, catalog: &Plain, role: &Plain) -> Result<Acted, Undone>
    requires { IsSound asked.now.state.now.rows }
    ensures { Acts asked.now (λ s command. list_joins s command catalog.now role.now) result }
{
    let owner = in_catalog(asked, catalog)?;
    let row = principal_role_there(asked, role)?;
    let roles = roles_joined(asked, row, owner)?;
    Ok(unchanged(asked.alloc, Answer::RolesListed(roles)))
}

/// The names of a catalogue's roles to which a principal role is joined, in byte order.
#[tactic(auto, using(crate::proofs::NamesLemmas::catalog_role_names_shown))]
fn roles_joined(
    asked: &Asked<'_>,
    role: &PrincipalRoleRow,
    catalog: &CatalogRow,
) -> Result<Listed<Plain>, OutOfMemory>
    ensures { IfOk result (λ roles. roles ≡ roles_joined asked.now.state.now.rows role.now catalog.now) }
{
    let access = asked.state.access();
    let rows = access.joined_roles(asked.alloc, role.id, catalog.id)?;
    names_of(asked.alloc, rows.as_slice())
}

/// Joins a principal role to a role of a catalogue.
#[tactic(auto, using(pol_rules::proofs::ProloguesLemmas::in_catalog_stops), unfolding(pol_rules::specs::AccessRules::join_of))]
pub fn add_join(
    asked: &Asked<'_>,
    catalog: &Plain,
    role: &Plain,
    catalog_role: &Plain,
) -> Result<Acted, Undone>
    requires { IsSound asked.now.state.now.rows }
    ensures { Acts asked.now (λ s command. add_join s command catalog.now role.now catalog_role.now) result }
{
    let owner = in_catalog(asked, catalog)?;
    let group = principal_role_there(asked, role)?;
    let target = catalog_role_there(asked, owner, catalog_role)?;
    let row = JoinRow {
        principal_role: group.id,
        catalog_role: target.id,
    };
    let changes = added(asked, row)?;
    Ok(Acted {
        answer: Answer::JoinAdded,
        changes,
    })
}

/// The changes by which a join is put: none where it is there.
#[tactic(auto, using(crate::proofs::ChangesLemmas::known_join_changes, crate::proofs::ChangesLemmas::new_join_changes))]
fn added(asked: &Asked<'_>, row: JoinRow) -> Result<Listed<Change>, OutOfMemory>
    ensures { IfOk result (λ changes. changes ≡ changes_to asked.now (λ s. with_join s row)) }
{
    let access = asked.state.access();
    if access.is_joined(row.principal_role, row.catalog_role) {
        return Ok(no_changes(asked.alloc));
    }
    one_change(asked, Change::PutJoin(row))
}

/// Ends the join of a principal role to a role of a catalogue.
#[tactic(auto, using(pol_rules::proofs::ProloguesLemmas::in_catalog_stops, crate::proofs::ChangesLemmas::ended_join_changes), unfolding(pol_rules::specs::AccessRules::join_of))]
pub fn end_join(
    asked: &Asked<'_>,
    catalog: &Plain,
    role: &Plain,
    catalog_role: &Plain,
) -> Result<Acted, Undone>
    requires { IsSound asked.now.state.now.rows }
    ensures { Acts asked.now (λ s command. end_join s command catalog.now role.now catalog_role.now) result }
{
    let owner = in_catalog(asked, catalog)?;
    let group = principal_role_there(asked, role)?;
    let target = catalog_role_there(asked, owner, catalog_role)?;
    let row = JoinRow {
        principal_role: group.id,
        catalog_role: target.id,
    };
    join_there(asked, catalog_role, &row)?;
    join_may_end(asked.alloc, role, catalog_role)?;
    let changes = one_change(asked, Change::DropJoin(row))?;
    Ok(Acted {
        answer: Answer::JoinEnded,
        changes,
    })
}
