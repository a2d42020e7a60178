ghost use Rattle.std.specs.Prelude.{◌≡◌, ◌≤◌, ◌^◌, map, Some, IfOk};
ghost use Rattle.pol_access.specs.Access.{principal_role_id, principal_role_name};
ghost use Rattle.pol_access.specs.Order.{by_name};
ghost use Rattle.pol_tables.specs.Table.{row_of};
ghost use Rattle.pol_rules.specs.Judged.{Acts, changes_to};
ghost use Rattle.pol_principal_actions.specs.PrincipalRoles.{create_principal_role, drop_principal_role, get_principal_role, list_principal_roles, with_principal_role, without_principal_role};
ghost use Rattle.pol_state.specs.Sound.{IsSound};
ghost use Rattle.pol_commands.specs.declared.reply.Answer.TheVariants.{RoleCreated, RoleDropped};

use pol_access::{PrincipalRoleRow, Referent};
use pol_commands::Answer;
use pol_content::Change;
use pol_names::Plain;
use pol_rules::access_rules::{
    SERVICE_ADMIN, principal_role_free, principal_role_there, unreserved,
};
use pol_rules::changes::under_next_id;
use pol_rules::drops::{push_joins, push_members};
use pol_rules::prologues::in_realm;
use pol_rules::rules::{Acted, Asked, Undone, time_of, unchanged};
use pol_types::{Listed, OutOfMemory};
use std::alloc::Global;

/// Lists all principal roles.
#[tactic(auto, using(pol_rules::proofs::LeadsLemmas::no_changes, pol_rules::proofs::ProloguesLemmas::in_realm_stops))]
pub fn list_principal_roles(asked: &Asked<'_>) -> Result<Acted, Undone>
    requires { IsSound asked.now.state.now.rows }
    ensures { Acts asked.now list_principal_roles result }
{
    in_realm(asked)?;
    let roles = all_roles(asked)?;
    Ok(unchanged(asked.alloc, Answer::RolesListed(roles)))
}

/// The names of all principal roles, in byte order.
#[tactic(auto, using(crate::proofs::NamesLemmas::role_names_shown))]
fn all_roles(asked: &Asked<'_>) -> Result<Listed<Plain>, OutOfMemory>
    ensures { IfOk result (λ roles. roles
        ≡ map principal_role_name (by_name principal_role_name
        asked.now.state.now.rows.access.principal_roles)) }
{
    let rows = asked.state.access().principal_roles_by_name(asked.alloc)?;
    names_of(asked.alloc, rows.as_slice())
}

/// The names of principal roles, in their order.
pub(crate) fn names_of(
    alloc: Global,
    rows: &[&PrincipalRoleRow],
) -> Result<Listed<Plain>, OutOfMemory>
    ensures { IfOk result (λ names. names ≡ map (λ row. row.now.name) rows.now) }
{
    let mut names = Vec::new(alloc);
    for row in rows {
        names.push(row.name.clone()?)?;
    }
    Ok(Listed::from(names))
}

/// Creates a principal role.
#[tactic(auto, using(pol_rules::proofs::ProloguesLemmas::in_realm_stops, pol_state::proofs::BoundsLemmas::next_id_bound))]
pub fn create_principal_role(asked: &Asked<'_>, name: &Plain) -> Result<Acted, Undone>
    requires { IsSound asked.now.state.now.rows }
    ensures { Acts asked.now (λ s command. create_principal_role s command name.now) result }
{
    in_realm(asked)?;
    principal_role_free(asked, name)?;
    let row = PrincipalRoleRow {
        id: asked.state.next_id(),
        name: name.clone()?,
    };
    Ok(created(asked, row)?)
}

/// The principal role is put, and an id is taken.
#[tactic(auto, using(crate::proofs::ChangesLemmas::principal_role_changes))]
fn created(asked: &Asked<'_>, row: PrincipalRoleRow) -> Result<Acted, OutOfMemory>
    requires sound { IsSound asked.now.state.now.rows }
    requires id { row.id ≡ asked.now.state.now.rows.next_id }
    requires within { asked.now.state.now.rows.next_id ≤ 2 ^ 62 }
    ensures answer { IfOk result (λ acted. acted.answer ≡ RoleCreated) }
    ensures changes { IfOk result (λ acted. acted.changes ≡ changes_to asked.now (λ s. with_principal_role s row)) }
{
    let changes = under_next_id(asked, Change::PutPrincipalRole(row))?;
    Ok(Acted {
        answer: Answer::RoleCreated,
        changes,
    })
}

/// Shows a principal role.
#[tactic(auto, using(pol_rules::proofs::ProloguesLemmas::in_realm_stops, pol_rules::proofs::LeadsLemmas::no_changes))]
pub fn get_principal_role(asked: &Asked<'_>, name: &Plain) -> Result<Acted, Undone>
    requires { IsSound asked.now.state.now.rows }
    ensures { Acts asked.now (λ s command. get_principal_role s command name.now) result }
{
    in_realm(asked)?;
    principal_role_there(asked, name)?;
    let name = name.clone()?;
    Ok(unchanged(asked.alloc, Answer::RoleLoaded { name }))
}

/// Drops a principal role.
#[tactic(auto, using(pol_rules::proofs::ProloguesLemmas::in_realm_stops))]
pub fn drop_principal_role(asked: &Asked<'_>, name: &Plain) -> Result<Acted, Undone>
    requires { IsSound asked.now.state.now.rows }
    ensures { Acts asked.now (λ s command. drop_principal_role s command name.now) result }
{
    in_realm(asked)?;
    let row = principal_role_there(asked, name)?;
    unreserved(asked.alloc, SERVICE_ADMIN, name)?;
    Ok(dropped(asked, row)?)
}

/// The principal role is taken away, with its members and its joins.
fn dropped(asked: &Asked<'_>, row: &PrincipalRoleRow) -> Result<Acted, OutOfMemory>
    requires sound { IsSound asked.now.state.now.rows }
    requires there { row_of principal_role_id row.now.id
        asked.now.state.now.rows.access.principal_roles ≡ Some row.now }
    ensures answer { IfOk result (λ acted. acted.answer ≡ RoleDropped) }
    ensures changes { IfOk result (λ acted. acted.changes
        ≡ changes_to asked.now (λ s. without_principal_role s row.now)) }
{
    let mut changes = vec![in asked.alloc;
        Change::Time(time_of(asked)),
        Change::DropPrincipalRole(row.id),
    ]?;
    push_members(asked, Referent::PrincipalRole(row.id), &mut changes)?;
    push_joins(asked, Referent::PrincipalRole(row.id), &mut changes)?;
    Ok(Acted {
        answer: Answer::RoleDropped,
        changes: Listed::from(changes),
    })
}
