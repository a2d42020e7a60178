ghost use Rattle.std.specs.Prelude.{◌≡◌, IfOk};
ghost use Rattle.pol_rules.specs.Judged.{Acts, changes_to};
ghost use Rattle.pol_principal_actions.specs.Members.{add_member, end_member, list_members, roles_held, with_member};
ghost use Rattle.pol_state.specs.Sound.{IsSound};

use crate::principal_roles::names_of;
use pol_access::{MemberRow, PrincipalRow};
use pol_commands::Answer;
use pol_content::Change;
use pol_names::Plain;
use pol_rules::access_rules::{
    member_may_end, member_there, principal_role_there, principal_there,
};
use pol_rules::changes::{no_changes, one_change};
use pol_rules::prologues::in_realm;
use pol_rules::rules::{Acted, Asked, Undone, unchanged};
use pol_types::{Listed, OutOfMemory};

/// Lists the principal roles of which a principal is a member.
#[tactic(auto, using(pol_rules::proofs::ProloguesLemmas::in_realm_stops, pol_rules::proofs::LeadsLemmas::no_changes))]
pub fn list_members(asked: &Asked<'_>, principal: &Plain) -> Result<Acted, Undone>
    requires { IsSound asked.now.state.now.rows }
    ensures { Acts asked.now (λ s command. list_members s command principal.now) result }
{
    in_realm(asked)?;
    let row = principal_there(asked, principal)?;
    let roles = roles_held(asked, row)?;
    Ok(unchanged(asked.alloc, Answer::RolesListed(roles)))
}

/// The names of the principal roles of which a principal is a member.
#[tactic(auto, using(crate::proofs::NamesLemmas::role_names_shown))]
fn roles_held(asked: &Asked<'_>, principal: &PrincipalRow) -> Result<Listed<Plain>, OutOfMemory>
    ensures { IfOk result (λ roles. roles ≡ roles_held asked.now.state.now.rows principal.now) }
{
    let access = asked.state.access();
    let rows = access.roles_of_principal(asked.alloc, principal.id)?;
    names_of(asked.alloc, rows.as_slice())
}

/// Makes a principal a member of a principal role.
#[tactic(auto, using(pol_rules::proofs::ProloguesLemmas::in_realm_stops), unfolding(pol_rules::specs::AccessRules::member_of))]
pub fn add_member(asked: &Asked<'_>, principal: &Plain, role: &Plain) -> Result<Acted, Undone>
    requires { IsSound asked.now.state.now.rows }
    ensures { Acts asked.now (λ s command. add_member s command principal.now role.now) result }
{
    in_realm(asked)?;
    let member = principal_there(asked, principal)?;
    let group = principal_role_there(asked, role)?;
    let row = MemberRow {
        principal: member.id,
        role: group.id,
    };
    let changes = added(asked, row)?;
    Ok(Acted {
        answer: Answer::MemberAdded,
        changes,
    })
}

/// The changes by which a membership is put: none where it is there.
#[tactic(auto, using(crate::proofs::ChangesLemmas::known_member_changes, crate::proofs::ChangesLemmas::new_member_changes))]
fn added(asked: &Asked<'_>, row: MemberRow) -> Result<Listed<Change>, OutOfMemory>
    ensures { IfOk result (λ changes. changes ≡ changes_to asked.now (λ s. with_member s row)) }
{
    if asked.state.access().is_member(row.principal, row.role) {
        return Ok(no_changes(asked.alloc));
    }
    one_change(asked, Change::PutMember(row))
}

/// Ends a principal's membership in a principal role.
#[tactic(auto, using(pol_rules::proofs::ProloguesLemmas::in_realm_stops, crate::proofs::ChangesLemmas::ended_member_changes), unfolding(pol_rules::specs::AccessRules::member_of))]
pub fn end_member(asked: &Asked<'_>, principal: &Plain, role: &Plain) -> Result<Acted, Undone>
    requires { IsSound asked.now.state.now.rows }
    ensures { Acts asked.now (λ s command. end_member s command principal.now role.now) result }
{
    in_realm(asked)?;
    let member = principal_there(asked, principal)?;
    let group = principal_role_there(asked, role)?;
    let row = MemberRow {
        principal: member.id,
        role: group.id,
    };
    member_there(asked, role, &row)?;
    member_may_end(asked.alloc, principal, role)?;
    let changes = one_change(asked, Change::DropMember(row))?;
    Ok(Acted {
        answer: Answer::MemberEnded,
        changes,
    })
}
