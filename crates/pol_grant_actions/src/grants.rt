ghost use Rattle.std.specs.Prelude.{◌≡◌, ◌++◌, IfOk, OnOk, filter_map, option_to_list};
ghost use Rattle.pol_grant_actions.specs.Grants.{add_grant, grants_held, list_grants, named_grant, named_on, revoke, table_named_on, view_named_on, with_grant};
ghost use Rattle.pol_rules.specs.Judged.{Acts, changes_to};
ghost use Rattle.pol_state.specs.Sound.{IsSound};

use pol_access::{CatalogRoleRow, GrantRow, Referent, Securable};
use pol_commands::{Answer, Grant, GrantedOn};
use pol_content::{Change, TableRow, ViewRow};
use pol_names::{Identifier, Plain};
use pol_rules::access_rules::{catalog_role_there, grant_may_end, grant_there, securable_there};
use pol_rules::changes::{no_changes, one_change};
use pol_rules::prologues::in_catalog;
use pol_rules::rules::{Acted, Asked, Undone, unchanged};
use pol_state::State;
use pol_types::{Listed, OutOfMemory};

/// Lists the grants of a catalogue's role.
#[tactic(auto, using(pol_rules::proofs::ProloguesLemmas::in_catalog_stops, pol_rules::proofs::LeadsLemmas::no_changes))]
pub fn list_grants(asked: &Asked<'_>, catalog: &Plain, role: &Plain) -> Result<Acted, Undone>
    requires { IsSound asked.now.state.now.rows }
    ensures { Acts asked.now (λ s command. list_grants s command catalog.now role.now) result }
{
    let owner = in_catalog(asked, catalog)?;
    let row = catalog_role_there(asked, owner, role)?;
    let grants = grants_held(asked, row)?;
    Ok(unchanged(asked.alloc, Answer::GrantsListed(grants)))
}

/// The grants of a role, in the order of their rows.
fn grants_held(asked: &Asked<'_>, role: &CatalogRoleRow) -> Result<Listed<Grant>, OutOfMemory>
    ensures { IfOk result (λ grants. grants ≡ grants_held asked.now.state.now.rows role.now) }
{
    let access = asked.state.access();
    let rows = access.grants_of(asked.alloc, Referent::CatalogRole(role.id))?;
    named_grants(asked, rows.as_slice())
}

/// The grants by the names of what they are on, in their order.
fn named_grants(asked: &Asked<'_>, rows: &[GrantRow]) -> Result<Listed<Grant>, OutOfMemory>
    ensures { IfOk result (λ grants. grants ≡ filter_map (named_grant asked.now.state.now.rows) rows.now) }
{
    let mut grants = Vec::new(asked.alloc);
    for row in rows {
        push_named(asked.state, row, &mut grants)?;
    }
    Ok(Listed::from(grants))
}

/// Pushes a grant by the name of what it is on, where that is there.
fn push_named(state: &State, row: &GrantRow, grants: &mut Vec<Grant>) -> Result<(), OutOfMemory>
    ensures { OnOk result (grants.new.items ≡ grants.old.items ++ option_to_list (named_grant state.now.rows row.now)) }
{
    if let Some(grant) = named_grant(state, row)? {
        grants.push(grant)?;
    }
    Ok(())
}

/// A grant by the name of what it is on.
fn named_grant(state: &State, row: &GrantRow) -> Result<Option<Grant>, OutOfMemory>
    ensures { IfOk result (λ grant. grant ≡ named_grant state.now.rows row.now) }
{
    match named_on(state, row.securable)? {
        Some(on) => Ok(Grant::new(row.privilege, on)),
        None => Ok(None),
    }
}

/// The securable by its name in its catalogue.
fn named_on(state: &State, securable: Securable) -> Result<Option<GrantedOn>, OutOfMemory>
    ensures { IfOk result (λ on. on ≡ named_on state.now.rows securable) }
{
    match securable {
        Securable::Catalog(_) => Ok(Some(GrantedOn::Catalog)),
        Securable::Namespace(id) => match state.content().namespace_of(id) {
            Some(row) => Ok(Some(GrantedOn::Namespace(row.levels.clone()?))),
            None => Ok(None),
        },
        Securable::Table(id) => match state.content().table_of(id) {
            Some(row) => table_named_on(state, row),
            None => Ok(None),
        },
        Securable::View(id) => match state.content().view_of(id) {
            Some(row) => view_named_on(state, row),
            None => Ok(None),
        },
        Securable::Realm => Ok(None),
    }
}

/// A table by its name in its catalogue.
fn table_named_on(state: &State, row: &TableRow) -> Result<Option<GrantedOn>, OutOfMemory>
    ensures { IfOk result (λ on. on ≡ table_named_on state.now.rows row.now) }
{
    match state.content().namespace_of(row.namespace) {
        Some(namespace) => Ok(Some(GrantedOn::Table(Identifier {
            namespace: namespace.levels.clone()?,
            name: row.name.clone()?,
        }))),
        None => Ok(None),
    }
}

/// A view by its name in its catalogue.
fn view_named_on(state: &State, row: &ViewRow) -> Result<Option<GrantedOn>, OutOfMemory>
    ensures { IfOk result (λ on. on ≡ view_named_on state.now.rows row.now) }
{
    match state.content().namespace_of(row.namespace) {
        Some(namespace) => Ok(Some(GrantedOn::View(Identifier {
            namespace: namespace.levels.clone()?,
            name: row.name.clone()?,
        }))),
        None => Ok(None),
    }
}

/// Grants a privilege to a role of a catalogue.
#[tactic(auto, using(pol_rules::proofs::ProloguesLemmas::in_catalog_stops), unfolding(pol_rules::specs::AccessRules::grant_of))]
pub fn add_grant(
    asked: &Asked<'_>,
    catalog: &Plain,
    role: &Plain,
    grant: &Grant,
) -> Result<Acted, Undone>
    requires { IsSound asked.now.state.now.rows }
    ensures { Acts asked.now (λ s command. add_grant s command catalog.now role.now grant.now) result }
{
    let owner = in_catalog(asked, catalog)?;
    let securable = securable_there(asked, owner, &grant.on)?;
    let holder = catalog_role_there(asked, owner, role)?;
    let row = GrantRow {
        catalog_role: holder.id,
        privilege: grant.privilege,
        securable,
    };
    let changes = added(asked, row)?;
    Ok(Acted {
        answer: Answer::GrantAdded,
        changes,
    })
}

/// The changes by which a grant is put: none where it is there.
#[tactic(auto, using(crate::proofs::ChangesLemmas::known_grant_changes, crate::proofs::ChangesLemmas::new_grant_changes))]
fn added(asked: &Asked<'_>, row: GrantRow) -> Result<Listed<Change>, OutOfMemory>
    ensures { IfOk result (λ changes. changes ≡ changes_to asked.now (λ s. with_grant s row)) }
{
    if asked.state.access().has_grant(&row) {
        return Ok(no_changes(asked.alloc));
    }
    one_change(asked, Change::PutGrant(row))
}

/// Revokes a grant of a catalogue's role.
#[tactic(auto, using(pol_rules::proofs::ProloguesLemmas::in_catalog_stops, crate::proofs::ChangesLemmas::ended_grant_changes), unfolding(pol_rules::specs::AccessRules::grant_of))]
pub fn revoke(
    asked: &Asked<'_>,
    catalog: &Plain,
    role: &Plain,
    grant: &Grant,
) -> Result<Acted, Undone>
    requires { IsSound asked.now.state.now.rows }
    ensures { Acts asked.now (λ s command. revoke s command catalog.now role.now grant.now) result }
{
    let owner = in_catalog(asked, catalog)?;
    let securable = securable_there(asked, owner, &grant.on)?;
    let holder = catalog_role_there(asked, owner, role)?;
    let row = GrantRow {
        catalog_role: holder.id,
        privilege: grant.privilege,
        securable,
    };
    grant_there(asked, &row)?;
    grant_may_end(asked.alloc, role, grant)?;
    let changes = one_change(asked, Change::DropGrant(row))?;
    Ok(Acted {
        answer: Answer::GrantRevoked,
        changes,
    })
}
