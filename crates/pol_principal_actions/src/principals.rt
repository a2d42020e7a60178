ghost use Rattle.std.specs.Prelude.{◌≡◌, ◌≤◌, ◌^◌, map, Some, IfOk};
ghost use Rattle.pol_access.specs.Access.{principal_id, principal_name};
ghost use Rattle.pol_access.specs.Names.{principal_of_client};
ghost use Rattle.pol_access.specs.Order.{by_name};
ghost use Rattle.pol_tables.specs.Table.{row_of};
ghost use Rattle.pol_rules.specs.Judged.{Acts, Judges, changes_to};
ghost use Rattle.pol_rules.specs.Rules.{name_taken};
ghost use Rattle.pol_principal_actions.specs.Principals.{client_id_or, create_principal, drop_principal, get_principal, list_principals, new_principal, rotate, rotated, secret_or, with_new_principal, without_principal};
ghost use Rattle.pol_state.specs.Sound.{IsSound};
ghost use Rattle.pol_commands.specs.declared.reply.Answer.TheVariants.{PrincipalCreated, PrincipalDropped, SecretRotated};

use crate::drawn::{client_id_or, secret_or};
use pol_access::{PrincipalRow, Referent};
use pol_commands::Answer;
use pol_content::Change;
use pol_names::Plain;
use pol_puts::put_principal;
use pol_rules::access_rules::{ROOT, client_free, principal_free, principal_there, unreserved};
use pol_rules::changes::{no_changes, one_change, under_next_id};
use pol_rules::drops::push_members;
use pol_rules::prologues::in_realm;
use pol_rules::rules::{Acted, Asked, Undone, time_of, unchanged};
use pol_state::texts::digest;
use pol_types::{Listed, OutOfMemory, Text};
use std::alloc::Global;

/// Lists all principals.
#[tactic(auto, using(pol_rules::proofs::ProloguesLemmas::in_realm_stops, pol_rules::proofs::LeadsLemmas::no_changes))]
pub fn list_principals(asked: &Asked<'_>) -> Result<Acted, Undone>
    requires { IsSound asked.now.state.now.rows }
    ensures { Acts asked.now list_principals result }
{
    in_realm(asked)?;
    let rows = all_principals(asked)?;
    Ok(unchanged(asked.alloc, Answer::PrincipalsListed(rows)))
}

/// All principals, in byte order of their names.
fn all_principals(asked: &Asked<'_>) -> Result<Listed<PrincipalRow>, OutOfMemory>
    ensures { IfOk result (λ rows. rows ≡ by_name principal_name asked.now.state.now.rows.access.principals) }
{
    let rows = asked.state.access().principals_by_name(asked.alloc)?;
    copies(asked.alloc, rows.as_slice())
}

fn copies(alloc: Global, rows: &[&PrincipalRow]) -> Result<Listed<PrincipalRow>, OutOfMemory>
    ensures { IfOk result (λ copies. copies ≡ map (λ row. row.now) rows.now) }
{
    let mut copies = Vec::new(alloc);
    for row in rows {
        copies.push((*row).clone()?)?;
    }
    Ok(Listed::from(copies))
}

/// Creates a principal.
#[tactic(auto, using(pol_rules::proofs::ProloguesLemmas::in_realm_stops, pol_state::proofs::BoundsLemmas::next_id_bound))]
pub fn create_principal(
    asked: &Asked<'_>,
    name: &Plain,
    client_id: &Option<Text>,
    secret: &Option<Text>,
) -> Result<Acted, Undone>
    requires { IsSound asked.now.state.now.rows }
    ensures { Acts asked.now (λ s command. create_principal s command name.now client_id.now secret.now) result }
{
    in_realm(asked)?;
    principal_free(asked, name)?;
    let client_id = free_client_id(asked, client_id)?;
    Ok(created(asked, name, client_id, secret)?)
}

/// The client id of a new principal, given or drawn, which no principal has.
#[tactic(auto, unfolding(pol_rules::specs::Rules::name_taken))]
fn free_client_id(asked: &Asked<'_>, client_id: &Option<Text>) -> Result<Text, Undone>
    requires { IsSound asked.now.state.now.rows }
    ensures { let s = asked.now.state.now.rows in
        let free = client_id_or client_id.now asked.now.command.now.words.a in
        Judges (name_taken (principal_of_client free s.access) free) (λ text. text ≡ free) result }
{
    let text = client_id_or(asked.alloc, client_id, asked.command.words.a)?;
    client_free(asked, text.as_str())?;
    Ok(text)
}

/// The principal of these is put with its secret, given or drawn, and an id is taken.
fn created(
    asked: &Asked<'_>,
    name: &Plain,
    client_id: Text,
    secret: &Option<Text>,
) -> Result<Acted, OutOfMemory>
    requires sound { IsSound asked.now.state.now.rows }
    requires within { asked.now.state.now.rows.next_id ≤ 2 ^ 62 }
    ensures answer { let words = asked.now.command.now.words in
        IfOk result (λ acted. acted.answer
        ≡ PrincipalCreated name.now client_id (secret_or secret.now words.b words.c)) }
    ensures changes { let words = asked.now.command.now.words in
        IfOk result (λ acted. acted.changes ≡ changes_to asked.now (λ s.
        with_new_principal s (new_principal s name.now client_id (secret_or secret.now words.b words.c)))) }
{
    let words = &asked.command.words;
    let secret = secret_or(asked.alloc, secret, words.b, words.c)?;
    let row = new_principal(asked, name, client_id, &secret)?;
    Acted::of(creation_told(&row, secret), creation_changes(asked, row))
}

/// The principal of these, which takes the next id.
fn new_principal(
    asked: &Asked<'_>,
    name: &Plain,
    client_id: Text,
    secret: &Text,
) -> Result<PrincipalRow, OutOfMemory>
    ensures { IfOk result (λ row. row ≡ new_principal asked.now.state.now.rows name.now client_id secret.now) }
{
    Ok(PrincipalRow {
        id: asked.state.next_id(),
        name: name.clone()?,
        client_id,
        digest: digest(secret.as_str()),
    })
}

/// What is told of a new principal.
fn creation_told(row: &PrincipalRow, secret: Text) -> Result<Answer, OutOfMemory>
    ensures { IfOk result (λ answer. answer ≡ PrincipalCreated row.now.name row.now.client_id secret) }
{
    let (name, client_id) = known_by(row)?;
    Ok(Answer::PrincipalCreated {
        name,
        client_id,
        secret,
    })
}

/// The name and the client id of a principal.
fn known_by(row: &PrincipalRow) -> Result<(Plain, Text), OutOfMemory>
    ensures name { IfOk result (λ both. both.0 ≡ row.now.name) }
    ensures client_id { IfOk result (λ both. both.1 ≡ row.now.client_id) }
{
    Ok((row.name.clone()?, row.client_id.clone()?))
}

/// The changes that put a principal, which takes the next id.
#[tactic(auto, using(crate::proofs::ChangesLemmas::new_principal_changes))]
fn creation_changes(asked: &Asked<'_>, row: PrincipalRow) -> Result<Listed<Change>, OutOfMemory>
    requires sound { IsSound asked.now.state.now.rows }
    requires id { row.id ≡ asked.now.state.now.rows.next_id }
    requires within { asked.now.state.now.rows.next_id ≤ 2 ^ 62 }
    ensures { IfOk result (λ changes. changes ≡ changes_to asked.now (λ s. with_new_principal s row)) }
{
    under_next_id(asked, put_principal(asked.alloc, row)?)
}

/// Shows a principal.
#[tactic(auto, using(pol_rules::proofs::ProloguesLemmas::in_realm_stops, pol_rules::proofs::LeadsLemmas::no_changes))]
pub fn get_principal(asked: &Asked<'_>, name: &Plain) -> Result<Acted, Undone>
    requires { IsSound asked.now.state.now.rows }
    ensures { Acts asked.now (λ s command. get_principal s command name.now) result }
{
    in_realm(asked)?;
    let row = principal_there(asked, name)?.clone()?;
    Ok(unchanged(asked.alloc, Answer::PrincipalLoaded(row)))
}

/// Drops a principal.
#[tactic(auto, using(pol_rules::proofs::ProloguesLemmas::in_realm_stops))]
pub fn drop_principal(asked: &Asked<'_>, name: &Plain) -> Result<Acted, Undone>
    requires { IsSound asked.now.state.now.rows }
    ensures { Acts asked.now (λ s command. drop_principal s command name.now) result }
{
    in_realm(asked)?;
    let row = principal_there(asked, name)?;
    unreserved(asked.alloc, ROOT, name)?;
    Ok(dropped(asked, row)?)
}

/// The principal is taken away, with its memberships.
fn dropped(asked: &Asked<'_>, row: &PrincipalRow) -> Result<Acted, OutOfMemory>
    requires sound { IsSound asked.now.state.now.rows }
    requires there { row_of principal_id row.now.id asked.now.state.now.rows.access.principals ≡ Some row.now }
    ensures answer { IfOk result (λ acted. acted.answer ≡ PrincipalDropped) }
    ensures changes { IfOk result (λ acted. acted.changes ≡ changes_to asked.now (λ s. without_principal s row.now)) }
{
    let mut changes = vec![in asked.alloc;
        Change::Time(time_of(asked)),
        Change::DropPrincipal(row.id),
    ]?;
    push_members(asked, Referent::Principal(row.id), &mut changes)?;
    Ok(Acted {
        answer: Answer::PrincipalDropped,
        changes: Listed::from(changes),
    })
}

/// Gives a principal another secret.
#[tactic(auto, using(pol_rules::proofs::ProloguesLemmas::in_realm_stops))]
pub fn rotate(asked: &Asked<'_>, name: &Plain, secret: &Option<Text>) -> Result<Acted, Undone>
    requires { IsSound asked.now.state.now.rows }
    ensures { Acts asked.now (λ s command. rotate s command name.now secret.now) result }
{
    in_realm(asked)?;
    let row = principal_there(asked, name)?;
    let opens = secret_or(
        asked.alloc,
        secret,
        asked.command.words.a,
        asked.command.words.b,
    )?;
    Ok(given_secret(asked, row, opens)?)
}

/// The principal gets the secret.
fn given_secret(asked: &Asked<'_>, row: &PrincipalRow, secret: Text) -> Result<Acted, OutOfMemory>
    requires sound { IsSound asked.now.state.now.rows }
    requires there { row_of principal_id row.now.id asked.now.state.now.rows.access.principals ≡ Some row.now }
    ensures answer { IfOk result (λ acted. acted.answer ≡ SecretRotated row.now.name row.now.client_id secret) }
    ensures changes { IfOk result (λ acted. acted.changes ≡ changes_to asked.now (λ s. rotated s secret row.now)) }
{
    let changes = rotated_changes(asked, row, secret.as_str());
    Acted::of(rotation_told(row, secret), changes)
}

/// What is told of a principal's other secret.
fn rotation_told(row: &PrincipalRow, secret: Text) -> Result<Answer, OutOfMemory>
    ensures { IfOk result (λ answer. answer ≡ SecretRotated row.now.name row.now.client_id secret) }
{
    let (name, client_id) = known_by(row)?;
    Ok(Answer::SecretRotated {
        name,
        client_id,
        secret,
    })
}

/// The changes by which a principal gets another secret: none where it has the secret already.
#[tactic(auto, using(crate::proofs::ChangesLemmas::same_secret_changes, crate::proofs::ChangesLemmas::other_secret_changes))]
fn rotated_changes(
    asked: &Asked<'_>,
    row: &PrincipalRow,
    secret: &str,
) -> Result<Listed<Change>, OutOfMemory>
    requires sound { IsSound asked.now.state.now.rows }
    requires there { row_of principal_id row.now.id asked.now.state.now.rows.access.principals ≡ Some row.now }
    ensures { IfOk result (λ changes. changes ≡ changes_to asked.now (λ s. rotated s secret.now row.now)) }
{
    if row.digest == digest(secret) {
        return Ok(no_changes(asked.alloc));
    }
    let (name, client_id) = known_by(row)?;
    let altered = PrincipalRow {
        id: row.id,
        name,
        client_id,
        digest: digest(secret),
    };
    one_change(asked, put_principal(asked.alloc, altered)?)
}
